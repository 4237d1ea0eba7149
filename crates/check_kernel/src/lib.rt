// The checks of the kernel call's check, one after the other in the order of the refusal table. Those of the kernel call are check_table::check_result.
#![tactic(auto, unfolding(table::specs::Replies::answer))]

ghost use Rattle.table.specs.Words.{table as tab};
ghost use Rattle.table_kernel.specs.KernelCall.{shows_checks};
ghost use Rattle.check_numbers.specs.Replied.{Checked};

use check_numbers::{COLUMN, Refusal, TABLE};
use check_steps::{check_column, check_room, check_table_room, check_table_words};

pub fn check_shows(
    p: u32,
    n: u32,
    r: u32,
    s: u32,
    k: u32,
    t: &[u32],
    x: &[u32],
) -> Result<(), Refusal>
    ensures { Checked (shows_checks p n (tab r s t.now) k x.now) result }
{
    check_numbers::numbers(p, n, r, s)?;
    if check_numbers::bad_place(n, k) {
        return Err(Refusal::Place);
    }
    check_table_room(TABLE, t.len(), n, r, s)?;
    check_room(COLUMN, x.len(), n as usize)?;
    check_table_words(TABLE, p, n, r, s, t)?;
    check_column(COLUMN, p, n, x)?;
    Ok(())
}
