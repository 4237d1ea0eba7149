// The checks of apply, one after the other in the order of the refusal table. `room` is the length of the result.
#![tactic(auto, unfolding(table::specs::Replies::answer))]

ghost use Rattle.std.specs.Prelude.{List, ◌≡◌, ℕ, length};
ghost use Rattle.table.specs.Words.{table as tab};
ghost use Rattle.table.specs.Calls.{apply_checks};
ghost use Rattle.check_numbers.specs.Replied.{Checked};

use check_numbers::{COLUMN, RESULT, Refusal, TABLE};
use check_steps::{check_column, check_room, check_table_room, check_table_words};

pub fn check_apply(
    p: u32,
    n: u32,
    r: u32,
    s: u32,
    t: &[u32],
    x: &[u32],
    room: usize,
) -> Result<(), Refusal>
    ensures { (d : List ℕ) → length d ≡ room → Checked (apply_checks p n (tab r s t.now) x.now d) result }
{
    check_numbers::numbers(p, n, r, s)?;
    check_table_room(TABLE, t.len(), n, r, s)?;
    check_room(COLUMN, x.len(), n as usize)?;
    check_room(RESULT, room, n as usize)?;
    check_table_words(TABLE, p, n, r, s, t)?;
    check_column(COLUMN, p, n, x)?;
    Ok(())
}
