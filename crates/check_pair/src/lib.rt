// The checks of sum and product, one after the other in the order of the refusal table. `room` is the length of the result.
#![tactic(auto, unfolding(table::specs::Replies::answer))]

ghost use Rattle.std.specs.Prelude.{List, ◌≡◌, ℕ, length};
ghost use Rattle.table.specs.Words.{table as tab};
ghost use Rattle.table.specs.Calls.{pair_checks};
ghost use Rattle.check_numbers.specs.Replied.{Checked};

use check_numbers::{RESULT, Refusal, SECOND_TABLE, TABLE};
use check_steps::{check_table_room, check_table_words};

pub fn check_pair(
    p: u32,
    n: u32,
    r1: u32,
    s1: u32,
    r2: u32,
    s2: u32,
    t1: &[u32],
    t2: &[u32],
    room: usize,
) -> Result<(), Refusal>
    ensures { (d : List ℕ) → length d ≡ room
        → Checked (pair_checks p n (tab r1 s1 t1.now) (tab r2 s2 t2.now) d) result }
{
    check_numbers::numbers(p, n, r1, s1)?;
    if check_numbers::bad_order(r2, s2) {
        return Err(Refusal::Orders {
            buffer: SECOND_TABLE,
        });
    }
    let r = r1 + r2;
    let s = s1 + s2;
    if check_numbers::bad_order(r, s) {
        return Err(Refusal::AddedOrders);
    }
    check_table_room(TABLE, t1.len(), n, r1, s1)?;
    check_table_room(SECOND_TABLE, t2.len(), n, r2, s2)?;
    check_table_room(RESULT, room, n, r, s)?;
    check_table_words(TABLE, p, n, r1, s1, t1)?;
    check_table_words(SECOND_TABLE, p, n, r2, s2, t2)?;
    Ok(())
}
