// The checks of entry and whole matrix, one after the other in the order of the refusal table. `room` is the length of the result.
#![tactic(auto, unfolding(table::specs::Replies::answer))]

ghost use Rattle.std.specs.Prelude.{List, ◌≡◌, ℕ, length};
ghost use Rattle.table.specs.Words.{table as tab};
ghost use Rattle.table.specs.Calls.{entry_checks, matrix_checks};
ghost use Rattle.check_numbers.specs.Replied.{Checked};

use check_numbers::{Refusal, TABLE};
use check_steps::{check_table_room, check_table_words};

pub fn check_entry(p: u32, n: u32, r: u32, s: u32, i: u32, j: u32, t: &[u32]) -> Result<(), Refusal>
    ensures { Checked (entry_checks p n (tab r s t.now) i j) result }
{
    check_numbers::numbers(p, n, r, s)?;
    if check_numbers::bad_place(n, i) || check_numbers::bad_place(n, j) {
        return Err(Refusal::Place);
    }
    check_table_room(TABLE, t.len(), n, r, s)?;
    check_table_words(TABLE, p, n, r, s, t)?;
    Ok(())
}

pub fn check_matrix(p: u32, n: u32, r: u32, s: u32, t: &[u32], room: usize) -> Result<(), Refusal>
    ensures { (d : List ℕ) → length d ≡ room → Checked (matrix_checks p n (tab r s t.now) d) result }
{
    let size = n as usize;
    let need = size * size;
    check_table::check_result(p, n, r, s, t, need, room)
}
