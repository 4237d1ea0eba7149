// The checks that a call's checks are put together from: each looks for one cause.
#![tactic(auto, unfolding(table::specs::Replies::answer))]

ghost use Rattle.std.specs.Prelude.{[], ◌∷◌, ◌*◌, ◌<◌, ◌≤◌, ltb, length, IfSome};
ghost use Rattle.lists.specs.Lists.{counted};
ghost use Rattle.table.specs.Words.{table as tab, width, first_bad_place_of};
ghost use Rattle.table.specs.Replies.{check, check_row, refuse};
ghost use Rattle.table.specs.Calls.{check_words_of};
ghost use Rattle.check_numbers.specs.Replied.{Checked};
ghost use Rattle.check_steps.specs.Checked.{Sized, TableSized};

use check_numbers::Refusal;

// A buffer that has less room than is needed.
pub fn check_room(buffer: u32, room: usize, need: usize) -> Result<(), Refusal>
    ensures { Checked (check (ltb room need) (refuse 4 buffer 0) ∷ []) result }
{
    if room < need {
        return Err(Refusal::Short { buffer });
    }
    Ok(())
}

// A buffer that has less room than the n rows of a table need.
pub fn check_table_room(buffer: u32, room: usize, n: u32, r: u32, s: u32) -> Result<(), Refusal>
    requires { Sized n r s }
    ensures { Checked (check (ltb room (n * width r s)) (refuse 4 buffer 0) ∷ []) result }
{
    check_room(
        buffer,
        room,
        n as usize * check_numbers::row_width(r as usize, s as usize),
    )
}

// A row or a place, from 0, whose word a search has found not to be below p.
fn check_found(buffer: u32, found: Option<usize>) -> Result<(), Refusal>
    requires { IfSome found (λ k. k < 4294967295) }
    ensures { Checked (check_row (counted found) (refuse 5 buffer) ∷ []) result }
{
    if let Some(k) = found {
        let row = k as u32 + 1;
        return Err(Refusal::Word { buffer, row });
    }
    Ok(())
}

// A used word of a table that is not below p.
pub fn check_table_words(
    buffer: u32,
    p: u32,
    n: u32,
    r: u32,
    s: u32,
    t: &[u32],
) -> Result<(), Refusal>
    requires { TableSized n r s t.now }
    ensures { Checked (check_words_of p n buffer (tab r s t.now) ∷ []) result }
{
    let row = check_words::first_bad_row(p, n as usize, r as usize, s as usize, t);
    check_found(buffer, row)
}

// A word of a column that is not below p.
pub fn check_column(buffer: u32, p: u32, n: u32, x: &[u32]) -> Result<(), Refusal>
    requires { n ≤ length x.now }
    ensures { Checked (check_row (first_bad_place_of p n x.now) (refuse 5 buffer) ∷ []) result }
{
    let place = check_words::first_bad_place(p, n as usize, x);
    check_found(buffer, place)
}
