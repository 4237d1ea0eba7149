// The checks of calls on one table, one after the other in the order of the refusal table. `room` is the length of the result.
#![tactic(auto, unfolding(table::specs::Replies::answer))]

ghost use Rattle.std.specs.Prelude.{List, [], ◌∷◌, ◌≡◌, ℕ, ◌*◌, ◌≤◌, ltb, length};
ghost use Rattle.table.specs.Limits.{standard, up_to, most_size};
ghost use Rattle.table.specs.Words.{table as tab, width};
ghost use Rattle.table.specs.Replies.{check, refuse};
ghost use Rattle.table.specs.Calls.{size_checks, result_checks, transpose_checks, multiple_checks, system_checks, solve_earlier};
ghost use Rattle.check_numbers.specs.Replied.{Checked};

use check_numbers::{COLUMN, MOST_SIZE, RESULT, Refusal, TABLE, WORK};
use check_steps::{check_column, check_room, check_table_room, check_table_words};

// The numbers, the length of a table, and a result that has room for one like it.
fn check_lengths(p: u32, n: u32, r: u32, s: u32, t: &[u32], room: usize) -> Result<(), Refusal>
    ensures { Checked (size_checks p n standard (tab r s t.now) (
        check (ltb (length t.now) (n * width r s)) (refuse 4 1 0) ∷ check (ltb room (n * width r s)) (refuse 4 5 0) ∷ [])) result }
{
    check_numbers::numbers(p, n, r, s)?;
    check_table_room(TABLE, t.len(), n, r, s)?;
    check_table_room(RESULT, room, n, r, s)?;
    Ok(())
}

// A table, and a result that has room for one like it: transpose and inverse.
pub fn check_table(p: u32, n: u32, r: u32, s: u32, t: &[u32], room: usize) -> Result<(), Refusal>
    ensures { (d : List ℕ) → length d ≡ room → Checked (transpose_checks p n (tab r s t.now) d) result }
{
    check_lengths(p, n, r, s, t, room)?;
    check_table_words(TABLE, p, n, r, s, t)?;
    Ok(())
}

// The same, and a factor c.
pub fn check_multiple(
    p: u32,
    n: u32,
    r: u32,
    s: u32,
    c: u32,
    t: &[u32],
    room: usize,
) -> Result<(), Refusal>
    ensures { (d : List ℕ) → length d ≡ room → Checked (multiple_checks p n (tab r s t.now) c d) result }
{
    check_lengths(p, n, r, s, t, room)?;
    if p <= c {
        return Err(Refusal::Factor);
    }
    check_table_words(TABLE, p, n, r, s, t)?;
    Ok(())
}

// A table, and a result of which `least` words are asked.
pub fn check_result(
    p: u32,
    n: u32,
    r: u32,
    s: u32,
    t: &[u32],
    least: usize,
    room: usize,
) -> Result<(), Refusal>
    ensures { (d : List ℕ) → length d ≡ room → Checked (result_checks p n (tab r s t.now) least d) result }
{
    check_numbers::numbers(p, n, r, s)?;
    check_table_room(TABLE, t.len(), n, r, s)?;
    check_room(RESULT, room, least)?;
    check_table_words(TABLE, p, n, r, s, t)?;
    Ok(())
}

// ---- Solving: the checks before the pivots. N may be at most `most`; `work` is the length of buffer 4,
// work or square, of which `need` words are asked.

pub fn check_system(
    p: u32,
    n: u32,
    r: u32,
    s: u32,
    most: u32,
    t: &[u32],
    x: &[u32],
    work: usize,
    need: usize,
    room: usize,
) -> Result<(), Refusal>
    requires { most ≤ most_size }
    ensures { (v d : List ℕ) → length v ≡ work → length d ≡ room
        → Checked (system_checks p n (tab r s t.now) (up_to most) need x.now v d) result }
{
    check_numbers::numbers_up_to(most, p, n, r, s)?;
    check_table_room(TABLE, t.len(), n, r, s)?;
    check_room(COLUMN, x.len(), n as usize)?;
    check_room(WORK, work, need)?;
    check_room(RESULT, room, n as usize)?;
    check_table_words(TABLE, p, n, r, s, t)?;
    check_column(COLUMN, p, n, x)?;
    Ok(())
}

// Those of solve, whose work has N s words.
pub fn check_solve(
    p: u32,
    n: u32,
    r: u32,
    s: u32,
    t: &[u32],
    x: &[u32],
    work: usize,
    room: usize,
) -> Result<(), Refusal>
    ensures { (v d : List ℕ) → length v ≡ work → length d ≡ room
        → Checked (solve_earlier p n (tab r s t.now) x.now v d) result }
{
    let need = n as usize * s as usize;
    check_system(p, n, r, s, MOST_SIZE, t, x, work, need, room)
}
