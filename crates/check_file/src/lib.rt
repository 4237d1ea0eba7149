// The checks of the calls on row files, each in the order of its own.
#![tactic(auto, unfolding(table::specs::Replies::answer))]

ghost use Rattle.std.specs.Prelude.{◌≡◌, List, ℕ, length, MatchResult};
ghost use Rattle.table.specs.Words.{table as tab};
ghost use Rattle.table.specs.Replies.{Reply, answer};
ghost use Rattle.table.specs.RowFile.{head_p};
ghost use Rattle.table.specs.Calls.{read_checks, write_checks};
ghost use Rattle.table.proofs.CallLaws.{AllClear};
ghost use Rattle.check_numbers.specs.Replied.{Checked, refused};
ghost use Rattle.check_records.specs.Filed.{Headed};
ghost use Rattle.check_file.specs.FileChecks.{file_checks};

use check_numbers::{FILE, MOST_SIZE, RESULT, Refusal, TABLE};
use check_steps::{check_room, check_table_room, check_table_words};

// The checks of a file after those of the head's numbers. `room` is the length of the result.
fn check_file(f: &[u8], p: u32, n: usize, r: usize, s: usize, room: usize) -> Result<(), Refusal>
    requires { Headed f.now n r s × (head_p f.now ≡ p) }
    ensures { (d : List ℕ) → length d ≡ room → Checked (file_checks f.now d) result }
{
    let w = check_numbers::row_width(r, s);
    if f.len() != 4 * (5 + n * (1 + w)) {
        return Err(Refusal::Length);
    }
    check_room(RESULT, room, n * w)?;
    if let Some(k) = check_records::first_broken(f, n, r, s) {
        return Err(Refusal::Chain { rows: k as u32 });
    }
    if let Some(k) = check_records::first_bad(p, f, n, r, s) {
        let row = k as u32 + 1;
        return Err(Refusal::Word { buffer: FILE, row });
    }
    Ok(())
}

// All the checks of reading a file; the value is its prime.
pub fn check_read(f: &[u8], room: usize) -> Result<u32, Refusal>
    ensures { (d : List ℕ) → length d ≡ room → MatchResult result
        (λ p. (p ≡ head_p f.now) × AllClear (read_checks f.now d))
        (λ refusal. (v : Reply) → refused refusal ≡ answer (read_checks f.now d) v) }
{
    if f.len() < 20 {
        return Err(Refusal::Length);
    }
    let p = check_records::head_prime(f);
    let n = file_words::word(f, 1);
    let r = file_words::word(f, 2);
    let s = file_words::word(f, 3);
    if check_numbers::bad_prime(p) {
        return Err(Refusal::Prime);
    }
    if check_numbers::bad_size(MOST_SIZE, n) {
        return Err(Refusal::Size);
    }
    if check_numbers::bad_order(r, s) {
        return Err(Refusal::Orders { buffer: FILE });
    }
    check_file(f, p, n as usize, r as usize, s as usize, room)?;
    Ok(p)
}

// All the checks of writing one; `room` is the length of the file's bytes.
pub fn check_write(p: u32, n: u32, r: u32, s: u32, t: &[u32], room: usize) -> Result<(), Refusal>
    ensures { (d : List ℕ) → length d ≡ room → Checked (write_checks p n (tab r s t.now) d) result }
{
    check_numbers::numbers(p, n, r, s)?;
    check_table_room(TABLE, t.len(), n, r, s)?;
    let w = check_numbers::row_width(r as usize, s as usize);
    check_room(FILE, room, 4 * (5 + n as usize * (1 + w)))?;
    check_table_words(TABLE, p, n, r, s, t)?;
    Ok(())
}
