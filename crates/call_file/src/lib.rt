// The calls on row files, read and write: each runs its checks in the order of its own, then does its work. No contract asks anything of the caller.
#![tactic(auto)]

ghost use Rattle.std.specs.Prelude.{◌≡◌, [], ◌∷◌, ℕ, suc, ◌+◌, ◌*◌, ◌<◌, ◌≤◌, eqb, length};
ghost use Rattle.algebra.specs.Generators.{pick};
ghost use Rattle.lists.specs.Lists.{rows_of, begun};
ghost use Rattle.table.specs.Words.{table as tab, width, gens, row_words_of, first_bad_of};
ghost use Rattle.table.specs.RowFile.{bytes_of, file_bytes, head_p, first_broken_of, first_bad_in_file, read_w};
ghost use Rattle.table.specs.Calls.{read_reply, read_after, write_reply, write_after};
ghost use Rattle.table.specs.Limits.{most_size};
ghost use Rattle.check_numbers.specs.Replied.{replied};
ghost use Rattle.check_records.specs.Filed.{Headed};

use check_numbers::Refusal;

// ---- Reading.

// The rows of a file whose chain and words are right, in the order of the chain, to the first n * w words of result.
fn read_rows(f: &[u8], n: usize, r: usize, s: usize, res: &mut [u32])
    requires { Headed f.now n r s × (length f.now ≡ file_bytes n r s) × (0 < head_p f.now) × (first_broken_of f.now ≡ 0) × (first_bad_in_file f.now ≡ 0)
        × (n * width r s ≤ length res.old) }
    ensures { res.new ≡ begun (n * width r s) (read_w f.now) res.old }
{
    let w = check_numbers::row_width(r, s);
    let mut m = file_words::word(f, 4) as usize;
    for k in 0..n {
        let part = check_records::record(f, m, 1 + w);
        row_record::read_row(n, r, s, k, part, &mut res[k * w..(k + 1) * w]);
        m = file_words::word(part, 0) as usize;
    }
}

// Reads a file into a table; the value is its prime.
#[tactic(auto, unfolding(table::specs::Calls::read_reply, table::specs::Replies::answer))]
pub fn read(file: &[u8], res: &mut [u32]) -> Result<u32, Refusal>
    ensures result_value { replied result ≡ read_reply file.now res.old }
    ensures res_after { res.new ≡ read_after file.now res.old }
{
    let p = check_file::check_read(file, res.len())?;
    let n = file_words::word(file, 1) as usize;
    let r = file_words::word(file, 2) as usize;
    let s = file_words::word(file, 3) as usize;
    read_rows(file, n, r, s, res);
    Ok(p)
}

// ---- Writing.

// The head of a file: the prime, the size, the orders and the first record.
fn write_head(p: u32, n: u32, r: u32, s: u32, out: &mut [u8])
    requires { 20 ≤ length out.old }
    ensures { out.new ≡ begun 20 (bytes_of (p ∷ n ∷ r ∷ s ∷ 1 ∷ [])) out.old }
{
    file_words::put_word(out, 0, p);
    file_words::put_word(out, 4, n);
    file_words::put_word(out, 8, r);
    file_words::put_word(out, 12, s);
    file_words::put_word(out, 16, 1);
}

// The records of a table's rows in their order, each with the number of the next one, 0 for the last; to the start of out.
fn write_rows(n: usize, r: usize, s: usize, t: &[u32], out: &mut [u8])
    requires { (r ≤ 8) × (s ≤ 8) × (n ≤ most_size) × (n * width r s ≤ length t.now) × (n * (4 * (1 + width r s)) ≤ length out.old) }
    ensures { (p : ℕ) → 0 < p → first_bad_of p n (tab r s t.now) ≡ 0
        → out.new ≡ begun (n * (4 * (1 + width r s))) (rows_of n
        (λ k. bytes_of (pick (eqb (suc k) n) 0 (suc (suc k)) ∷ row_words_of p n r s k (gens p n (tab r s t.now) k)))) out.old }
{
    let w = check_numbers::row_width(r, s);
    let size = 4 * (1 + w);
    for k in 0..n {
        let next = if k + 1 == n { 0 } else { k + 2 };
        let row = &t[k * w..(k + 1) * w];
        row_record::write_row(
            n,
            r,
            s,
            k,
            next as u32,
            row,
            &mut out[k * size..(k + 1) * size],
        );
    }
}

// Writes a table as a file: the prime in full, the records in the order of the rows, unused words 0.
#[tactic(auto, unfolding(table::specs::Calls::write_reply, table::specs::Replies::answer))]
pub fn write(p: u32, n: u32, r: u32, s: u32, table: &[u32], file: &mut [u8]) -> Result<u32, Refusal>
    ensures result_value { replied result ≡ write_reply p n (tab r s table.now) file.old }
    ensures file_after { file.new ≡ write_after p n (tab r s table.now) file.old }
{
    check_file::check_write(p, n, r, s, table, file.len())?;
    write_head(p, n, r, s, file);
    write_rows(n as usize, r as usize, s as usize, table, &mut file[20..]);
    Ok(0)
}
