// The records of a row file and the prime of its head; and what is checked of the records: their chain, the words of each row.
#![tactic(auto)]

ghost use Rattle.std.specs.Prelude.{IfSome, ◌≡◌, ◌+◌, ◌*◌, ◌<◌, ◌≤◌, length};
ghost use Rattle.lists.specs.Lists.{counted};
ghost use Rattle.table.specs.RowFile.{file_bytes, head_p, first_broken_of, first_bad_in_file};
ghost use Rattle.table.specs.Limits.{most_size};
ghost use Rattle.check_records.specs.Filed.{Headed, record_of};

// The bytes of record m, numbered from 1, of w words each.
pub fn record(f: &[u8], m: usize, w: usize) -> &[u8]
    requires { (1 ≤ m) × (m ≤ most_size) × (w ≤ 162) × (4 * (5 + m * w) ≤ length f.now) }
    ensures bytes { result.now ≡ record_of f.now m w }
    ensures long { length result.now ≡ 4 * w }
{
    let at = 4 * (5 + (m - 1) * w);
    &f[at..at + 4 * w]
}

// ---- The chain.

// How many rows are read before the chain goes wrong, if it does. A chain that loops ends by the count of its rows.
pub fn first_broken(f: &[u8], n: usize, r: usize, s: usize) -> Option<usize>
    requires { Headed f.now n r s × (length f.now ≡ file_bytes n r s) }
    ensures first { counted result ≡ first_broken_of f.now }
    ensures within { IfSome result (λ k. k ≤ n) }
{
    let w = 1 + check_numbers::row_width(r, s);
    let mut m = file_words::word(f, 4) as usize;
    for k in 0..n {
        if m == 0 || n < m {
            return Some(k);
        }
        m = file_words::word(record(f, m, w), 0) as usize;
    }
    if m == 0 { None } else { Some(n) }
}

// ---- The words.

// The first row, in the order of the chain, with a used word of p or more, from 0.
// A record begins with the next record's number; its row follows.
pub fn first_bad(p: u32, f: &[u8], n: usize, r: usize, s: usize) -> Option<usize>
    requires { Headed f.now n r s × (length f.now ≡ file_bytes n r s) × (head_p f.now ≡ p) × (first_broken_of f.now ≡ 0) }
    ensures first { counted result ≡ first_bad_in_file f.now }
    ensures below { IfSome result (λ k. k < n) }
{
    let w = 1 + check_numbers::row_width(r, s);
    let mut m = file_words::word(f, 4) as usize;
    for k in 0..n {
        let part = record(f, m, w);
        if check_words::bad_row(p, n, r, s, k, |i| file_words::word(part, 1 + i)) {
            return Some(k);
        }
        m = file_words::word(part, 0) as usize;
    }
    None
}

// ---- The head.

// The house prime, as Limits.antt of `table` has it.
const HOUSE_PRIME: u32 = 2147483647;

// The prime that the head's first word stands for: the house prime where it is 0.
pub fn head_prime(f: &[u8]) -> u32
    requires { 20 ≤ length f.now }
    ensures { result ≡ head_p f.now }
{
    let p = file_words::word(f, 0);
    if p == 0 { HOUSE_PRIME } else { p }
}
