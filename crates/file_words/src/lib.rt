// The words of a file, read and written as four bytes each, the lowest first.
#![tactic(auto)]

ghost use Rattle.std.specs.Prelude.{◌≡◌, List, ◌++◌, ℕ, ◌+◌, ◌*◌, ◌<◌, ◌≤◌, length, get_or, drop};
ghost use Rattle.algebra.specs.Generators.{pick};
ghost use Rattle.lists.specs.Lists.{tabulate, put_at};
ghost use Rattle.lists.specs.Index.{farthest};
ghost use Rattle.table.specs.RowFile.{file_word, byte_of, bytes_of};

// Word i of the bytes f.
pub fn word(f: &[u8], i: usize) -> u32
    requires { 4 * i + 4 ≤ length f.now }
    ensures { result ≡ file_word f.now i }
{
    let at = 4 * i;
    u32::from_le_bytes([f[at], f[at + 1], f[at + 2], f[at + 3]])
}

// The bytes of a word, to byte `at` on.
pub fn put_word(out: &mut [u8], at: usize, w: u32)
    requires { at + 4 ≤ length out.old }
    ensures { out.new ≡ put_at at 4 (byte_of w) out.old }
{
    out[at..at + 4].copy_from_slice(&w.to_le_bytes());
}

// n words of f from word `from` on, where they are used, else zeros, to out from `at` on.
pub fn read_words(used: bool, out: &mut [u32], at: usize, n: usize, f: &[u8], from: usize)
    requires { (n ≤ farthest) × (from ≤ farthest) × (at + n ≤ length out.old) × (4 * (from + n) ≤ length f.now) }
    ensures { out.new ≡ put_at at n (λ j. pick used (file_word f.now (from + j)) 0) out.old }
{
    for j in 0..n {
        out[at + j] = if used { word(f, from + j) } else { 0 };
    }
}

// n words of t from `from` on, where they are used, else zeros, to out from word `at` on.
pub fn write_words(used: bool, out: &mut [u8], at: usize, n: usize, t: &[u32], from: usize)
    requires { (n ≤ farthest) × (at ≤ farthest) × (4 * (at + n) ≤ length out.old) × (from + n ≤ length t.now) }
    ensures { (pre d : List ℕ) → length pre ≡ 4 * at → out.old ≡ pre ++ drop (4 * at) d
        → out.new ≡ (pre ++ bytes_of (tabulate n (λ j. pick used (get_or t.now (from + j) 0) 0))) ++ drop (4 * (at + n)) d }
{
    for j in 0..n {
        put_word(out, 4 * (at + j), if used { t[from + j] } else { 0 });
    }
}
