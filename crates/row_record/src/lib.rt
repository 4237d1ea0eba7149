// One row of a table, read from its record in a file and written to it. A record is the number of the next one, then the row; unused words become 0.
#![tactic(auto)]

ghost use Rattle.std.specs.Prelude.{◌≡◌, List, ◌∷◌, ◌++◌, ℕ, ◌+◌, ◌*◌, ◌<◌, ◌≤◌, length, get_or, drop};
ghost use Rattle.algebra.specs.Kinds.{Kind};
ghost use Rattle.table.specs.Words.{width, place, Used, row_gens, row_words_of};
ghost use Rattle.table.specs.RowFile.{file_word, bytes_of};
ghost use Rattle.row_words.specs.Rows.{copied_half, Appends, half_size};

// The blocks p, a, q or g, b, h, of order o, from word `from` of the record on, to `at` on.
// Whether they are used: `first` for the first one, `last` for the last one, both for the one between.
fn read_part(
    first: bool,
    last: bool,
    out: &mut [u32],
    at: usize,
    o: usize,
    part: &[u8],
    from: usize,
)
    requires { (o ≤ 8) × (from ≤ 82) × (at + half_size o ≤ length out.old) × (4 * (from + half_size o) ≤ length part.now) }
    ensures { Appends at (half_size o)
        (copied_half (λ x. x) first last o (file_word part.now) from)
        out.old out.new }
{
    let middle = from + o;
    let end = middle + o * o;
    file_words::read_words(first, out, at, o, part, from);
    file_words::read_words(last & first, out, at + o, o * o, part, middle);
    file_words::read_words(last, out, at + o + o * o, o, part, end);
}

// The blocks p, a, q or g, b, h, of order o, from word `from` of the row on, to word `at` of the record on. Whether they are used: as above.
fn write_part(
    first: bool,
    last: bool,
    out: &mut [u8],
    at: usize,
    o: usize,
    row: &[u32],
    from: usize,
)
    requires { (o ≤ 8) × (at ≤ 82) × (from ≤ 81) × (4 * (at + half_size o) ≤ length out.old) × (from + half_size o ≤ length row.now) }
    ensures { (pre d : List ℕ) → length pre ≡ 4 * at → out.old ≡ pre ++ drop (4 * at) d
        → out.new ≡ (pre ++ bytes_of (copied_half (λ x. x) first last o (λ e. get_or row.now e 0) from)) ++ drop
        (4 * (at + half_size o)) d }
{
    let middle = from + o;
    let end = middle + o * o;
    file_words::write_words(first, out, at, o, row, from);
    file_words::write_words(last & first, out, at + o, o * o, row, middle);
    file_words::write_words(last, out, at + o + o * o, o, row, end);
}

// Row k of n, from the bytes of its record.
pub fn read_row(n: usize, r: usize, s: usize, k: usize, part: &[u8], out: &mut [u32])
    requires { (k < n) × (r ≤ 8) × (s ≤ 8) × (length part.now ≡ 4 * (1 + width r s)) × (length out.old ≡ width r s) }
    ensures { (p : ℕ) → 0 < p → ((κ : Kind) (i j : ℕ) → Used n r s k κ i j → file_word part.now (1 + place r s κ i j) < p)
        → out.new ≡ row_words_of p n r s k (row_gens p n r s k (λ κ i j. file_word part.now (1 + place r s κ i j))) }
{
    let below = k != 0;
    let above = k + 1 != n;
    let upper = 1 + row_words::part_width(r);
    out[0] = file_words::word(part, 1);
    read_part(below, above, out, 1, r, part, 2);
    read_part(above, below, out, upper, s, part, 1 + upper);
}

// Row k of n, to the bytes of its record, with the number of the next one.
pub fn write_row(n: usize, r: usize, s: usize, k: usize, next: u32, row: &[u32], out: &mut [u8])
    requires { (k < n) × (r ≤ 8) × (s ≤ 8) × (length row.now ≡ width r s) × (length out.old ≡ 4 * (1 + width r s)) }
    ensures { (p : ℕ) → 0 < p → ((κ : Kind) (i j : ℕ) → Used n r s k κ i j → get_or row.now (place r s κ i j) 0 < p)
        → out.new ≡ bytes_of (next ∷ row_words_of p n r s k (row_gens p n r s k (λ κ i j. get_or row.now (place r s κ i j) 0))) }
{
    let below = k != 0;
    let above = k + 1 != n;
    let upper = 1 + row_words::part_width(r);
    file_words::put_word(out, 0, next);
    file_words::put_word(out, 4, row[0]);
    write_part(below, above, out, 2, r, row, 1);
    write_part(above, below, out, 1 + upper, s, row, upper);
}
