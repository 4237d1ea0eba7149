// The transpose of a table, row by row. Unused words become 0.
#![tactic(auto)]

ghost use Rattle.std.specs.Prelude.{◌≡◌, ℕ, ◌+◌, ◌*◌, ◌<◌, ◌≤◌, length, get_or};
ghost use Rattle.lists.specs.Lists.{begun};
ghost use Rattle.table.specs.Words.{table, width, first_bad_of};
ghost use Rattle.table.specs.Results.{transpose_w};
ghost use Rattle.table.specs.Limits.{most_size};
ghost use Rattle.row_words.specs.Rows.{transposed_half, transposed_row, Appends, half_size};

// The blocks p, a, q or g, b, h, of order o, at `from` of row, to `at` on: the last one first and each transposed.
// Whether they are used: `first` for the first one written, `last` for the last one, both for the one between.
fn transpose_part(
    first: bool,
    last: bool,
    out: &mut [u32],
    at: usize,
    o: usize,
    row: &[u32],
    from: usize,
)
    requires { (o ≤ 8) × (from ≤ 81) × (at + half_size o ≤ length out.old) × (from + half_size o ≤ length row.now) }
    ensures { Appends at (half_size o)
        (transposed_half first last o (λ e. get_or row.now e 0) from)
        out.old out.new }
{
    let middle = from + o;
    let end = middle + o * o;
    row_words::put_block(first, out, at, 1, o, row, end, 1, 1);
    row_words::put_block(last & first, out, at + o, o, o, row, middle, 1, o);
    row_words::put_block(last, out, at + o + o * o, o, 1, row, from, 1, o);
}

// Row k of the transposed table: d, then h, b transposed, g, then q, a transposed, p.
fn transpose_row(n: usize, r: usize, s: usize, k: usize, row: &[u32], out: &mut [u32])
    requires { (k < n) × (r ≤ 8) × (s ≤ 8) × (length row.now ≡ width r s) × (length out.old ≡ width r s) }
    ensures { out.new ≡ transposed_row n r s k row.now }
{
    let below = k != 0;
    let above = k + 1 != n;
    let lower = row_words::part_width(r);
    let upper = row_words::part_width(s);
    out[0] = row[0];
    transpose_part(below, above, out, 1, s, row, 1 + lower);
    transpose_part(above, below, out, 1 + upper, r, row, 1);
}

// The transposed table, to the first n * w words of result.
pub fn transpose(n: usize, r: usize, s: usize, t: &[u32], res: &mut [u32])
    requires { (r ≤ 8) × (s ≤ 8) × (n ≤ most_size) × (n * width r s ≤ length t.now) × (n * width r s ≤ length res.old) }
    ensures { (p : ℕ) → 0 < p → first_bad_of p n (table r s t.now) ≡ 0
        → res.new ≡ begun (n * width r s) (transpose_w p n (table r s t.now)) res.old }
{
    let w = check_numbers::row_width(r, s);
    for k in 0..n {
        let row = &t[k * w..(k + 1) * w];
        transpose_row(n, r, s, k, row, &mut res[k * w..(k + 1) * w]);
    }
}
