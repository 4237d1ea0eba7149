// One half of a row, joined from the halves of two tables' rows, for the sum and the product. Unused words become 0.
#![tactic(auto)]

ghost use Rattle.std.specs.Prelude.{◌≡◌, ◌++◌, ℕ, ◌+◌, ◌*◌, ◌/◌, ◌%◌, ◌<◌, ◌≤◌, length};
ghost use Rattle.algebra.specs.Sums.{join};
ghost use Rattle.algebra.specs.Generators.{pick};
ghost use Rattle.lists.specs.Lists.{put_at};
ghost use Rattle.lists.specs.Index.{farthest};
ghost use Rattle.row_words.specs.Rows.{words_at, Appends};
ghost use Rattle.row_join.specs.Pairs.{joined_block, joined_half, joined_size};
ghost use Rattle.row_halves.specs.HalfRow.{Lies};

use field::Modulus;
use row_halves::Half;

// n words of x from `a` on, then k words of y from `e` on, where they are used, else zeros.
fn put_two(
    used: bool,
    out: &mut [u32],
    at: usize,
    x: &[u32],
    a: usize,
    n: usize,
    y: &[u32],
    e: usize,
    k: usize,
)
    requires { (n ≤ 8) × (k ≤ 8) × (a ≤ farthest) × (e ≤ farthest) × (at + (n + k) ≤ length out.old)
        × (a + n ≤ length x.now) × (e + k ≤ length y.now) }
    ensures { out.new
        ≡ put_at at (n + k) (λ j. pick used (join n (words_at x.now a) (words_at y.now e) j) 0) out.old }
{
    if used {
        row_words::copy_words(out, at, n, x, a, 1);
        row_words::copy_words(out, at + n, k, y, e, 1);
    } else {
        row_words::zero_words(out, at, n + k);
    }
}

// Line i of the block of two halves joined.
fn put_line(
    m: Modulus,
    outer: bool,
    out: &mut [u32],
    at: usize,
    i: usize,
    row1: &[u32],
    h1: Half,
    row2: &[u32],
    h2: Half,
)
    requires { (i < h1.order + h2.order) × (h1.order + h2.order ≤ 8)
        × (at + (h1.order + h2.order) ≤ length out.old) × Lies row1.now h1 × Lies row2.now h2 }
    ensures { out.new
        ≡ put_at at (h1.order + h2.order) (joined_block m.p outer row1.now h1 row2.now h2 i) out.old }
{
    let n = h1.order;
    let k = h2.order;
    if i < n {
        row_words::copy_words(out, at, n, row1, h1.block + i * n, 1);
        row_words::put_scaled(m, row1[h1.column + i], outer, out, at + n, k, row2, h2.row);
    } else {
        row_words::zero_words(out, at, n);
        row_words::copy_words(out, at + n, k, row2, h2.block + (i - n) * k, 1);
    }
}

// The block of two halves joined, where it is used, else zeros.
fn put_corners(
    m: Modulus,
    outer: bool,
    used: bool,
    out: &mut [u32],
    at: usize,
    row1: &[u32],
    h1: Half,
    row2: &[u32],
    h2: Half,
)
    requires { (h1.order + h2.order ≤ 8)
        × (at + (h1.order + h2.order) * (h1.order + h2.order) ≤ length out.old)
        × Lies row1.now h1 × Lies row2.now h2 }
    ensures { out.new ≡ put_at at ((h1.order + h2.order) * (h1.order + h2.order))
        (λ e. pick used (joined_block m.p outer row1.now h1 row2.now h2 (e / (h1.order + h2.order))
        (e % (h1.order + h2.order))) 0) out.old }
{
    let o = h1.order + h2.order;
    if !used {
        row_words::zero_words(out, at, o * o);
        return;
    }
    for i in 0..o {
        put_line(m, outer, out, at + i * o, i, row1, h1, row2, h2);
    }
}

// Two halves joined, to `at` on: the row of the first, then words of x from `e` on; the block; words of y from `f` on, then the column
// of the second.
// `first` and `last` say whether the row and the column are used; the block is where both are.
pub fn put_half(
    m: Modulus,
    outer: bool,
    first: bool,
    last: bool,
    out: &mut [u32],
    at: usize,
    row1: &[u32],
    h1: Half,
    row2: &[u32],
    h2: Half,
    x: &[u32],
    e: usize,
    y: &[u32],
    f: usize,
)
    requires { (h1.order + h2.order ≤ 8) × (at ≤ farthest) × (e ≤ farthest) × (f ≤ farthest)
        × (at + joined_size h1 h2 ≤ length out.old)
        × Lies row1.now h1 × Lies row2.now h2 × (e + h2.order ≤ length x.now) × (f + h1.order ≤ length y.now) }
    ensures { Appends at (joined_size h1 h2)
        (joined_half m.p outer first last row1.now h1 row2.now h2 x.now e y.now f)
        out.old out.new }
{
    let n = h1.order;
    let k = h2.order;
    let o = n + k;
    let middle = at + o;
    let end = middle + o * o;
    put_two(first, out, at, row1, h1.row, n, x, e, k);
    put_corners(m, outer, last & first, out, middle, row1, h1, row2, h2);
    put_two(last, out, end, y, f, n, row2, h2.column, k);
}
