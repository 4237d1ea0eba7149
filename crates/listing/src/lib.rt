// The lister's lines, put into a lent buffer: each function puts its text from `at` on and returns where it ends.
#![tactic(auto)]

ghost use Rattle.std.specs.Prelude.{[], ◌++◌, ◌+◌, ◌*◌, ◌≤◌, eqb, length, unwrap_or};
ghost use Rattle.algebra.specs.Generators.{pick};
ghost use Rattle.table.specs.Replies.{refuse};
ghost use Rattle.table.specs.Lister.{text, decimal, refusal};
ghost use Rattle.table.specs.Limits.{most_size};
ghost use Rattle.listing.specs.Lines.{Puts, head_line_of, row_line, last_line_of};

// The bytes t.
pub fn put_text(out: &mut [u8], at: usize, t: &[u8]) -> usize
    requires { at + length t.now ≤ length out.old }
    ensures { Puts at t.now out.old out.new result }
{
    let end = at + t.len();
    out[at..end].copy_from_slice(t);
    end
}

// The decimal digits of x, at most ten.
pub fn put_decimal(out: &mut [u8], at: usize, x: u32) -> usize
    requires { at + 10 ≤ length out.old }
    ensures { Puts at (decimal x) out.old out.new result × (result ≤ at + 10) }
{
    if x < 10 {
        out[at] = (48 + x) as u8;
        return at + 1;
    }
    let end = put_decimal(out, at, x / 10);
    out[end] = (48 + x % 10) as u8;
    end + 1
}

// The bytes t, at most nine, and a number.
fn put_named(out: &mut [u8], at: usize, t: &[u8], x: u32) -> usize
    requires { (length t.now ≤ 9) × (at + 19 ≤ length out.old) }
    ensures { Puts at (t.now ++ decimal x) out.old out.new result × (result ≤ at + 19) }
{
    let end = put_text(out, at, t);
    put_decimal(out, end, x)
}

// The first line of a listing: the prime, the size and both orders.
pub fn head_line(out: &mut [u8], p: u32, n: u32, r: u32, s: u32) -> usize
    requires { 128 ≤ length out.old }
    ensures { Puts 0 (head_line_of p n r s) out.old out.new result × (result ≤ 128) }
{
    let a = put_named(out, 0, b"prime ", p);
    let b = put_named(out, a, b" size ", n);
    let c = put_named(out, b, b" lower ", r);
    let d = put_named(out, c, b" upper ", s);
    put_text(out, d, b"\n")
}

// Word j of a row, after a blank if it is not the first.
fn put_word(out: &mut [u8], at: usize, j: usize, x: u32) -> usize
    requires { at + 11 ≤ length out.old }
    ensures { Puts at (pick (eqb j 0) [] (text " ") ++ decimal x) out.old out.new result × (result ≤ at + 11) }
{
    if j == 0 {
        return put_decimal(out, at, x);
    }
    let end = put_text(out, at, b" ");
    put_decimal(out, end, x)
}

// A row of the matrix: its words with blanks between.
pub fn row_line(out: &mut [u8], row: &[u32], n: usize) -> usize
    requires { (n ≤ most_size) × (n ≤ length row.now) × (11 * n + 1 ≤ length out.old) }
    ensures { Puts 0 (row_line n row.now) out.old out.new result × (result ≤ 11 * n + 1) }
{
    let mut at = 0;
    for j in 0..n {
        at = put_word(out, at, j, row[j]);
    }
    put_text(out, at, b"\n")
}

// The last line: whether there is a zero pivot, and its row, which is given from 1.
pub fn last_line(out: &mut [u8], zero: Option<u32>) -> usize
    requires { 128 ≤ length out.old }
    ensures { Puts 0 (last_line_of (unwrap_or zero 0)) out.old out.new result × (result ≤ 128) }
{
    let row = zero.unwrap_or(0);
    if row == 0 {
        return put_text(out, 0, b"regular\n");
    }
    let end = put_named(out, 0, b"singular ", row);
    put_text(out, end, b"\n")
}

// The line of a refusal: its three numbers.
pub fn refusal_line(out: &mut [u8], number: u32, buffer: u32, row: u32) -> usize
    requires { 128 ≤ length out.old }
    ensures { Puts 0 (refusal (refuse number buffer row)) out.old out.new result × (result ≤ 128) }
{
    let a = put_named(out, 0, b"refused ", number);
    let b = put_named(out, a, b" ", buffer);
    let c = put_named(out, b, b" ", row);
    put_text(out, c, b"\n")
}
