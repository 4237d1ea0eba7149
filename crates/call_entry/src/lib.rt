// The calls entry and whole matrix: each runs its checks in the refusal table's order, then does its work. No contract asks anything of the caller.
#![tactic(auto, unfolding(table::specs::Replies::answer, table::specs::Calls::entry_reply, table::specs::Calls::matrix_reply))]

ghost use Rattle.std.specs.Prelude.{◌≡◌, ◌*◌, ◌<◌, ◌≤◌, length};
ghost use Rattle.field.specs.Residue.{val};
ghost use Rattle.lists.specs.Lists.{tabulate, begun};
ghost use Rattle.table.specs.Words.{table as tab, matrix_of};
ghost use Rattle.table.specs.Results.{entry_w, matrix_w};
ghost use Rattle.table.specs.Calls.{entry_reply, matrix_reply, matrix_after};
ghost use Rattle.check_numbers.specs.Replied.{replied};
ghost use Rattle.check_numbers.specs.Passed.{Good};

use check_numbers::Refusal;
use field::Modulus;

// The entry at (i, j), from 0.
fn entry_word(m: Modulus, n: usize, r: usize, s: usize, t: &[u32], i: usize, j: usize) -> u32
    requires { Good m.p n (tab r s t.now) × (i < n) × (j < n) }
    ensures { result ≡ entry_w m.p n (tab r s t.now) i j }
{
    let w = check_numbers::row_width(r, s);
    if j < i {
        return sweep_entry::entry_below(m, n, w, t, row_halves::lower(r), i, j);
    }
    if i < j {
        return sweep_entry::entry_above(m, n, w, t, row_halves::upper(r, s), i, j);
    }
    t[i * w]
}

// The entry at (i, j), from 1: the value of the answer.
pub fn entry(p: u32, n: u32, r: u32, s: u32, i: u32, j: u32, table: &[u32]) -> Result<u32, Refusal>
    ensures { replied result ≡ entry_reply p n (tab r s table.now) i j }
{
    check_entry::check_entry(p, n, r, s, i, j, table)?;
    let m = Modulus::new(p);
    Ok(entry_word(
        m,
        n as usize,
        r as usize,
        s as usize,
        table,
        i as usize - 1,
        j as usize - 1,
    ))
}

// Row i of the matrix: read as a column of the transposed table, up and down from row i.
pub fn matrix_row(m: Modulus, n: usize, r: usize, s: usize, t: &[u32], i: usize, out: &mut [u32])
    requires { Good m.p n (tab r s t.now) × (i < n) × (length out.old ≡ n) }
    ensures { out.new ≡ tabulate n (λ j. val m.p (matrix_of m.p n (tab r s t.now) i j)) }
{
    let w = check_numbers::row_width(r, s);
    let lower = row_halves::lower(r);
    let before = row_halves::transposed(lower);
    sweep_entry::fill_before(m, n, w, t, before, i, out);
    out[i] = t[i * w];
    let upper = row_halves::upper(r, s);
    let after = row_halves::transposed(upper);
    sweep_entry::fill_after(m, n, w, t, after, i, out);
}

// The whole matrix, row by row. The dense solve fills its square by this.
pub fn matrix_rows(m: Modulus, n: usize, r: usize, s: usize, t: &[u32], res: &mut [u32])
    requires { Good m.p n (tab r s t.now) × (n * n ≤ length res.old) }
    ensures { res.new ≡ begun (n * n) (matrix_w m.p n (tab r s t.now)) res.old }
{
    for i in 0..n {
        matrix_row(m, n, r, s, t, i, &mut res[i * n..(i + 1) * n]);
    }
}

// The whole matrix, to the first n * n words of the result.
pub fn matrix(
    p: u32,
    n: u32,
    r: u32,
    s: u32,
    table: &[u32],
    res: &mut [u32],
) -> Result<u32, Refusal>
    ensures result_value { replied result ≡ matrix_reply p n (tab r s table.now) res.old }
    ensures res_after { res.new ≡ matrix_after p n (tab r s table.now) res.old }
{
    check_entry::check_matrix(p, n, r, s, table, res.len())?;
    let m = Modulus::new(p);
    matrix_rows(m, n as usize, r as usize, s as usize, table, res);
    Ok(0)
}
