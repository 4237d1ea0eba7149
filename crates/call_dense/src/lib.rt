// The dense solve: the matrix is written to the lent square and eliminated there. No contract of a call asks anything of the caller.
#![tactic(auto)]

ghost use Rattle.std.specs.Prelude.{true, false, ◌≡◌, ℕ, ◌*◌, ◌<◌, ◌≤◌, length, get_or};
ghost use Rattle.lists.specs.Lists.{tabulate, begun};
ghost use Rattle.table.specs.Words.{table as tab};
ghost use Rattle.check_numbers.specs.Replied.{replied};
ghost use Rattle.check_numbers.specs.Passed.{Good};
ghost use Rattle.table_dense.specs.DenseCall.{nonsingular_w, dense_w, dense_reply, dense_after, square_after_of};

use check_numbers::Refusal;
use field::Modulus;

// After the checks: the solution to the result, or false and the result as it was. The right-hand side is kept in a private column, since the result is
// written only where the matrix is nonsingular.
fn solve_words(
    m: Modulus,
    n: usize,
    r: usize,
    s: usize,
    table: &[u32],
    column: &[u32],
    square: &mut [u32],
    res: &mut [u32],
) -> bool
    requires { Good m.p n (tab r s table.now) × (n ≤ 256) × (n ≤ length column.now)
        × ((k : ℕ) → k < n → get_or column.now k 0 < m.p)
        × (n * n ≤ length square.old) × (n ≤ length res.old) }
    ensures value { result ≡ nonsingular_w m.p n (tab r s table.now) }
    ensures square_after { square.new ≡ begun (n * n) (tabulate (n * n) (λ e. 0)) square.old }
    ensures res_after { (result ≡ true
        → res.new ≡ begun n (dense_w m.p n (tab r s table.now) column.now) res.old)
        × (result ≡ false → res.new ≡ res.old) }
{
    let mut x = [0u32; 256];
    row_dense::copy(&mut x, &column[0..n]);
    call_entry::matrix_rows(m, n, r, s, table, square);
    let words = n * n;
    let found = sweep_dense::solve(m, n, &mut square[0..words], &mut x[0..n]);
    if !found {
        return false;
    }
    row_dense::copy(res, &x[0..n]);
    true
}

// The call: the checks; the solution; or 7 beside row 0, where the whole matrix is singular.
pub fn solve_dense(
    p: u32,
    n: u32,
    r: u32,
    s: u32,
    table: &[u32],
    column: &[u32],
    square: &mut [u32],
    res: &mut [u32],
) -> Result<u32, Refusal>
    ensures result_value { replied result
        ≡ dense_reply p n (tab r s table.now) column.now square.old res.old }
    ensures square_after { square.new ≡ square_after_of p n (tab r s table.now) column.now square.old res.old }
    ensures res_after { res.new ≡ dense_after p n (tab r s table.now) column.now square.old res.old }
{
    let size = n as usize;
    let need = size * size;
    check_table::check_system(
        p,
        n,
        r,
        s,
        256,
        table,
        column,
        square.len(),
        need,
        res.len(),
    )?;
    let m = Modulus::new(p);
    let lower = r as usize;
    let upper = s as usize;
    let found = solve_words(m, size, lower, upper, table, column, square, res);
    if !found {
        return Err(Refusal::Singular);
    }
    Ok(0)
}
