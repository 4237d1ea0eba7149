// The calls with pivots, solve and inverse: each runs its checks in the refusal table's order, the pivots last, then does its work. Nothing is written
// before the last pivot is known. No contract asks anything of the caller.
#![tactic(auto, unfolding(table::specs::Replies::answer, table::specs::Calls::solve_reply, table::specs::Calls::inverse_reply))]

ghost use Rattle.std.specs.Prelude.{◌≡◌};
ghost use Rattle.table.specs.Words.{table as tab};
ghost use Rattle.table.specs.Calls.{solve_reply, solve_after, work_after_of, inverse_reply, inverse_after};
ghost use Rattle.check_numbers.specs.Replied.{replied};

use check_numbers::Refusal;
use field::Modulus;

// The column that the table sends to the given one, to the first n words of the result; the work is written too. Or the row of the first zero pivot.
pub fn solve(
    p: u32,
    n: u32,
    r: u32,
    s: u32,
    table: &[u32],
    column: &[u32],
    work: &mut [u32],
    res: &mut [u32],
) -> Result<u32, Refusal>
    ensures result_value { replied result ≡ solve_reply p n (tab r s table.now) column.now work.old res.old }
    ensures work_after { work.new ≡ work_after_of p n (tab r s table.now) column.now work.old res.old }
    ensures res_after { res.new ≡ solve_after p n (tab r s table.now) column.now work.old res.old }
{
    check_table::check_solve(p, n, r, s, table, column, work.len(), res.len())?;
    let m = Modulus::new(p);
    let size = n as usize;
    let lower = r as usize;
    let upper = s as usize;
    if let Some(k) = sweep_solve::solve(m, size, lower, upper, table, column, work, res) {
        let row = k as u32 + 1;
        return Err(Refusal::ZeroPivot { row });
    }
    Ok(0)
}

// The table of the inverse, to the result. Or the row of the first zero pivot.
pub fn inverse(
    p: u32,
    n: u32,
    r: u32,
    s: u32,
    table: &[u32],
    res: &mut [u32],
) -> Result<u32, Refusal>
    ensures result_value { replied result ≡ inverse_reply p n (tab r s table.now) res.old }
    ensures res_after { res.new ≡ inverse_after p n (tab r s table.now) res.old }
{
    check_table::check_table(p, n, r, s, table, res.len())?;
    let m = Modulus::new(p);
    let size = n as usize;
    let lower = r as usize;
    let upper = s as usize;
    let mut inverses = [0u32; 1024];
    if let Some(zero) = sweep_pivot::first_zero(m, size, lower, upper, table, &mut inverses) {
        let row = zero as u32 + 1;
        return Err(Refusal::ZeroPivot { row });
    }
    sweep_inverse::inverse(m, size, lower, upper, table, &inverses, res);
    Ok(0)
}
