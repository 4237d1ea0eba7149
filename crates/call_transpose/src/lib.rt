// The calls transpose and multiple: each runs its checks in the refusal table's order, then does its work. No contract asks anything of the caller.
#![tactic(auto, unfolding(table::specs::Replies::answer, table::specs::Calls::transpose_reply, table::specs::Calls::multiple_reply))]

ghost use Rattle.std.specs.Prelude.{◌≡◌};
ghost use Rattle.table.specs.Words.{table as tab};
ghost use Rattle.table.specs.Calls.{transpose_reply, transpose_after, multiple_reply, multiple_after};
ghost use Rattle.check_numbers.specs.Replied.{replied};

use check_numbers::Refusal;
use field::Modulus;

// The transposed table, to the result.
pub fn transpose(
    p: u32,
    n: u32,
    r: u32,
    s: u32,
    table: &[u32],
    res: &mut [u32],
) -> Result<u32, Refusal>
    ensures result_value { replied result ≡ transpose_reply p n (tab r s table.now) res.old }
    ensures res_after { res.new ≡ transpose_after p n (tab r s table.now) res.old }
{
    check_table::check_table(p, n, r, s, table, res.len())?;
    sweep_transpose::transpose(n as usize, r as usize, s as usize, table, res);
    Ok(0)
}

// The multiple of the table by c, to the result.
pub fn multiple(
    p: u32,
    n: u32,
    r: u32,
    s: u32,
    c: u32,
    table: &[u32],
    res: &mut [u32],
) -> Result<u32, Refusal>
    ensures result_value { replied result ≡ multiple_reply p n (tab r s table.now) c res.old }
    ensures res_after { res.new ≡ multiple_after p n (tab r s table.now) c res.old }
{
    check_table::check_multiple(p, n, r, s, c, table, res.len())?;
    sweep_multiple::multiple(
        Modulus::new(p),
        c,
        n as usize,
        r as usize,
        s as usize,
        table,
        res,
    );
    Ok(0)
}
