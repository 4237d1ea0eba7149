// The calls on two tables, sum and product: each runs its checks in the refusal table's order, then does its work. No contract asks anything of the caller.
#![tactic(auto, unfolding(table::specs::Replies::answer, table::specs::Calls::sum_reply, table::specs::Calls::product_reply))]

ghost use Rattle.std.specs.Prelude.{◌≡◌};
ghost use Rattle.table.specs.Words.{table as tab};
ghost use Rattle.table.specs.Calls.{sum_reply, sum_after, product_reply, product_after};
ghost use Rattle.check_numbers.specs.Replied.{replied};

use check_numbers::Refusal;
use field::Modulus;

// The table of the sum, to the result.
pub fn sum(
    p: u32,
    n: u32,
    r1: u32,
    s1: u32,
    r2: u32,
    s2: u32,
    first: &[u32],
    second: &[u32],
    res: &mut [u32],
) -> Result<u32, Refusal>
    ensures result_value { replied result ≡ sum_reply p n (tab r1 s1 first.now) (tab r2 s2 second.now) res.old }
    ensures res_after { res.new ≡ sum_after p n (tab r1 s1 first.now) (tab r2 s2 second.now) res.old }
{
    check_pair::check_pair(p, n, r1, s1, r2, s2, first, second, res.len())?;
    let m = Modulus::new(p);
    let size = n as usize;
    let low1 = r1 as usize;
    let upp1 = s1 as usize;
    let low2 = r2 as usize;
    let upp2 = s2 as usize;
    sweep_sum::sum(m, size, low1, upp1, first, low2, upp2, second, res);
    Ok(0)
}

// The table of the product, to the result.
pub fn product(
    p: u32,
    n: u32,
    r1: u32,
    s1: u32,
    r2: u32,
    s2: u32,
    first: &[u32],
    second: &[u32],
    res: &mut [u32],
) -> Result<u32, Refusal>
    ensures result_value { replied result ≡ product_reply p n (tab r1 s1 first.now) (tab r2 s2 second.now) res.old }
    ensures res_after { res.new ≡ product_after p n (tab r1 s1 first.now) (tab r2 s2 second.now) res.old }
{
    check_pair::check_pair(p, n, r1, s1, r2, s2, first, second, res.len())?;
    let m = Modulus::new(p);
    let size = n as usize;
    let low1 = r1 as usize;
    let upp1 = s1 as usize;
    let low2 = r2 as usize;
    let upp2 = s2 as usize;
    sweep_product::product(m, size, low1, upp1, first, low2, upp2, second, res);
    Ok(0)
}
