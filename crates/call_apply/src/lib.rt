// The calls apply and apply transposed: each runs its checks in the refusal table's order; then a sweep down writes the result, and a sweep up adds to it.
// No contract of a call asks anything of the caller.
#![tactic(auto, unfolding(table::specs::Replies::answer, table::specs::Calls::apply_reply))]

ghost use Rattle.std.specs.Prelude.{◌≡◌, ◌≤◌, length};
ghost use Rattle.lists.specs.Lists.{begun};
ghost use Rattle.table.specs.Words.{table as tab};
ghost use Rattle.table.specs.Results.{apply_w, apply_transposed_w};
ghost use Rattle.table.specs.Calls.{apply_reply, apply_after, apply_transposed_after};
ghost use Rattle.check_numbers.specs.Replied.{replied};
ghost use Rattle.check_numbers.specs.Passed.{Good};
ghost use Rattle.block.specs.Block.{Within};

use check_numbers::Refusal;
use field::Modulus;

// What a good table of n rows sends the column to, to the first n words of the result.
pub fn apply_words(
    m: Modulus,
    n: usize,
    r: usize,
    s: usize,
    table: &[u32],
    column: &[u32],
    res: &mut [u32],
)
    requires { Good m.p n (tab r s table.now) × Within m.p column.now 0 n × (n ≤ length res.old) }
    ensures { res.new ≡ begun n (apply_w m.p n (tab r s table.now) column.now) res.old }
{
    let w = check_numbers::row_width(r, s);
    let lower = row_halves::lower(r);
    let upper = row_halves::upper(r, s);
    sweep_apply::sweep_down(m, n, w, table, lower, column, res);
    sweep_apply::sweep_up(m, n, w, table, upper, column, res);
}

// The same of the transposed table.
fn apply_transposed_words(
    m: Modulus,
    n: usize,
    r: usize,
    s: usize,
    table: &[u32],
    column: &[u32],
    res: &mut [u32],
)
    requires { Good m.p n (tab r s table.now) × Within m.p column.now 0 n × (n ≤ length res.old) }
    ensures { res.new ≡ begun n (apply_transposed_w m.p n (tab r s table.now) column.now) res.old }
{
    let w = check_numbers::row_width(r, s);
    let lower = row_halves::transposed(row_halves::lower(r));
    let upper = row_halves::transposed(row_halves::upper(r, s));
    sweep_apply::sweep_down(m, n, w, table, upper, column, res);
    sweep_apply::sweep_up(m, n, w, table, lower, column, res);
}

// What the table sends the column to, to the first n words of the result.
pub fn apply(
    p: u32,
    n: u32,
    r: u32,
    s: u32,
    table: &[u32],
    column: &[u32],
    res: &mut [u32],
) -> Result<u32, Refusal>
    ensures result_value { replied result ≡ apply_reply p n (tab r s table.now) column.now res.old }
    ensures res_after { res.new ≡ apply_after p n (tab r s table.now) column.now res.old }
{
    check_apply::check_apply(p, n, r, s, table, column, res.len())?;
    let m = Modulus::new(p);
    apply_words(m, n as usize, r as usize, s as usize, table, column, res);
    Ok(0)
}

// The same of the transposed table.
pub fn apply_transpose(
    p: u32,
    n: u32,
    r: u32,
    s: u32,
    table: &[u32],
    column: &[u32],
    res: &mut [u32],
) -> Result<u32, Refusal>
    ensures result_value { replied result ≡ apply_reply p n (tab r s table.now) column.now res.old }
    ensures res_after { res.new ≡ apply_transposed_after p n (tab r s table.now) column.now res.old }
{
    check_apply::check_apply(p, n, r, s, table, column, res.len())?;
    let m = Modulus::new(p);
    apply_transposed_words(m, n as usize, r as usize, s as usize, table, column, res);
    Ok(0)
}
