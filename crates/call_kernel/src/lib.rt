// The kernel call and its check: each runs its checks in the refusal table's order. The kernel call writes nothing before the first zero pivot is known; its
// check applies the first k rows, which are a table of the leading k by k corner. No contract of a call asks anything of the caller.
#![tactic(auto)]

ghost use Rattle.std.specs.Prelude.{◌≡◌};
ghost use Rattle.table.specs.Words.{table as tab};
ghost use Rattle.check_numbers.specs.Replied.{replied};
ghost use Rattle.block.specs.Block.{Within};
ghost use Rattle.check_numbers.specs.Passed.{Good};
ghost use Rattle.table_kernel.specs.KernelCall.{kernel_reply, kernel_after, shows_reply};
ghost use Rattle.call_kernel.specs.ShowsLaws.{some_sent};

use check_numbers::Refusal;
use field::Modulus;

pub fn kernel(
    p: u32,
    n: u32,
    r: u32,
    s: u32,
    table: &[u32],
    res: &mut [u32],
) -> Result<u32, Refusal>
    ensures result_value { replied result ≡ kernel_reply p n (tab r s table.now) res.old }
    ensures res_after { res.new ≡ kernel_after p n (tab r s table.now) res.old }
{
    let size = n as usize;
    check_table::check_result(p, n, r, s, table, size, res.len())?;
    let m = Modulus::new(p);
    match sweep_kernel::kernel(m, size, r as usize, s as usize, table, res) {
        Some(k) => Ok(k as u32 + 1),
        None => Err(Refusal::NoZeroPivot),
    }
}

// ---- The check.

// Whether a good table of n rows sends the column to anything but zeros, that is, to a word of 1 or more.
fn sends_some(m: Modulus, n: usize, r: usize, s: usize, table: &[u32], column: &[u32]) -> bool
    requires { Good m.p n (tab r s table.now) × Within m.p column.now 0 n }
    ensures { result ≡ some_sent m.p n (tab r s table.now) column.now }
{
    let mut out = [0u32; 1024];
    call_apply::apply_words(m, n, r, s, table, column, &mut out);
    check_words::bad_words(1, &out, 0, n)
}

pub fn kernel_check(
    p: u32,
    n: u32,
    r: u32,
    s: u32,
    k: u32,
    table: &[u32],
    column: &[u32],
) -> Result<u32, Refusal>
    ensures { replied result ≡ shows_reply p n (tab r s table.now) k column.now }
{
    check_kernel::check_shows(p, n, r, s, k, table, column)?;
    let size = k as usize;
    if column[size - 1] != 1 {
        return Ok(0);
    }
    let m = Modulus::new(p);
    if sends_some(m, size, r as usize, s as usize, table, column) {
        return Ok(0);
    }
    Ok(1)
}
