// The library: thin functions over the proved calls, with the reply packed into 64 bits. Crate residues_c hands them to C.
#![tactic(auto)]

ghost use Rattle.std.specs.Prelude.{◌≡◌};
ghost use Rattle.table.specs.Words.{table as tab};
ghost use Rattle.table.specs.Replies.{packed};
ghost use Rattle.table_dense.specs.DenseCall.{dense_reply, dense_after, square_after_of};
ghost use Rattle.table_kernel.specs.KernelCall.{kernel_reply, kernel_after, shows_reply};
ghost use Rattle.call_fractions.specs.FractionCall.{fractions_reply, numerators_after_of, denominators_after_of};
ghost use Rattle.table.specs.Calls.{
  entry_reply,
  matrix_reply,
  matrix_after,
  apply_reply,
  apply_after,
  apply_transposed_after,
  transpose_reply,
  transpose_after,
  multiple_reply,
  multiple_after,
  sum_reply,
  sum_after,
  product_reply,
  product_after,
  solve_reply,
  solve_after,
  work_after_of,
  inverse_reply,
  inverse_after,
  read_reply,
  read_after,
  write_reply,
  write_after,
};

pub fn residues_entry(p: u32, n: u32, r: u32, s: u32, i: u32, j: u32, table: &[u32]) -> u64
    ensures { result ≡ packed (entry_reply p n (tab r s table.now) i j) }
{
    check_numbers::pack(call_entry::entry(p, n, r, s, i, j, table))
}

pub fn residues_matrix(p: u32, n: u32, r: u32, s: u32, table: &[u32], res: &mut [u32]) -> u64
    ensures value { result ≡ packed (matrix_reply p n (tab r s table.now) res.old) }
    ensures res_after { res.new ≡ matrix_after p n (tab r s table.now) res.old }
{
    check_numbers::pack(call_entry::matrix(p, n, r, s, table, res))
}

pub fn residues_apply(
    p: u32,
    n: u32,
    r: u32,
    s: u32,
    table: &[u32],
    column: &[u32],
    res: &mut [u32],
) -> u64
    ensures value { result ≡ packed (apply_reply p n (tab r s table.now) column.now res.old) }
    ensures res_after { res.new ≡ apply_after p n (tab r s table.now) column.now res.old }
{
    check_numbers::pack(call_apply::apply(p, n, r, s, table, column, res))
}

pub fn residues_apply_transpose(
    p: u32,
    n: u32,
    r: u32,
    s: u32,
    table: &[u32],
    column: &[u32],
    res: &mut [u32],
) -> u64
    ensures value { result ≡ packed (apply_reply p n (tab r s table.now) column.now res.old) }
    ensures res_after { res.new ≡ apply_transposed_after p n (tab r s table.now) column.now res.old }
{
    check_numbers::pack(call_apply::apply_transpose(p, n, r, s, table, column, res))
}

pub fn residues_transpose(p: u32, n: u32, r: u32, s: u32, table: &[u32], res: &mut [u32]) -> u64
    ensures value { result ≡ packed (transpose_reply p n (tab r s table.now) res.old) }
    ensures res_after { res.new ≡ transpose_after p n (tab r s table.now) res.old }
{
    check_numbers::pack(call_transpose::transpose(p, n, r, s, table, res))
}

pub fn residues_multiple(
    p: u32,
    n: u32,
    r: u32,
    s: u32,
    c: u32,
    table: &[u32],
    res: &mut [u32],
) -> u64
    ensures value { result ≡ packed (multiple_reply p n (tab r s table.now) c res.old) }
    ensures res_after { res.new ≡ multiple_after p n (tab r s table.now) c res.old }
{
    check_numbers::pack(call_transpose::multiple(p, n, r, s, c, table, res))
}

pub fn residues_sum(
    p: u32,
    n: u32,
    r1: u32,
    s1: u32,
    r2: u32,
    s2: u32,
    first: &[u32],
    second: &[u32],
    res: &mut [u32],
) -> u64
    ensures value { result ≡ packed (sum_reply p n (tab r1 s1 first.now) (tab r2 s2 second.now) res.old) }
    ensures res_after { res.new ≡ sum_after p n (tab r1 s1 first.now) (tab r2 s2 second.now) res.old }
{
    check_numbers::pack(call_pair::sum(p, n, r1, s1, r2, s2, first, second, res))
}

pub fn residues_product(
    p: u32,
    n: u32,
    r1: u32,
    s1: u32,
    r2: u32,
    s2: u32,
    first: &[u32],
    second: &[u32],
    res: &mut [u32],
) -> u64
    ensures value { result ≡ packed (product_reply p n (tab r1 s1 first.now) (tab r2 s2 second.now) res.old) }
    ensures res_after { res.new ≡ product_after p n (tab r1 s1 first.now) (tab r2 s2 second.now) res.old }
{
    check_numbers::pack(call_pair::product(p, n, r1, s1, r2, s2, first, second, res))
}

pub fn residues_solve(
    p: u32,
    n: u32,
    r: u32,
    s: u32,
    table: &[u32],
    column: &[u32],
    work: &mut [u32],
    res: &mut [u32],
) -> u64
    ensures value { result ≡ packed (solve_reply p n (tab r s table.now) column.now work.old res.old) }
    ensures work_after { work.new ≡ work_after_of p n (tab r s table.now) column.now work.old res.old }
    ensures res_after { res.new ≡ solve_after p n (tab r s table.now) column.now work.old res.old }
{
    check_numbers::pack(call_solve::solve(p, n, r, s, table, column, work, res))
}

pub fn residues_solve_dense(
    p: u32,
    n: u32,
    r: u32,
    s: u32,
    table: &[u32],
    column: &[u32],
    square: &mut [u32],
    res: &mut [u32],
) -> u64
    ensures value { result ≡ packed (dense_reply p n (tab r s table.now) column.now square.old res.old) }
    ensures square_after { square.new ≡ square_after_of p n (tab r s table.now) column.now square.old res.old }
    ensures res_after { res.new ≡ dense_after p n (tab r s table.now) column.now square.old res.old }
{
    check_numbers::pack(call_dense::solve_dense(p, n, r, s, table, column, square, res))
}

pub fn residues_inverse(p: u32, n: u32, r: u32, s: u32, table: &[u32], res: &mut [u32]) -> u64
    ensures value { result ≡ packed (inverse_reply p n (tab r s table.now) res.old) }
    ensures res_after { res.new ≡ inverse_after p n (tab r s table.now) res.old }
{
    check_numbers::pack(call_solve::inverse(p, n, r, s, table, res))
}

pub fn residues_kernel(p: u32, n: u32, r: u32, s: u32, table: &[u32], res: &mut [u32]) -> u64
    ensures value { result ≡ packed (kernel_reply p n (tab r s table.now) res.old) }
    ensures res_after { res.new ≡ kernel_after p n (tab r s table.now) res.old }
{
    check_numbers::pack(call_kernel::kernel(p, n, r, s, table, res))
}

pub fn residues_kernel_check(
    p: u32,
    n: u32,
    r: u32,
    s: u32,
    k: u32,
    table: &[u32],
    column: &[u32],
) -> u64
    ensures { result ≡ packed (shows_reply p n (tab r s table.now) k column.now) }
{
    check_numbers::pack(call_kernel::kernel_check(p, n, r, s, k, table, column))
}

pub fn residues_read_file(file: &[u8], res: &mut [u32]) -> u64
    ensures value { result ≡ packed (read_reply file.now res.old) }
    ensures res_after { res.new ≡ read_after file.now res.old }
{
    check_numbers::pack(call_file::read(file, res))
}

pub fn residues_write_file(p: u32, n: u32, r: u32, s: u32, table: &[u32], file: &mut [u8]) -> u64
    ensures value { result ≡ packed (write_reply p n (tab r s table.now) file.old) }
    ensures file_after { file.new ≡ write_after p n (tab r s table.now) file.old }
{
    check_numbers::pack(call_file::write(p, n, r, s, table, file))
}

pub fn residues_fractions(
    p: u32,
    q: u32,
    n: u32,
    first: &[u32],
    second: &[u32],
    numerators: &mut [i32],
    denominators: &mut [u32],
) -> u64
    ensures value { result ≡ packed (fractions_reply p q n first.now second.now numerators.old denominators.old) }
    ensures numerators_after { numerators.new
        ≡ numerators_after_of p q n first.now second.now numerators.old denominators.old }
    ensures denominators_after { denominators.new
        ≡ denominators_after_of p q n first.now second.now numerators.old denominators.old }
{
    check_numbers::pack(call_fractions::fractions(p, q, n, first, second, numerators, denominators))
}
