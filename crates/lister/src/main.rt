// Lists a row file that it reads from standard input: its prime, size and orders, its matrix, and the row of the first zero pivot if there is one.
// Each line is worked out by a proved function of crate `listing`; here they are written, one after the other.
#![tactic(auto)]

ghost use Rattle.std.specs.Prelude.{◌≤◌, length};
ghost use Rattle.table.specs.Words.{table as tab};
ghost use Rattle.check_numbers.specs.Passed.{Good};

use check_numbers::Refusal;
use field::Modulus;
use std::io::{self, Read, Write};

// The first n bytes of a line.
fn show(rt: &impl Print, line: &[u8], n: usize) -> io::Result<()>
    requires { n ≤ length line.now }
{
    io::writer(rt).write_all(&line[..n])
}

fn show_refusal(rt: &impl Print, refusal: Refusal) -> io::Result<()> {
    let mut line = [0u8; 128];
    let n = listing::refusal_line(&mut line, refusal.number(), refusal.buffer(), refusal.row());
    show(rt, &line, n)
}

// The matrix, row by row.
fn show_rows(
    rt: &impl Print,
    m: Modulus,
    n: usize,
    r: usize,
    s: usize,
    table: &[u32],
) -> io::Result<()>
    requires { Good m.p n (tab r s table.now) }
{
    let mut row = [0u32; 1024];
    let mut line = [0u8; 11265];
    for i in 0..n {
        call_entry::matrix_row(m, n, r, s, table, i, &mut row[..n]);
        let end = listing::row_line(&mut line, &row, n);
        show(rt, &line, end)?;
    }
    Ok(())
}

// A table that was read: its numbers, its matrix, its pivots.
fn show_table(rt: &impl Print, p: u32, n: u32, r: u32, s: u32, table: &[u32]) -> io::Result<()>
    requires { Good p n (tab r s table.now) }
{
    let m = Modulus::new(p);
    let mut line = [0u8; 128];
    let head = listing::head_line(&mut line, p, n, r, s);
    show(rt, &line, head)?;
    show_rows(rt, m, n as usize, r as usize, s as usize, table)?;
    let mut inverses = [0u32; 1024];
    let zero = sweep_pivot::first_zero(m, n as usize, r as usize, s as usize, table, &mut inverses);
    let last = listing::last_line(&mut line, zero.map(|k| k as u32 + 1));
    show(rt, &line, last)
}

// The listing of a file: at most 41,492 bytes, whose table has at most 10,368 words.
fn list(rt: &impl Print, file: &[u8]) -> io::Result<()> {
    if 41492 < file.len() {
        return show_refusal(rt, Refusal::Length);
    }
    let mut table = [0u32; 10368];
    match call_file::read(file, &mut table) {
        Ok(p) => {
            let n = file_words::word(file, 1);
            let r = file_words::word(file, 2);
            let s = file_words::word(file, 3);
            show_table(rt, p, n, r, s, &table)
        }
        Err(refusal) => show_refusal(rt, refusal),
    }
}

// Reads until the file's room is full, the input ends or cannot be read, and returns how many bytes were read.
fn read_full(input: &mut impl Read, file: &mut [u8]) -> usize
    ensures { result ≤ length file.new }
{
    let mut done = 0;
    while done < file.len() {
        match input.read(&mut file[done..]) {
            Ok(0) | Err(_) => break,
            Ok(n) => done += n,
        }
    }
    done
}

fn main(rt: HostRuntime) {
    let mut file = [0u8; 41493];
    let n = read_full(&mut rt.stdin(), &mut file);
    // Where it cannot be printed there is nothing left to do.
    let _ = list(&rt, &file[..n]);
}
