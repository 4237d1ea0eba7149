// Runs the field's functions on numbers whose answers are known from elsewhere, and prints what they give.
#![tactic(auto)]

ghost use Rattle.std.specs.Prelude.{◌<◌};

use field::Modulus;
use std::io;

// Small numbers, Carmichael numbers, a strong pseudoprime, squares of large primes of each residue prime to 30, products of two primes,
// and numbers up to 2^31 - 1.
const NUMBERS: [u32; 47] = [
    0, 1, 2, 3, 4, 5, 6, 7, 9, 25, 29, 31, 49, 53, 121, 961, 561, 1105, 1729, 2465, 2821, 6601,
    8911, 10585, 15841, 29341, 1152271, 2047, 46337, 46339, 46341, 46349, 2147117569, 2146190929,
    2143782601, 2141190529, 2144523481, 2128253689, 2137120441, 2140080121, 2146654199, 2147302777,
    2147483587, 2147483629, 2147483642, 2147483646, 2147483647,
];

// A prime and a number to invert.
const PAIRS: [(u32, u32); 20] = [
    (2, 1),
    (3, 1),
    (3, 2),
    (7, 1),
    (7, 2),
    (7, 3),
    (7, 4),
    (7, 5),
    (7, 6),
    (2147483647, 1),
    (2147483647, 2),
    (2147483647, 3),
    (2147483647, 7),
    (2147483647, 46341),
    (2147483647, 65537),
    (2147483647, 1073741823),
    (2147483647, 1073741824),
    (2147483647, 1234567890),
    (2147483647, 2147483645),
    (2147483647, 2147483646),
];

fn print(rt: &impl Print, n: u32) -> io::Result<()> {
    print!(rt; "{n} ")
}

// The number, and whether it is prime.
fn show_prime(rt: &impl Print, n: u32) -> io::Result<()> {
    if n > 2147483647 {
        return Ok(());
    }
    print(rt, n)?;
    if primes::is_prime(n) {
        println!(rt; "prime")
    } else {
        println!(rt; "not prime")
    }
}

// -a, 1 - a and 1 + a; then 1 and one to four times the square of a.
fn show_sums(rt: &impl Print, m: Modulus, a: u32) -> io::Result<()>
    requires { (1 < m.p) × (a < m.p) }
{
    print(rt, m.neg(a))?;
    print(rt, m.sub(1, a))?;
    print(rt, m.add(1, a))?;
    print(rt, m.mul_add(1, a, a))?;
    print(rt, m.plus_products(1, &[a; 2], &[a; 2]))?;
    print(rt, m.plus_products(1, &[a; 3], &[a; 3]))?;
    print(rt, m.plus_products(1, &[a; 4], &[a; 4]))
}

// p, a, 1/a and a times 1/a, then the sums.
fn show_inverse(rt: &impl Print, p: u32, a: u32) -> io::Result<()> {
    if p > 2147483647 || a == 0 || a >= p || !primes::is_prime(p) {
        return Ok(());
    }
    let m = Modulus::new(p);
    let i = m.inverse(a);
    print(rt, p)?;
    print(rt, a)?;
    print(rt, i)?;
    print(rt, m.mul(a, i))?;
    show_sums(rt, m, a)?;
    println!(rt; "")
}

fn main(rt: HostRuntime) -> io::Result<()> {
    for n in NUMBERS {
        show_prime(&rt, n)?;
    }
    for (p, a) in PAIRS {
        show_inverse(&rt, p, a)?;
    }
    Ok(())
}
