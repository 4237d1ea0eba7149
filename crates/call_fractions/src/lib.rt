// The call that turns two columns of residues into fractions. A first pass looks for a place without a fraction; a second one
// writes, once there is none.
// No contract of a public function asks anything of the caller.
#![tactic(auto, unfolding(table::specs::Replies::answer))]

ghost use Rattle.std.specs.Prelude.{List, ◌≡◌, ℕ, ◌≤◌, ◌<◌, ℤ, length, IfSome};
ghost use Rattle.lists.specs.Lists.{begun, counted};
ghost use Rattle.table.specs.Words.{first_bad_place_of};
ghost use Rattle.check_numbers.specs.Replied.{Checked, replied};
ghost use Rattle.call_fractions.specs.FractionCall.{numerators_w, denominators_w, first_without_of};
ghost use Rattle.call_fractions.specs.FractionCall.{fractions_earlier, fractions_reply, numerators_after_of, denominators_after_of};

use check_numbers::{MOST_SIZE, Refusal};
use check_steps::{check_column, check_room};
use field_fractions::{Ratio, TwoPrimes};

// The buffers that refusals name: the residues under either prime, the numerators and the denominators.
const FIRST: u32 = 1;

const SECOND: u32 = 2;

const NUMERATORS: u32 = 4;

const DENOMINATORS: u32 = 5;

// ---- Checks.

// The checks of the call but for the last, in the order of the refusal table. `numerators` and `denominators` are the
// lengths of these buffers.
fn check_fractions(
    p: u32,
    q: u32,
    n: u32,
    x: &[u32],
    y: &[u32],
    numerators: usize,
    denominators: usize,
) -> Result<(), Refusal>
    ensures { (ns : List ℤ) (ds : List ℕ) → length ns ≡ numerators → length ds ≡ denominators
        → Checked (fractions_earlier p q n x.now y.now ns ds) result }
{
    if check_numbers::bad_prime(p) || check_numbers::bad_prime(q) {
        return Err(Refusal::Prime);
    }
    if p == q {
        return Err(Refusal::SamePrimes);
    }
    if check_numbers::bad_size(MOST_SIZE, n) {
        return Err(Refusal::Size);
    }
    check_room(FIRST, x.len(), n as usize)?;
    check_room(SECOND, y.len(), n as usize)?;
    check_room(NUMERATORS, numerators, n as usize)?;
    check_room(DENOMINATORS, denominators, n as usize)?;
    check_column(FIRST, p, n, x)?;
    check_column(SECOND, q, n, y)?;
    Ok(())
}

// ---- The two passes.

// The first place without a fraction, if there is one.
fn first_without(k: TwoPrimes, n: usize, x: &[u32], y: &[u32]) -> Option<usize>
    requires { (n ≤ length x.now) × (n ≤ length y.now) × (first_bad_place_of k.p n x.now ≡ 0) × (first_bad_place_of k.modulus.p n y.now ≡ 0) }
    ensures { (counted result ≡ first_without_of k.p k.modulus.p n x.now y.now) × IfSome result (λ i. i < n) }
{
    for i in 0..n {
        if k.fraction(x[i], y[i]).is_none() {
            return Some(i);
        }
    }
    None
}

// The fractions of n places, 0 and 0 for none.
fn put_fractions(
    k: TwoPrimes,
    n: usize,
    x: &[u32],
    y: &[u32],
    numerators: &mut [i32],
    denominators: &mut [u32],
)
    requires words { (n ≤ length x.now) × (n ≤ length y.now) × (first_bad_place_of k.p n x.now ≡ 0) × (first_bad_place_of k.modulus.p n y.now ≡ 0) }
    requires room { (n ≤ length numerators.old) × (n ≤ length denominators.old) }
    ensures numerators_after { numerators.new ≡ begun n (numerators_w k.p k.modulus.p n x.now y.now) numerators.old }
    ensures denominators_after { denominators.new ≡ begun n (denominators_w k.p k.modulus.p n x.now y.now)
        denominators.old }
{
    for i in 0..n {
        let f = k.fraction(x[i], y[i]).unwrap_or(Ratio {
            numerator: 0,
            denominator: 0,
        });
        numerators[i] = f.numerator;
        denominators[i] = f.denominator;
    }
}

// ---- The call.

pub fn fractions(
    p: u32,
    q: u32,
    n: u32,
    x: &[u32],
    y: &[u32],
    numerators: &mut [i32],
    denominators: &mut [u32],
) -> Result<u32, Refusal>
    ensures result_value { replied result ≡ fractions_reply p q n x.now y.now numerators.old denominators.old }
    ensures numerators_after { numerators.new ≡ numerators_after_of p q n x.now y.now numerators.old denominators.old }
    ensures denominators_after { denominators.new ≡ denominators_after_of p q n x.now y.now numerators.old
        denominators.old }
{
    check_fractions(p, q, n, x, y, numerators.len(), denominators.len())?;
    let k = TwoPrimes::new(p, q);
    let size = n as usize;
    if let Some(i) = first_without(k, size, x, y) {
        let place = i as u32 + 1;
        return Err(Refusal::NoFraction { place });
    }
    put_fractions(k, size, x, y, numerators, denominators);
    Ok(0)
}
