// Whether the words of a table, a record or a column are below the prime: the last checks of the calls.
#![tactic(auto)]

ghost use Rattle.std.specs.Prelude.{IfSome, ◌≡◌, ℕ, ◌+◌, ◌*◌, ◌^◌, ◌<◌, ◌≤◌, leb, length, get_or};
ghost use Rattle.lists.specs.Lists.{some, counted};
ghost use Rattle.table.specs.Words.{table, width, place, bad_row_of, first_bad_of, first_bad_place_of};
ghost use Rattle.table.specs.Limits.{most_size};
ghost use Rattle.check_words.specs.Given.{TakesBelow, Gives};

// Whether one of n words from `at` on is p or more, `word` giving each word by its place. Every word is looked at.
fn bad_given<F: Fn(usize) -> u32>(p: u32, at: usize, n: usize, word: &F) -> bool
    requires { (at + n < 2 ^ 64) × TakesBelow (F.pre word.now) (at + n) }
    ensures { (w : ℕ → ℕ) → Gives (F.post word.now) (at + n) w → result ≡ some n (λ e. leb p (w (at + e))) }
{
    let mut bad = false;
    for k in 0..n {
        if p <= word(at + k) {
            bad = true;
        }
    }
    bad
}

// Whether one of n words of t from `at` on is p or more. Every word is looked at.
pub fn bad_words(p: u32, t: &[u32], at: usize, n: usize) -> bool
    requires { at + n ≤ length t.now }
    ensures { result ≡ some n (λ e. leb p (get_or t.now (at + e) 0)) }
{
    bad_given(p, at, n, &|i| t[i])
}

// Whether a used word of the first or the last row is p or more: block by block, each of the size that the orders around the row give it.
fn bad_end_row<F: Fn(usize) -> u32>(
    p: u32,
    n: usize,
    r: usize,
    s: usize,
    k: usize,
    word: &F,
) -> bool
    requires { (k < n) × (r ≤ 8) × (s ≤ 8) × TakesBelow (F.pre word.now) (width r s) }
    ensures { (w : ℕ → ℕ) → Gives (F.post word.now) (width r s) w → result ≡ bad_row_of p n r s k (λ κ i j. w (place r s κ i j)) }
{
    let lower = check_numbers::gap_order(n, r, k);
    let lower2 = check_numbers::gap_order(n, r, k + 1);
    let upper = check_numbers::gap_order(n, s, k);
    let upper2 = check_numbers::gap_order(n, s, k + 1);
    let a_at = 1 + r;
    let q_at = a_at + r * r;
    let g_at = q_at + r;
    let b_at = g_at + s;
    let h_at = b_at + s * s;
    let d = bad_given(p, 0, 1, word);
    let below = bad_given(p, 1, lower, word)
        | bad_given(p, a_at, lower2 * lower, word)
        | bad_given(p, q_at, lower2, word);
    let above = bad_given(p, g_at, upper2, word)
        | bad_given(p, b_at, upper * upper2, word)
        | bad_given(p, h_at, upper, word);
    d | below | above
}

// Whether a used word of row k of n is p or more, `word` giving each word by its place in the row.
// In a row between the ends every word is used.
pub fn bad_row<F: Fn(usize) -> u32>(p: u32, n: usize, r: usize, s: usize, k: usize, word: F) -> bool
    requires { (k < n) × (r ≤ 8) × (s ≤ 8) × TakesBelow (F.pre word) (width r s) }
    ensures { (w : ℕ → ℕ) → Gives (F.post word) (width r s) w → result ≡ bad_row_of p n r s k (λ κ i j. w (place r s κ i j)) }
{
    if k == 0 || k + 1 == n {
        return bad_end_row(p, n, r, s, k, &word);
    }
    bad_given(p, 0, check_numbers::row_width(r, s), &word)
}

// The first row of a table with a used word of p or more, from 0.
pub fn first_bad_row(p: u32, n: usize, r: usize, s: usize, t: &[u32]) -> Option<usize>
    requires { (r ≤ 8) × (s ≤ 8) × (n ≤ most_size) × (n * width r s ≤ length t.now) }
    ensures first { counted result ≡ first_bad_of p n (table r s t.now) }
    ensures below { IfSome result (λ k. k < n) }
{
    let w = check_numbers::row_width(r, s);
    for k in 0..n {
        let row = &t[k * w..(k + 1) * w];
        if bad_row(p, n, r, s, k, |i| row[i]) {
            return Some(k);
        }
    }
    None
}

// The first place of a column with a word of p or more, from 0. (By `position` the proof did not lead from its clause to that of `first_of`.)
pub fn first_bad_place(p: u32, n: usize, x: &[u32]) -> Option<usize>
    requires { n ≤ length x.now }
    ensures first { counted result ≡ first_bad_place_of p n x.now }
    ensures below { IfSome result (λ i. i < n) }
{
    for i in 0..n {
        if p <= x[i] {
            return Some(i);
        }
    }
    None
}
