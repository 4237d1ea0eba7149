// What calls answer, the checks of the numbers that all calls share, in the order of the refusal table, and the sizes of rows.
#![tactic(auto)]

ghost use Rattle.std.specs.Prelude.{◌≡◌, [], ◌≤◌};
ghost use Rattle.table.specs.Limits.{standard, up_to, most_width};
ghost use Rattle.table.specs.Words.{table, gap, width};
ghost use Rattle.table.specs.Replies.{packed, bad_prime_of, bad_size_of, bad_order, bad_place_of};
ghost use Rattle.table.specs.Calls.{size_checks};
ghost use Rattle.table.specs.Undertakings.{Packed};
ghost use Rattle.check_numbers.specs.Replied.{refused, replied, Checked};

// The limits, which Limits.antt of `table` names: the largest prime, size and order.
pub const MOST_PRIME: u32 = 2147483647;

pub const MOST_SIZE: u32 = 1024;

pub const MOST_ORDER: u32 = 8;

// The buffers that refusals name: the first table and the second, the column, the work, the result, and a file's bytes.
pub const TABLE: u32 = 1;

pub const SECOND_TABLE: u32 = 2;

pub const COLUMN: u32 = 3;

pub const WORK: u32 = 4;

pub const RESULT: u32 = 5;

pub const FILE: u32 = 6;

// Why a call refuses, and what it is about: the buffer, the row or the place, where there is one.
#[derive(Clone, Copy, PartialEq, Eq, Debug)]
pub enum Refusal {
    // No prime, or one above the limit.
    Prime,
    Size,
    Orders { buffer: u32 },
    Short { buffer: u32 },
    // A word that is not below p.
    Word { buffer: u32, row: u32 },
    // A factor that is not below p.
    Factor,
    // Of a sum or a product.
    AddedOrders,
    ZeroPivot { row: u32 },
    // The whole matrix.
    Singular,
    Place,
    // Of a file.
    Length,
    // The rows that are read before the chain of a file goes wrong.
    Chain { rows: u32 },
    SamePrimes,
    NoFraction { place: u32 },
    NoZeroPivot,
}

impl Refusal {
    // The number of the refusal table.
    pub fn number(self) -> u32
        ensures { result ≡ (refused self).number }
    {
        match self {
            Refusal::Prime => 1,
            Refusal::Size => 2,
            Refusal::Orders { .. } => 3,
            Refusal::Short { .. } => 4,
            Refusal::Word { .. } => 5,
            Refusal::Factor => 5,
            Refusal::AddedOrders => 6,
            Refusal::ZeroPivot { .. } => 7,
            Refusal::Singular => 7,
            Refusal::Place => 8,
            Refusal::Length => 9,
            Refusal::Chain { .. } => 10,
            Refusal::SamePrimes => 11,
            Refusal::NoFraction { .. } => 12,
            Refusal::NoZeroPivot => 13,
        }
    }

    // The buffer beside the number, 0 for none.
    pub fn buffer(self) -> u32
        ensures { result ≡ (refused self).buffer }
    {
        match self {
            Refusal::Orders { buffer } => buffer,
            Refusal::Short { buffer } => buffer,
            Refusal::Word { buffer, .. } => buffer,
            Refusal::ZeroPivot { .. } => TABLE,
            Refusal::Singular => TABLE,
            Refusal::Length => FILE,
            Refusal::Chain { .. } => FILE,
            _ => 0,
        }
    }

    // The row or the place beside them, 0 for none.
    pub fn row(self) -> u32
        ensures { result ≡ (refused self).row }
    {
        match self {
            Refusal::Word { row, .. } => row,
            Refusal::ZeroPivot { row } => row,
            Refusal::Chain { rows } => rows,
            Refusal::NoFraction { place } => place,
            _ => 0,
        }
    }
}

// A call's answer in 64 bits: the value in the upper 32 where it accepts, else number + 256 * buffer + 65536 * row
pub fn pack(answer: Result<u32, Refusal>) -> u64
    requires { Packed (replied answer) }
    ensures { result ≡ packed (replied answer) }
{
    match answer {
        Ok(value) => 4294967296 * u64::from(value),
        Err(refusal) => {
            u64::from(refusal.number())
                + 256 * u64::from(refusal.buffer())
                + 65536 * u64::from(refusal.row())
        }
    }
}

// ---- Numbers.

pub fn bad_prime(p: u32) -> bool
    ensures { result ≡ bad_prime_of standard.prime p }
{
    MOST_PRIME < p || !primes::is_prime(p)
}

pub fn bad_size(most: u32, n: u32) -> bool
    ensures { result ≡ bad_size_of most n }
{
    n < 1 || most < n
}

pub fn bad_order(r: u32, s: u32) -> bool
    ensures { result ≡ bad_order standard.order r s }
{
    MOST_ORDER < r || MOST_ORDER < s
}

// Whether k is outside 1 to n.
pub fn bad_place(n: u32, k: u32) -> bool
    ensures { result ≡ bad_place_of n k }
{
    bad_size(n, k)
}

// The first three checks of every call: prime, size and the first table's orders. Sizes may be at most `most`.
#[tactic(auto, unfolding(table::specs::Replies::answer))]
pub fn numbers_up_to(most: u32, p: u32, n: u32, r: u32, s: u32) -> Result<(), Refusal>
    ensures { Checked (size_checks p n (up_to most) (table r s []) []) result }
{
    if bad_prime(p) {
        return Err(Refusal::Prime);
    }
    if bad_size(most, n) {
        return Err(Refusal::Size);
    }
    if bad_order(r, s) {
        return Err(Refusal::Orders { buffer: TABLE });
    }
    Ok(())
}

// The same with the limit of every call of the scope.
pub fn numbers(p: u32, n: u32, r: u32, s: u32) -> Result<(), Refusal>
    ensures { Checked (size_checks p n standard (table r s []) []) result }
{
    numbers_up_to(MOST_SIZE, p, n, r, s)
}

// ---- Rows.

// The words of a row.
pub fn row_width(r: usize, s: usize) -> usize
    requires { (r ≤ 8) × (s ≤ 8) }
    ensures { (result ≡ width r s) × (result ≤ most_width) }
{
    1 + 2 * r + r * r + 2 * s + s * s
}

// The order of gap k of n rows.
pub fn gap_order(n: usize, r: usize, k: usize) -> usize
    ensures { (result ≡ gap n r k) × (result ≤ r) }
{
    if k == 0 || n <= k { 0 } else { r }
}
