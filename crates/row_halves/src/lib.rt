// Where the generators of a row stand: the half below the diagonal and the half above it, as they stand or transposed.
#![tactic(auto)]

ghost use Rattle.std.specs.Prelude.{◌≡◌, ◌<◌, ◌≤◌};
ghost use Rattle.row_halves.specs.Halves.{orders_at_of, lower_half, upper_half, transposed_half};

// The orders around a row, below the diagonal and above it: lower and upper those of the gap before the row, lower2 and upper2 those of the gap after it.
#[derive(Clone, Copy)]
pub struct Orders {
    pub lower: usize,
    pub lower2: usize,
    pub upper: usize,
    pub upper2: usize,
}

// Those around row k of n, in a table of orders r and s.
pub fn orders_at(n: usize, r: usize, s: usize, k: usize) -> Orders
    requires { k < n }
    ensures { result ≡ orders_at_of n r s k }
{
    let lower = check_numbers::gap_order(n, r, k);
    let lower2 = check_numbers::gap_order(n, r, k + 1);
    let upper = check_numbers::gap_order(n, s, k);
    let upper2 = check_numbers::gap_order(n, s, k + 1);
    Orders {
        lower,
        lower2,
        upper,
        upper2,
    }
}

// Where a sweep finds d and the generators of one half, in a row or in a whole table, and their order.
#[derive(Clone, Copy)]
pub struct Half {
    pub order: usize,
    pub word: usize,
    pub row: usize,
    pub block: usize,
    pub down: usize,
    pub across: usize,
    pub column: usize,
}

// p, a, q: the half below the diagonal.
pub fn lower(r: usize) -> Half
    requires { r ≤ 8 }
    ensures { result ≡ lower_half r }
{
    Half {
        order: r,
        word: 0,
        row: 1,
        block: 1 + r,
        down: r,
        across: 1,
        column: 1 + r + r * r,
    }
}

// g, b, h: the half above it.
pub fn upper(r: usize, s: usize) -> Half
    requires { (r ≤ 8) × (s ≤ 8) }
    ensures { result ≡ upper_half r s }
{
    let at = 1 + 2 * r + r * r;
    Half {
        order: s,
        word: 0,
        row: at,
        block: at + s,
        down: s,
        across: 1,
        column: at + s + s * s,
    }
}

// The same half of the transposed table: row and column change places, and the block is transposed.
pub fn transposed(h: Half) -> Half
    ensures { result ≡ transposed_half h }
{
    Half {
        order: h.order,
        word: h.word,
        row: h.column,
        block: h.block,
        down: h.across,
        across: h.down,
        column: h.row,
    }
}
