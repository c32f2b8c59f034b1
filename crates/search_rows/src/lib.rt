// The rows of a search in a slice: a row is pushed, and the demand of the rows is added up, capped above every limit. What it means stands in search: specs/Row.
#![tactic(auto)]

ghost use Rattle.std.specs.Prelude.{◌≡◌, ◌+◌, ◌*◌, ◌≤◌, ◌<◌, ◌^◌, min, length};
ghost use Rattle.laws.specs.Sums.{up, Each};
ghost use Rattle.search.specs.Row.{cap, IsUpTo, share, rows_demand, Sound, row_in, rows_in, pushed};

// One more than any limit: a demand that reaches it is above every limit.
const CAP: u64 = 1_000_001;

// a, or the cap.
fn capped(a: u64) -> u64
    ensures { result ≡ min a cap }
{
    a.min(CAP)
}

// a / b, rounded up.
fn div_up(a: u64, b: u64) -> u64
    requires { 1 ≤ b }
    ensures { result ≡ up a b }
{
    a.div_ceil(b)
}

// Row n is (shift, period, cost).
pub fn push_row(rows: &mut [u64], n: usize, shift: u64, period: u64, cost: u64)
    requires { n * 3 + 3 ≤ length rows.old }
    ensures { rows.new ≡ pushed rows.old n (record { shift = shift; period = period; cost = cost }) }
{
    let at = n * 3;
    rows[at] = shift;
    rows[at + 1] = period;
    rows[at + 2] = cost;
}

// What row k asks for in a window t, or a number above every limit where that is. A row that costs nothing is not divided.
fn share_of(rows: &[u64], k: usize, t: u64) -> u64
    requires { (k * 3 + 3 ≤ length rows.now) × (t < cap) × Sound (row_in rows.now k) }
    ensures { IsUpTo cap result (share t (row_in rows.now k)) (2 ^ 60) }
{
    let at = k * 3;
    let cost = rows[at + 2];
    if cost == 0 {
        return 0;
    }
    div_up(t + rows[at], rows[at + 1]) * capped(cost)
}

// The demand of n rows over a base, capped: once it reaches the cap, no later row is looked at.
pub fn demand(base: u64, rows: &[u64], n: usize, t: u64) -> u64
    requires { (n * 3 ≤ length rows.now) × (t < cap) × Each Sound (rows_in rows.now n) }
    ensures { result ≡ min (rows_demand base (rows_in rows.now n) t) cap }
{
    let mut total = capped(base);
    for k in 0..n {
        total += share_of(rows, k, t);
        if total >= CAP {
            return CAP;
        }
    }
    total
}
