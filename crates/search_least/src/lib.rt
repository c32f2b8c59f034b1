// The search itself: the recurrence is run over the demand of the rows. What it means stands in search: specs/Search.
#![tactic(auto)]

ghost use Rattle.std.specs.Prelude.{◌≡◌, ◌*◌, ◌≤◌, ◌<◌, length};
ghost use Rattle.laws.specs.Sums.{Each};
ghost use Rattle.search.specs.Search.{solve};
ghost use Rattle.search.specs.Row.{cap, rows_demand, Sound, rows_in};

use search::Answer;

// The least number from 0 to the limit that the demand of n rows over a base fits into.
pub fn least(base: u64, start: u64, limit: u64, rows: &[u64], n: usize) -> Answer
    requires { (n * 3 ≤ length rows.now) × (limit < cap) × (start ≤ base) × Each Sound (rows_in rows.now n) }
    ensures { result ≡ solve (rows_demand base (rows_in rows.now n)) start limit }
{
    let mut x = start;
    let mut rounds = 0;
    while x <= limit {
        let next = search_rows::demand(base, rows, n, x);
        rounds += 1;
        if next == x {
            return Answer::Fits { w: x, rounds };
        }
        x = next;
    }
    Answer::Late { rounds }
}
