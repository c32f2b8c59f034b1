// When the VCPUs and tasks of a plan recur, by the next tick of each, kept in a list of their own: a tick divides nothing, and one without recurrence looks at two cells.
#![tactic(auto)]

ghost use Rattle.std.specs.Prelude.{◌≡◌, ℕ, ◌<◌, ◌≤◌, true, length};
ghost use Rattle.board_keeps.specs.Fair.{InV};
ghost use Rattle.clock_sets.specs.Sets.{in_set};
ghost use Rattle.clock_nexts.specs.Nexts.{renewed, renewal, sooner, Row, Periods, HasTops, Wrote, Soonest, RowRenewed};

// The sooner of two ticks.
pub fn sooner(a: u64, b: u64) -> u64
    ensures { result ≡ sooner a b }
{
    a.min(b)
}

// The next, when tick t is over, of one with period p whose next was y.
pub fn renewed(p: u64, y: u64, t: u64) -> u64
    requires { (p ≤ 1000000) × (t ≤ 1000000) }
    ensures { result ≡ renewed p y t }
{
    if y == t { t + p } else { y }
}

// Writes when those at the places from a to before e recur next, when tick t is over, and returns the least of these ticks.
fn renew(times: &[u64], nexts: &mut [u64], a: usize, e: usize, t: u64) -> u64
    requires { Periods times.now × (length nexts.old ≡ 162) × (a ≤ e) × (e ≤ 144) × (t ≤ 1000000) }
    ensures { Wrote (renewal times.now nexts.old t) nexts.old nexts.new a e × Soonest (renewal times.now nexts.old t) a e result }
{
    let mut r = 3000000;
    for i in a..e {
        let y = renewed(times[16 + i], nexts[i], t);
        nexts[i] = y;
        r = sooner(y, r);
    }
    r
}

// s, with v where `on`.
fn gather(s: u64, v: u64, on: bool) -> u64
    requires { (0 < v) × (v ≤ 16) × (s < 65536) }
    ensures { (result < 65536) × ((w : ℕ) → InV w → in_set s w ≡ true → in_set result w ≡ true) × (on ≡ true → in_set result v ≡ true) }
{
    if on {
        return clock_sets::with(s, v);
    }
    s
}

// The set of the VCPUs that recur.
pub fn recurring(times: &[u64]) -> u64
    requires { length times.now ≡ 3360 }
    ensures { HasTops times.now result }
{
    let mut s = 0;
    for i in 0u64..16 {
        let p = board_seats::at(times, 16 + i);
        s = gather(s, i + 1, 0 < p);
    }
    s
}

// Writes the next releases of v's tasks, when those of tick t are made.
pub fn renew_row(times: &[u64], nexts: &mut [u64], v: usize, t: u64)
    requires { Periods times.now × (length nexts.old ≡ 162) × (0 < v) × (v ≤ 16) × Row times.now nexts.old t v × (t ≤ 1000000) }
    ensures { RowRenewed times.now nexts.old nexts.new t v }
{
    let a = 8 + v * 8;
    let r = renew(times, nexts, a, a + 8, t);
    nexts[143 + v] = r;
}
