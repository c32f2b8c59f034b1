// For how many ticks a core's turn stays the same: how far its task goes on, who idles in it, and the least of them.
#![tactic(auto)]

ghost use Rattle.std.specs.Prelude.{◌≡◌, get_or, ℕ, ◌-◌, ◌<◌, ◌≤◌};
ghost use Rattle.board_reserves.specs.Supplies.{under_p};
ghost use Rattle.board_keeps.specs.Fair.{InV, InN};
ghost use Rattle.clock_times.specs.Times.{lengths_cell, Ordered};
ghost use Rattle.clock_marks.specs.Marks.{done_cell, place_cell, Ended, Sized};
ghost use Rattle.clock_nexts.specs.Nexts as nexts;
ghost use Rattle.clock_reaches.specs.Stretches.{ticks_cell, Stretch, Idles, Within};

use board_seats::{at, seat};
use plan::Policy;

pub fn sooner(a: u64, b: u64) -> u64
    ensures { (result ≤ a) × (result ≤ b) × (result ≡ nexts.sooner a b) }
{
    a.min(b)
}

// For how many ticks the job of (v, n), which is unfinished, neither ends nor ends a section, nor asks for a mutex.
fn stretch(times: &[u64], holder: &[u16], marks: &[u64], v: u64, n: u64) -> u64
    requires { InV v × InN n × Ordered times.now × (done_cell marks.now v n < lengths_cell times.now v n) × Ended times.now v n (done_cell marks.now v n) (place_cell marks.now v n) }
    ensures { Stretch times.now holder.now marks.now v n result }
{
    let s = seat(v, n);
    let d = at(marks, 163 + s);
    let q = at(marks, 291 + s);
    let rest = at(times, 159 + s) - d - 1;
    if 8 <= q {
        return rest;
    }
    let i = (s - 1) * 8 + q;
    let m = at(times, 2336 + i);
    if m == 0 {
        return rest;
    }
    let b = at(times, 288 + i);
    if d < b {
        return b - d;
    }
    let within = at(times, 1312 + i) - d - 1;
    if b < d {
        return within;
    }
    if board_seats::holds(holder, v, n, m) {
        return within;
    }
    0
}

// For how many ticks task (v, n) goes on: its budget does not end in them either.
pub fn reach(times: &[u64], left: &[u64], holder: &[u16], marks: &[u64], v: u64, n: u64) -> u64
    requires { InV v × InN n × Ordered times.now × (done_cell marks.now v n < lengths_cell times.now v n) × Ended times.now v n (done_cell marks.now v n) (place_cell marks.now v n) }
    ensures { Stretch times.now holder.now marks.now v n result × (0 < result → result < get_or left.now (v - 1) 0) }
{
    let most = board_seats::sub(board_seats::figure(left, v), 1);
    sooner(stretch(times, holder, marks, v, n), most)
}

// Policy P holds.
fn under_p(policy: Policy) -> bool
    ensures { result ≡ under_p policy }
{
    match policy {
        Policy::Periodic => true,
        Policy::Deferrable => false,
    }
}

// The VCPUs that idle in core c's turn: under D nobody does.
pub fn idling(policy: Policy, marks: &[u64], c: u64) -> u64
    requires { Sized marks.now × (c ≤ 3) }
    ensures { (result < 65536) × Idles policy marks.now c result }
{
    if under_p(policy) {
        return clock_picks::idlers(marks, c);
    }
    0
}

// No more than k ticks, and fewer than each of the set has left.
pub fn bound(left: &[u64], set: u64, k: u64) -> u64
    requires { set < 65536 }
    ensures { (result ≤ k) × Within left.now set result }
{
    let mut least = k;
    let mut rest = set;
    while rest != 0 {
        let v = clock_sets::lowest_in(rest);
        least = sooner(board_seats::sub(board_seats::figure(left, v), 1), least);
        rest = clock_sets::without(rest, v);
    }
    least
}

// For how many ticks no core's turn changes, m at most.
pub fn least(plain: &[u64], m: u64) -> u64
    ensures { (result ≤ m) × ((c : ℕ) → c ≤ 3 → result ≤ ticks_cell plain.now c) }
{
    let low = sooner(at(plain, 0), at(plain, 1));
    let high = sooner(at(plain, 2), at(plain, 3));
    sooner(sooner(low, high), m)
}
