// Who recurs at a tick, and the first job missed, by the next tick of each VCPU and task.
#![tactic(auto)]

ghost use Rattle.std.specs.Prelude.{◌≡◌, ◌<◌, ◌≤◌, length};
ghost use Rattle.clock_nexts.specs.Nexts.{is_due, misses_at, misses_in, missed_v, missed_n, Row, Jobs};

use board_seats::both;

// Does the one at place i recur at tick t?
pub fn is_due(nexts: &[u64], i: u64, t: u64) -> bool
    requires { (length nexts.now ≡ 162) × (i < 144) }
    ensures { result ≡ is_due nexts.now t i }
{
    nexts[i as usize] == t
}

// Is the job of (v, n) released at tick t, with the one before it unfinished?
fn misses(times: &[u64], marks: &[u64], nexts: &[u64], v: u64, n: u64, t: u64) -> bool
    requires { (length times.now ≡ 3360) × (length marks.now ≡ 424) × (length nexts.now ≡ 162) × (0 < v) × (v ≤ 16) × (0 < n) × (n ≤ 8) }
    ensures { result ≡ misses_at times.now marks.now nexts.now t v n }
{
    let s = board_seats::seat(v, n);
    both(
        is_due(nexts, 15 + s, t),
        board_seats::at(marks, 163 + s) < board_seats::at(times, 159 + s),
    )
}

// The first task of v whose job is unfinished when its next is released at tick t, 0 for none.
pub fn missed_n(times: &[u64], marks: &[u64], nexts: &[u64], v: u64, t: u64) -> u64
    requires { (length times.now ≡ 3360) × (length marks.now ≡ 424) × (length nexts.now ≡ 162) × (0 < v) × (v ≤ 16) }
    ensures { (result ≡ missed_n times.now marks.now nexts.now t v) × (result ≤ 8) }
{
    for i in 0..8 {
        let n = i + 1;
        if misses(times, marks, nexts, v, n, t) {
            return n;
        }
    }
    0
}

// Has v such a task? Only where its row is due are its tasks looked at.
fn misses_in(times: &[u64], marks: &[u64], nexts: &[u64], v: u64, t: u64) -> bool
    requires { (length times.now ≡ 3360) × (length marks.now ≡ 424) × (length nexts.now ≡ 162) × (0 < v) × (v ≤ 16) × Row times.now nexts.now t v }
    ensures { result ≡ misses_in times.now marks.now nexts.now t v }
{
    let a = v as usize;
    if nexts[143 + a] == t {
        return 0 < missed_n(times, marks, nexts, v, t);
    }
    false
}

// The first VCPU with such a task, 0 for none.
pub fn missed_v(times: &[u64], marks: &[u64], nexts: &[u64], t: u64) -> u64
    requires { (length times.now ≡ 3360) × (length marks.now ≡ 424) × (length nexts.now ≡ 162) × Jobs times.now nexts.now t }
    ensures { (result ≡ missed_v times.now marks.now nexts.now t) × (result ≤ 16) }
{
    for i in 0..16 {
        let v = i + 1;
        if misses_in(times, marks, nexts, v, t) {
            return v;
        }
    }
    0
}
