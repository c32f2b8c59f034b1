// The ask that is due to a task, and the section that ends. What they are stands in specs/Clock of `clock_rules`.
#![tactic(auto)]

ghost use Rattle.std.specs.Prelude.{◌≡◌, ◌<◌, ◌≤◌};
ghost use Rattle.clock_marks.specs.Marks.{done_cell};
ghost use Rattle.clock_dues.specs.Picking.{mutex_at, IsDue, IsOver};

use board_seats::at;

// The mutex of the section of (v, n) behind q others, if d stands for it in the part of the times that begins at `part`; 0 for none.
fn mutex_at(times: &[u64], part: u64, v: u64, n: u64, q: u64, d: u64) -> u64
    requires { (0 < v) × (v ≤ 16) × (0 < n) × (n ≤ 8) × (part ≤ 2336) }
    ensures { result ≡ mutex_at times.now part v n q d }
{
    if q < 8 {
        let i = (board_seats::seat(v, n) - 1) * 8 + q;
        if at(times, part + i) == d {
            return at(times, 2336 + i);
        }
    }
    0
}

// The mutex for which a picked task is to ask, 0 for none.
pub fn due(times: &[u64], holder: &[u16], marks: &[u64], v: u64, n: u64) -> u64
    requires { (0 < v) × (v ≤ 16) × (0 < n) × (n ≤ 8) }
    ensures { IsDue times.now holder.now marks.now v n result }
{
    let s = board_seats::seat(v, n);
    let m = mutex_at(times, 288, v, n, at(marks, 291 + s), at(marks, 163 + s));
    if board_seats::holds(holder, v, n, m) {
        return 0;
    }
    m
}

// The mutex whose section is finished with one more tick, 0 for none.
pub fn over(times: &[u64], marks: &[u64], v: u64, n: u64) -> u64
    requires { (0 < v) × (v ≤ 16) × (0 < n) × (n ≤ 8) × (done_cell marks.now v n ≤ 17000000) }
    ensures { IsOver times.now marks.now v n result }
{
    let s = board_seats::seat(v, n);
    mutex_at(
        times,
        1312,
        v,
        n,
        at(marks, 291 + s),
        at(marks, 163 + s) + 1,
    )
}
