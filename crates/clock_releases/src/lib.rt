// The releases of a tick on the clock, where no job is missed. What they are stands in specs/Clock of `clock_rules`, what holds of the lists in specs/Opens.
#![tactic(auto)]

ghost use Rattle.std.specs.Prelude.{◌≡◌, ◌<◌, ◌≤◌, length};
ghost use Rattle.board_seats.specs.Seats.{seat};
ghost use Rattle.clock_marks.specs.Marks.{Sized};
ghost use Rattle.clock_nexts.specs.Nexts.{Periods, Jobs};
ghost use Rattle.clock_releases.specs.Opens.{Release, Releases, Jobbed};

// What the opening of a tick leaves: where its text ends, and whose job is the first missed, v and n 0 for nobody's.
#[derive(Clone, Copy)]
pub struct Opened {
    pub at: usize,
    pub v: u64,
    pub n: u64,
}

// The job of (v, n) is released.
fn release(times: &[u64], marks: &mut [u64], v: u64, n: u64)
    requires { Sized marks.old × (0 < v) × (v ≤ 16) × (0 < n) × (n ≤ 8) }
    ensures { Release times.now marks.old marks.new v n }
{
    let e = board_seats::at(times, 159 + board_seats::seat(v, n));
    clock_puts::put_done(marks, v, n, 0);
    clock_puts::put_place(marks, v, n, 0);
    clock_puts::put_ready(marks, v, n, 0 < e);
}

// The releases of v's tasks at tick t.
fn release_in(times: &[u64], marks: &mut [u64], nexts: &[u64], v: u64, t: u64)
    requires { Sized marks.old × (length nexts.now ≡ 162) × (0 < v) × (v ≤ 16) }
    ensures { Releases times.now marks.old nexts.now t (seat v 0) (seat v 8) marks.new }
{
    for n in 0u64..8 {
        if clock_misses::is_due(nexts, 15 + board_seats::seat(v, n + 1), t) {
            release(times, marks, v, n + 1);
        }
    }
}

// The releases of tick t, where no job is missed: only in rows that are due.
fn releases(times: &[u64], marks: &mut [u64], nexts: &[u64], t: u64)
    requires { Sized marks.old × (length nexts.now ≡ 162) × Jobs times.now nexts.now t }
    ensures { Releases times.now marks.old nexts.now t 0 128 marks.new }
{
    for i in 0..16 {
        if nexts[144 + i] == t {
            release_in(times, marks, nexts, i as u64 + 1, t);
        }
    }
}

// Where jobs are due at tick t, the first missed one is found; where none is, they are released, and when they recur next is written.
#[tactic(auto, using(crate::specs::OpenLaws::jobs_quiet, crate::specs::OpenLaws::jobs_missed, crate::specs::OpenLaws::jobs_made))]
pub fn jobs_due(times: &[u64], marks: &mut [u64], nexts: &mut [u64], t: u64, at: usize) -> Opened
    requires { Periods times.now × Sized marks.old × (length nexts.old ≡ 162) × Jobs times.now nexts.old t × (t ≤ 1000000) }
    ensures { Jobbed times.now marks.old nexts.old t marks.new nexts.new result.v result.n × (result.at ≡ at) }
{
    if nexts[161] != t {
        return Opened { at, v: 0, n: 0 };
    }
    let v = clock_misses::missed_v(times, marks, nexts, t);
    if 0 < v {
        let n = clock_misses::missed_n(times, marks, nexts, v, t);
        return Opened { at, v, n };
    }
    releases(times, marks, nexts, t);
    clock_renews::renew_jobs(times, nexts, t);
    Opened { at, v: 0, n: 0 }
}
