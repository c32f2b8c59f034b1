// Reads and writes of the list that the clock keeps beside the board's arrays. What it says stands in specs/Marks of `clock_marks`, what a write changes in its specs/Changes and in specs/Puts here.
#![tactic(auto)]

ghost use Rattle.std.specs.Prelude.{◌≡◌, ◌+◌, ◌<◌, ◌≤◌, set};
ghost use Rattle.board_seats.specs.Seats.{seat};
ghost use Rattle.clock_marks.specs.Marks.{Sized, held_cell, done_cell, place_cell};
ghost use Rattle.clock_marks.specs.Changes.{PutIn, PutReady, PutHeld};
ghost use Rattle.clock_puts.specs.Puts.{Put};

// The sets of VCPUs, by place.
pub const BUDGET: usize = 0;

pub const SPARE: usize = 1;

pub const HOLDING: usize = 3;

// s with x, or without it.
pub fn put(s: u64, x: u64, on: bool) -> u64
    requires { (s < 65536) × (0 < x) × (x ≤ 16) }
    ensures { Put s x on result }
{
    if on {
        clock_sets::with(s, x)
    } else {
        clock_sets::without(s, x)
    }
}

// Puts VCPU v into the set at i, or takes it out.
pub fn put_in(marks: &mut [u64], i: usize, v: u64, on: bool)
    requires { Sized marks.old × (i ≤ 3) × (0 < v) × (v ≤ 16) }
    ensures { PutIn marks.old marks.new i v on }
{
    marks[i] = put(marks[i], v, on);
}

// Task (v, n) is ready from now on, or not.
pub fn put_ready(marks: &mut [u64], v: u64, n: u64, on: bool)
    requires { Sized marks.old × (0 < v) × (v ≤ 16) × (0 < n) × (n ≤ 8) }
    ensures { PutReady marks.old marks.new v n on }
{
    let i = (3 + v) as usize;
    let s = put(marks[i], n, on);
    marks[i] = s;
    marks[2] = put(marks[2], v, s != 0);
}

// Task (v, n) holds m from now on: 33 is a global mutex, 0 none.
pub fn put_held(marks: &mut [u64], v: u64, n: u64, m: u64)
    requires { Sized marks.old × (0 < v) × (v ≤ 16) × (0 < n) × (n ≤ 8) }
    ensures { PutHeld marks.old marks.new v n m }
{
    let i = (19 + v) as usize;
    marks[i] = put(marks[i], n, m != 0);
    let j = (35 + board_seats::seat(v, n)) as usize;
    marks[j] = m;
}

// What task (v, n) holds.
pub fn held(marks: &[u64], v: u64, n: u64) -> u64
    requires { (v ≤ 16) × (n ≤ 8) }
    ensures { result ≡ held_cell marks.now v n }
{
    board_seats::at(marks, 35 + board_seats::seat(v, n))
}

// The ticks that its job has done.
pub fn done(marks: &[u64], v: u64, n: u64) -> u64
    requires { (v ≤ 16) × (n ≤ 8) }
    ensures { result ≡ done_cell marks.now v n }
{
    board_seats::at(marks, 163 + board_seats::seat(v, n))
}

// How many of its sections have ended.
pub fn place(marks: &[u64], v: u64, n: u64) -> u64
    requires { (v ≤ 16) × (n ≤ 8) }
    ensures { result ≡ place_cell marks.now v n }
{
    board_seats::at(marks, 291 + board_seats::seat(v, n))
}

// d ticks are done of the job of (v, n).
pub fn put_done(marks: &mut [u64], v: u64, n: u64, d: u64)
    requires { Sized marks.old × (0 < v) × (v ≤ 16) × (0 < n) × (n ≤ 8) }
    ensures { marks.new ≡ set marks.old (163 + seat v n) d }
{
    let j = (163 + board_seats::seat(v, n)) as usize;
    marks[j] = d;
}

// q of its sections have ended.
pub fn put_place(marks: &mut [u64], v: u64, n: u64, q: u64)
    requires { Sized marks.old × (0 < v) × (v ≤ 16) × (0 < n) × (n ≤ 8) }
    ensures { marks.new ≡ set marks.old (291 + seat v n) q }
{
    let j = (291 + board_seats::seat(v, n)) as usize;
    marks[j] = q;
}
