// Whether a task may have a mutex, by what is kept beside the board's arrays. What is said of each function stands in specs/Passing.
#![tactic(auto)]

ghost use Rattle.std.specs.Prelude.{◌≡◌, ◌<◌, ◌≤◌};
ghost use Rattle.clock_marks.specs.Marks.{holders_cell, Sized};
ghost use Rattle.clock_passes.specs.Passing.{clears_by, passes_in, may_by};

// The mutex m of a task of the same VCPU does not bar task n: 33 is a global one.
fn clears(view: &[u64], m: u64, n: u64) -> bool
    ensures { result ≡ clears_by view.now n m }
{
    if m == 33 {
        return true;
    }
    board_seats::ceiling(view, m) < n
}

// n is above the ceiling of every local mutex that a task of v holds: only those that hold one are walked over.
fn passes(view: &[u64], marks: &[u64], v: u64, n: u64) -> bool
    requires { Sized marks.now × (0 < v) × (v ≤ 16) }
    ensures { result ≡ passes_in view.now marks.now v n (holders_cell marks.now v) }
{
    let mut rest = board_seats::at(marks, 19 + v);
    while rest != 0 {
        let x = clock_sets::lowest_in(rest);
        if !clears(view, clock_puts::held(marks, v, x), n) {
            return false;
        }
        rest = clock_sets::without(rest, x);
    }
    true
}

// A global mutex is free; for a local one task (v, n), which holds none, passes the test.
pub fn may_have(view: &[u64], holder: &[u16], marks: &[u64], v: u64, n: u64, m: u64) -> bool
    requires { Sized marks.now × (0 < v) × (v ≤ 16) }
    ensures { result ≡ may_by view.now holder.now marks.now v n m }
{
    if board_seats::is_global(view, m) {
        return board_seats::holder(holder, m) == 0;
    }
    passes(view, marks, v, n)
}
