// Writes of what is kept of VCPUs: their supply, their cores, all of it cleared. What stands where is said in specs/Puts of `clock_puts`.
#![tactic(auto)]

ghost use Rattle.std.specs.Prelude.{◌≡◌, false, ◌-◌, ◌<◌, ◌≤◌, ltb, length, get_or};
ghost use Rattle.clock_marks.specs.Marks.{Sized, spares, marks_length};
ghost use Rattle.clock_puts.specs.Puts.{PutSupply, CoreSet, PutCores, Cleared};

use clock_puts::{BUDGET, SPARE};
use plan::OverrunChoice;

// The overrun o of a VCPU would count, if its tasks held a global mutex.
fn spares(choice: OverrunChoice, stopped: bool, o: u64) -> bool
    ensures { result ≡ spares choice stopped o }
{
    match choice {
        OverrunChoice::WithOverrun => if stopped { false } else { 0 < o },
        OverrunChoice::WithoutOverrun => false,
    }
}

// Puts v into the sets of those with budget and with overrun to spare, or takes it out, by what the board's arrays say of it.
pub fn put_supply(
    choice: OverrunChoice,
    left: &[u64],
    over: &[u64],
    stopped: &[bool],
    marks: &mut [u64],
    v: u64,
)
    requires { Sized marks.old × (0 < v) × (v ≤ 16) }
    ensures { PutSupply marks.old marks.new v (ltb 0 (get_or left.now (v - 1) 0)) (spares choice (get_or stopped.now (v - 1) false) (get_or over.now (v - 1) 0)) }
{
    let p = 0 < board_seats::figure(left, v);
    let q = spares(
        choice,
        board_seats::mark(stopped, v),
        board_seats::figure(over, v),
    );
    clock_puts::put_in(marks, BUDGET, v, p);
    clock_puts::put_in(marks, SPARE, v, q);
}

// The set of the VCPUs whose core and one more is c.
fn core_set(times: &[u64], c: u64) -> u64
    ensures { CoreSet times.now c result }
{
    let mut s = 0;
    for v in 1..=16 {
        s = clock_puts::put(s, v, board_seats::figure(times, v) == c);
    }
    s
}

// Writes the set of each core's VCPUs.
pub fn put_cores(times: &[u64], marks: &mut [u64])
    requires { length marks.old ≡ marks_length }
    ensures { PutCores times.now marks.old marks.new }
{
    marks[420] = core_set(times, 1);
    marks[421] = core_set(times, 2);
    marks[422] = core_set(times, 3);
    marks[423] = core_set(times, 4);
}

// Empties the list, and writes the set of each core's VCPUs.
pub fn clear_marks(times: &[u64], marks: &mut [u64])
    requires { length marks.old ≡ marks_length }
    ensures { Cleared times.now marks.new }
{
    marks.fill(0);
    put_cores(times, marks);
}
