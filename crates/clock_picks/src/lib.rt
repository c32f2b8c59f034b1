// Who is picked, by the sets that the clock keeps beside the board. What they say stands in specs/Marks of `clock_marks`, who is picked in specs/Clock of `clock_rules`.
#![tactic(auto)]

ghost use Rattle.std.specs.Prelude.{◌≡◌, ℕ, ◌<◌, ◌≤◌};
ghost use Rattle.laws_picks.specs.Picks.{top_of};
ghost use Rattle.clock_sets.specs.Sets.{in_set};
ghost use Rattle.clock_marks.specs.Marks.{held_cell, Sized};
ghost use Rattle.clock_dues.specs.Picking.{is_candidate, rank_of, PicksV, PicksN, Idlers};

use board_seats::at;
use plan::larger;

// Those VCPUs of core c that are awake and have a ready task.
fn candidates(marks: &[u64], c: u64) -> u64
    requires { Sized marks.now × (c ≤ 3) }
    ensures { (result < 65536) × ((v : ℕ) → 0 < v → v ≤ 16 → in_set result v ≡ is_candidate marks.now c v) }
{
    let spared = clock_sets::meet(at(marks, 1), at(marks, 3));
    let awake = clock_sets::join(at(marks, 0), spared);
    let ready = clock_sets::meet(at(marks, 420 + c), at(marks, 2));
    clock_sets::meet(ready, awake)
}

// The VCPU that core c picks, 0 for none: the highest whose tasks hold a global mutex, else the highest.
pub fn pick_v(marks: &[u64], c: u64) -> u64
    requires { Sized marks.now × (c ≤ 3) }
    ensures { (result ≤ 16) × PicksV marks.now c result }
{
    let may = candidates(marks, c);
    let raised = clock_sets::meet(may, at(marks, 3));
    if raised == 0 {
        return clock_sets::highest_in(may);
    }
    clock_sets::highest_in(raised)
}

// The priority of task (v, n), which holds m: 33 is a global mutex, 0 none.
fn rank(view: &[u64], waits: &[u8], v: u64, m: u64, n: u64) -> u64
    requires { (v ≤ 16) × (n ≤ 8) }
    ensures { result ≡ rank_of view.now waits.now v m n }
{
    if m == 0 {
        return n;
    }
    if m == 33 {
        return 8 + n;
    }
    larger(
        n,
        board_walks::local_under(view, waits, v, board_seats::ceiling(view, m)),
    )
}

// The task of v with the highest priority among those in the set, by what each holds.
fn pick_ranked(view: &[u64], waits: &[u8], marks: &[u64], v: u64, set: u64) -> u64
    requires { (0 < v) × (v ≤ 16) }
    ensures { (result ≡ top_of 8 (in_set set) (λ n. rank_of view.now waits.now v (held_cell marks.now v n) n)) × (result ≤ 8) }
{
    let mut best = 0;
    let mut high = 0;
    for n in (1..=8).rev() {
        if clock_sets::has(set, n) {
            let p = rank(view, waits, v, at(marks, 35 + board_seats::seat(v, n)), n);
            if high < p {
                high = p;
                best = n;
            }
        }
    }
    best
}

// The task of v that is picked in it, 0 for none.
pub fn pick_n(view: &[u64], waits: &[u8], marks: &[u64], v: u64) -> u64
    requires { Sized marks.now × (0 < v) × (v ≤ 16) }
    ensures { (result ≤ 8) × PicksN view.now waits.now marks.now v result }
{
    let ready = at(marks, 3 + v);
    let holders = clock_sets::meet(ready, at(marks, 19 + v));
    let one = clock_sets::highest_in(ready);
    if holders == 0 {
        return one;
    }
    if clock_sets::without(ready, one) == 0 {
        return one;
    }
    pick_ranked(view, waits, marks, v, ready)
}

// The VCPUs of core c with budget and no ready task.
pub fn idlers(marks: &[u64], c: u64) -> u64
    requires { Sized marks.now × (c ≤ 3) }
    ensures { (result < 65536) × Idlers marks.now c result }
{
    let budget = clock_sets::meet(at(marks, 420 + c), at(marks, 0));
    clock_sets::less(budget, at(marks, 2))
}
