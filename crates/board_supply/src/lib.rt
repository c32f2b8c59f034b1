// Marks, faults and conditions of one VCPU on a board's arrays and the view of a plan: left, over and stopped by VCPU, holder by mutex, waits by seat. What they are stands in specs/Supplies of `board_reserves`.
#![tactic(auto)]

ghost use Rattle.std.specs.Prelude.{◌≡◌, ◌≤◌};
ghost use Rattle.laws.specs.Range.{all_to};
ghost use Rattle.board_reserves.specs.Supplies.{under_p, idle, next_mark, tick_fault, use_fault_at, known, busy_at, task_fault, ask_fault_at, free_fault_at, figures_good, mark_good_at, mark_by, vcpu_good_at};

use board_seats::{both, either, no, pick, sub};
use plan::{OverrunChoice, Policy, Refusal, ensure, within};

// The faults of `use` on a VCPU of the plan, at the supply s.
#[tactic(auto, unfolding(plan::specs::Refusals::unless))]
fn tick_fault(s: u64, t: u64) -> Result<(), Refusal>
    ensures { result ≡ tick_fault s t }
{
    ensure(within(t, 1, 1000000), Refusal::Range)?;
    ensure(s != 0, Refusal::Asleep)?;
    ensure(t <= s, Refusal::Supply)
}

// The faults of `use v t`: what is left of the budget is all the supply that most events need.
#[tactic(auto, unfolding(plan::specs::Refusals::unless))]
pub fn use_fault(
    choice: OverrunChoice,
    view: &[u64],
    left: &[u64],
    over: &[u64],
    stopped: &[bool],
    holder: &[u16],
    v: u64,
    t: u64,
) -> Result<(), Refusal>
    ensures { result ≡ use_fault_at choice view.now left.now over.now stopped.now holder.now v t }
{
    ensure(board_seats::has_vcpu(view, v), Refusal::Unknown)?;
    if both(within(t, 1, 1000000), t <= board_seats::figure(left, v)) {
        return Ok(());
    }
    let s = board_reserves::supply(choice, view, left, over, stopped, holder, v);
    tick_fault(s, t)
}

// VCPU v of the plan stands at 0, with no global mutex held by its tasks.
fn idle(view: &[u64], left: &[u64], holder: &[u16], v: u64) -> bool
    requires { v ≤ 16 }
    ensures { result ≡ idle view.now left.now holder.now v }
{
    if both(
        board_seats::has_vcpu(view, v),
        board_seats::figure(left, v) == 0,
    ) {
        return no(board_walks::holds_global(view, holder, v));
    }
    false
}

// The mark of v under P when an event is complete.
fn next_mark(view: &[u64], left: &[u64], stopped: &[bool], holder: &[u16], v: u64) -> bool
    requires { v ≤ 16 }
    ensures { result ≡ next_mark Policy.Periodic view.now left.now stopped.now holder.now v }
{
    if board_seats::mark(stopped, v) {
        return true;
    }
    idle(view, left, holder, v)
}

// The mark of v when an event is complete: under D it stays.
pub fn mark_after(
    policy: Policy,
    view: &[u64],
    left: &[u64],
    stopped: &[bool],
    holder: &[u16],
    v: u64,
) -> bool
    requires { v ≤ 16 }
    ensures { result ≡ next_mark policy view.now left.now stopped.now holder.now v }
{
    match policy {
        Policy::Periodic => next_mark(view, left, stopped, holder, v),
        Policy::Deferrable => board_seats::mark(stopped, v),
    }
}

// The mark of v when an event is complete, where `holds` says whether its tasks hold a global mutex: no mutex is walked over.
pub fn mark_by(policy: Policy, left: &[u64], stopped: &[bool], v: u64, holds: bool) -> bool
    ensures { result ≡ mark_by policy left.now stopped.now v holds }
{
    let empty = board_seats::figure(left, v) == 0;
    let due = both(under_p(policy), both(empty, no(holds)));
    either(board_seats::mark(stopped, v), due)
}

// Task (v, n) holds or waits.
fn busy(holder: &[u16], waits: &[u8], v: u64, n: u64) -> bool
    requires { (v ≤ 16) × (n ≤ 8) }
    ensures { result ≡ busy_at holder.now waits.now v n }
{
    let waiting = no(board_seats::wait(waits, v, n) == 0);
    either(waiting, 0 < board_walks::last_held(holder, v, n))
}

// The faults of `ask` by a task of the plan, at the supply s of its VCPU.
#[tactic(auto, unfolding(plan::specs::Refusals::unless))]
fn task_fault(
    s: u64,
    view: &[u64],
    holder: &[u16],
    waits: &[u8],
    v: u64,
    n: u64,
    m: u64,
) -> Result<(), Refusal>
    requires { (v ≤ 16) × (n ≤ 8) }
    ensures { result ≡ task_fault s view.now holder.now waits.now v n m }
{
    ensure(board_seats::lists(view, v, n, m), Refusal::Unlisted)?;
    ensure(s != 0, Refusal::Asleep)?;
    ensure(no(busy(holder, waits, v, n)), Refusal::Busy)
}

// The task (v, n) and the mutex m are in the plan.
fn known(view: &[u64], v: u64, n: u64, m: u64) -> bool
    ensures { result ≡ known view.now v n m }
{
    both(
        board_seats::has_task(view, v, n),
        board_seats::has_mutex(view, m),
    )
}

// The faults of `ask v n m`.
#[tactic(auto, unfolding(plan::specs::Refusals::unless))]
pub fn ask_fault(
    choice: OverrunChoice,
    view: &[u64],
    left: &[u64],
    over: &[u64],
    stopped: &[bool],
    holder: &[u16],
    waits: &[u8],
    v: u64,
    n: u64,
    m: u64,
) -> Result<(), Refusal>
    ensures { result ≡ ask_fault_at choice view.now left.now over.now stopped.now holder.now waits.now v n m }
{
    ensure(known(view, v, n, m), Refusal::Unknown)?;
    let s = board_reserves::supply(choice, view, left, over, stopped, holder, v);
    task_fault(s, view, holder, waits, v, n, m)
}

// The faults of `free v n m`.
#[tactic(auto, unfolding(plan::specs::Refusals::unless))]
pub fn free_fault(view: &[u64], holder: &[u16], v: u64, n: u64, m: u64) -> Result<(), Refusal>
    ensures { result ≡ free_fault_at view.now holder.now v n m }
{
    ensure(known(view, v, n, m), Refusal::Unknown)?;
    ensure(board_seats::holds(holder, v, n, m), Refusal::NotHolder)
}

// Policy P holds.
fn under_p(policy: Policy) -> bool
    ensures { result ≡ under_p policy }
{
    match policy {
        Policy::Periodic => true,
        Policy::Deferrable => false,
    }
}

fn figures_good(budget: u64, overrun: u64, l: u64, o: u64) -> bool
    ensures { result ≡ figures_good budget overrun l o }
{
    both(
        l <= budget,
        both(o <= overrun, either(o == overrun, l == 0)),
    )
}

fn mark_good<'a>(
    policy: Policy,
    view: &[u64],
    left: &'a [u64],
    stopped: &'a [bool],
    holder: &'a [u16],
    v: u64,
) -> bool
    requires { v ≤ 16 }
    ensures { result ≡ mark_good_at policy view.now left.now stopped.now holder.now v }
{
    let periodic = under_p(policy);
    let empty = board_seats::figure(left, v) == 0;
    let may = both(periodic, both(board_seats::has_vcpu(view, v), empty));
    let must = both(periodic, idle(view, left, holder, v));
    pick(board_seats::mark(stopped, v), may, no(must))
}

fn vcpu_good<'a>(
    policy: Policy,
    view: &[u64],
    left: &'a [u64],
    over: &'a [u64],
    stopped: &'a [bool],
    holder: &'a [u16],
    v: u64,
) -> bool
    requires { v ≤ 16 }
    ensures { result ≡ vcpu_good_at policy view.now left.now over.now stopped.now holder.now v }
{
    let l = board_seats::figure(left, v);
    let o = board_seats::figure(over, v);
    let figures = figures_good(
        board_seats::budget(view, v),
        board_seats::overrun(view, v),
        l,
        o,
    );
    both(figures, mark_good(policy, view, left, stopped, holder, v))
}

// The conditions on all VCPUs.
pub fn vcpus_good<'a>(
    policy: Policy,
    view: &[u64],
    left: &'a [u64],
    over: &'a [u64],
    stopped: &'a [bool],
    holder: &'a [u16],
) -> bool
    ensures { result ≡ all_to 16 (λ v. vcpu_good_at policy view.now left.now over.now stopped.now holder.now v) }
{
    for v in 1..=16 {
        if !vcpu_good(policy, view, left, over, stopped, holder, v) {
            return false;
        }
    }
    true
}
