// What is counted of a plan's lines: the rows of each table, the policy, the overrun choice, and the locks of the last task. What it means stands in specs/Tally.
#![tactic(auto)]

ghost use Rattle.std.specs.Prelude.{◌≡◌};
ghost use Rattle.read_tally.specs.Tally as tallies;

use plan::{Kind, OverrunChoice, Policy};
use plan_tables::{MOST, PlanRecord};
use text_lines::Said;

// What some lines say: the policy, the overrun choice, the rows of each table, and the locks of the last task.
#[derive(Clone, Copy)]
pub struct Tally {
    pub policy: Policy,
    pub overrun: OverrunChoice,
    pub vcpus: usize,
    pub mutexes: usize,
    pub opens: usize,
    pub tasks: usize,
    pub locks: usize,
}

// The mark of a kind: 1 to 4 the policies, 5 vcpu, 6 mutex, 7 open, 8 task, 9 run, 10 lock, 0 any other.
#[tactic(auto, unfolding(crate::specs::Tally::mark_of))]
fn mark_of(kind: Kind) -> u64
    ensures { result ≡ tallies.mark_of kind }
{
    match kind {
        Kind::PolicyPO => 1,
        Kind::PolicyPN => 2,
        Kind::PolicyDO => 3,
        Kind::PolicyDN => 4,
        Kind::VcpuLine => 5,
        Kind::MutexG | Kind::MutexL => 6,
        Kind::OpenLine => 7,
        Kind::TaskLine => 8,
        Kind::RunLine => 9,
        Kind::LockLine => 10,
        _ => 0,
    }
}

// The mark of what a line says.
pub fn mark_in(s: Said) -> u64
    ensures { result ≡ tallies.mark_in s.found }
{
    match s.found {
        Some(k) => mark_of(k),
        None => 0,
    }
}

// One more where the test holds, up to the most.
pub fn bump(on: bool, n: usize) -> usize
    ensures { result ≡ tallies.bumped on n }
{
    if on & (n < MOST) { n + 1 } else { n }
}

// The policy after a line.
fn policy_by(m: u64, p: Policy) -> Policy
    ensures { result ≡ tallies.policy_by m p }
{
    if (m == 1) | (m == 2) {
        return Policy::Periodic;
    }
    if (m == 3) | (m == 4) {
        Policy::Deferrable
    } else {
        p
    }
}

// The overrun choice after a line.
fn overrun_by(m: u64, o: OverrunChoice) -> OverrunChoice
    ensures { result ≡ tallies.overrun_by m o }
{
    if (m == 1) | (m == 3) {
        return OverrunChoice::WithOverrun;
    }
    if (m == 2) | (m == 4) {
        OverrunChoice::WithoutOverrun
    } else {
        o
    }
}

// The locks of the last task after a line.
fn locks_by(m: u64, n: usize) -> usize
    ensures { result ≡ tallies.locks_by m n }
{
    if m == 8 { 0 } else { bump(m == 10, n) }
}

// The tally after a line with this mark.
fn tally_by(t: Tally, m: u64) -> Tally
    ensures { result ≡ tallies.tally_by t m }
{
    let p = t.policy;
    let o = t.overrun;
    Tally {
        policy: policy_by(m, p),
        overrun: overrun_by(m, o),
        vcpus: bump(m == 5, t.vcpus),
        mutexes: bump(m == 6, t.mutexes),
        opens: bump(m == 7, t.opens),
        tasks: bump(m == 8, t.tasks),
        locks: locks_by(m, t.locks),
    }
}

// The tally after a line.
pub fn tally_after(t: Tally, s: Said) -> Tally
    ensures { result ≡ tallies.tally_after t s }
{
    tally_by(t, mark_in(s))
}

// The tally before the first line.
pub fn blank() -> Tally
    ensures { result ≡ tallies.blank }
{
    Tally {
        policy: Policy::Periodic,
        overrun: OverrunChoice::WithOverrun,
        vcpus: 0,
        mutexes: 0,
        opens: 0,
        tasks: 0,
        locks: 0,
    }
}

// The plan record of a tally.
pub fn record_of(t: Tally) -> PlanRecord
    ensures { result ≡ tallies.record_in t }
{
    let p = t.policy;
    let o = t.overrun;
    PlanRecord {
        policy: p,
        overrun: o,
        vcpus: t.vcpus,
        mutexes: t.mutexes,
        opens: t.opens,
        tasks: t.tasks,
    }
}
