// What is wrong with an item of a plan, a kind and its numbers, after those before it. What it means stands in specs/Coded of `judge_coded`.
#![tactic(auto)]

ghost use Rattle.std.specs.Prelude.{◌≡◌, get_or, eqb, leb};
ghost use Rattle.plan.specs.Rules as rules;
ghost use Rattle.plan.specs.Reading.{fault};
ghost use Rattle.judge_coded.specs.Coded as coded;
ghost use Rattle.judge_coded.specs.Coded.{item};
ghost use Rattle.plan.specs.Line.{nums_of};

use judge_coded::{GLOBAL, Seen, ranged, rises, vcpu_fits};
use plan::{
    Kind, MAX_GUEST, MAX_LENGTH, MAX_LOCKS, MAX_M, MAX_N, MAX_PERIOD, MAX_V, Refusal, ensure,
    within,
};

// Is m a global mutex?
pub fn is_global(t: Seen, m: u64) -> bool
    ensures { result ≡ eqb (get_or t.owners m 0) coded.global }
{
    judge_hosts::at(&t.owners, m) == GLOBAL
}

// May a line of this kind follow a line of phase q?
#[tactic(auto, unfolding(plan::specs::Rules::follows))]
fn follows(q: u64, kind: Kind) -> bool
    ensures { result ≡ rules.follows q kind }
{
    match kind {
        Kind::PlanLine => q == 0,
        Kind::PolicyPO | Kind::PolicyPN | Kind::PolicyDO | Kind::PolicyDN => q == 1,
        Kind::VcpuLine => within(q, 2, 3),
        Kind::MutexG | Kind::MutexL => within(q, 3, 4),
        Kind::OpenLine => within(q, 3, 5),
        Kind::GuestLine => within(q, 3, 5) | (q == 7),
        Kind::TaskLine => within(q, 6, 7),
        Kind::RunLine => within(q, 8, 9),
        Kind::LockLine | Kind::EndLine => q == 7,
        Kind::AskLine | Kind::FreeLine | Kind::UseLine | Kind::TopLine | Kind::ShowLine => false,
    }
}

// What is wrong with a line of each kind: `vcpu`, `mutex`, `open`, `guest`, `task`, `run`, `lock`.
#[tactic(auto, unfolding(plan::specs::Refusals::unless, judge_coded::specs::Coded::vcpu_fault))]
fn vcpu_fault(
    t: Seen,
    v: u64,
    guest: u64,
    core: u64,
    budget: u64,
    period: u64,
) -> Result<(), Refusal>
    ensures { result ≡ coded.vcpu_fault t v guest core budget period }
{
    ensure(vcpu_fits(v, guest, core, budget, period), Refusal::Range)?;
    ensure(t.vcpu < v, Refusal::Order)
}

// A mutex of VCPU v, declared or not.
#[tactic(auto, unfolding(plan::specs::Refusals::unless, judge_coded::specs::Coded::mutex_fault))]
fn mutex_fault(t: Seen, m: u64, v: u64, declared: bool) -> Result<(), Refusal>
    ensures { result ≡ coded.mutex_fault t m v declared }
{
    ensure(ranged(m, MAX_M, v, MAX_V), Refusal::Range)?;
    ensure(t.mutex < m, Refusal::Order)?;
    ensure(declared, Refusal::Missing)
}

// A mutex that is local to v.
fn local_fault(t: Seen, m: u64, v: u64) -> Result<(), Refusal>
    ensures { result ≡ coded.mutex_fault t m v (leb 1 (get_or t.guests v 0)) }
{
    mutex_fault(t, m, v, 1 <= judge_hosts::at(&t.guests, v))
}

#[tactic(auto, unfolding(plan::specs::Refusals::unless, judge_coded::specs::Coded::open_fault))]
fn open_fault(t: Seen, m: u64, guest: u64) -> Result<(), Refusal>
    ensures { result ≡ coded.open_fault t m guest }
{
    ensure(ranged(m, MAX_M, guest, MAX_GUEST), Refusal::Range)?;
    ensure(rises(t.shared, t.sharer, m, guest), Refusal::Order)?;
    let hosted = judge_hosts::at(&t.hosted, guest) == 1;
    ensure(is_global(t, m) & hosted, Refusal::Missing)
}

#[tactic(auto, unfolding(plan::specs::Refusals::unless, judge_coded::specs::Coded::guest_fault))]
fn guest_fault(t: Seen, guest: u64) -> Result<(), Refusal>
    ensures { result ≡ coded.guest_fault t guest }
{
    ensure(within(guest, 1, MAX_GUEST), Refusal::Range)?;
    ensure(t.guest < guest, Refusal::Order)?;
    ensure(judge_hosts::at(&t.hosted, guest) == 1, Refusal::Missing)
}

#[tactic(auto, unfolding(plan::specs::Refusals::unless, judge_coded::specs::Coded::task_fault))]
fn task_fault(t: Seen, v: u64, n: u64, period: u64) -> Result<(), Refusal>
    ensures { result ≡ coded.task_fault t v n period }
{
    let range = within(v, 1, MAX_V) & ranged(n, MAX_N, period, MAX_PERIOD);
    ensure(range, Refusal::Range)?;
    ensure(rises(t.v, t.n, v, n), Refusal::Order)?;
    judge_hosts::host_fault(t, v)
}

#[tactic(auto, unfolding(plan::specs::Refusals::unless, judge_coded::specs::Coded::run_fault))]
fn run_fault(ticks: u64) -> Result<(), Refusal>
    ensures { result ≡ coded.run_fault ticks }
{
    ensure(within(ticks, 0, MAX_LENGTH), Refusal::Range)
}

#[tactic(auto, unfolding(plan::specs::Refusals::unless, judge_coded::specs::Coded::lock_fault))]
fn lock_fault(t: Seen, m: u64, ticks: u64) -> Result<(), Refusal>
    ensures { result ≡ coded.lock_fault t m ticks }
{
    ensure(ranged(m, MAX_M, ticks, MAX_LENGTH), Refusal::Range)?;
    let owner = judge_hosts::at(&t.owners, m);
    ensure(1 <= owner, Refusal::Missing)?;
    let reached = judge_hosts::reached(&t.opens, t.guest, t.v, owner, m);
    ensure(reached, Refusal::Outside)?;
    ensure(t.locks < MAX_LOCKS, Refusal::TooMany)
}

// What is wrong with a line that is allowed here and whose numbers are written as they should be.
#[tactic(auto, unfolding(judge_coded::specs::Coded::ruled, plan::specs::Line::nums_of, plan::specs::Line::size, plan::specs::Line::shape))]
fn rule(t: Seen, kind: Kind, a: u64, b: u64, c: u64, d: u64, e: u64) -> Result<(), Refusal>
    ensures { result ≡ coded.ruled t kind (nums_of kind a b c d e) }
{
    match kind {
        Kind::VcpuLine => vcpu_fault(t, a, b, c, d, e),
        Kind::MutexG => mutex_fault(t, a, 1, true),
        Kind::MutexL => local_fault(t, a, b),
        Kind::OpenLine => open_fault(t, a, b),
        Kind::GuestLine => guest_fault(t, a),
        Kind::TaskLine => task_fault(t, a, b, c),
        Kind::RunLine => run_fault(a),
        Kind::LockLine => lock_fault(t, a, b),
        _ => Ok(()),
    }
}

// What is wrong with an item: the lowest number.
#[tactic(auto, unfolding(plan::specs::Refusals::unless, plan::specs::Reading::fault))]
pub fn fault_of(t: Seen, kind: Kind, a: u64, b: u64, c: u64, d: u64, e: u64) -> Result<(), Refusal>
    ensures { result ≡ fault coded.coded t (item kind a b c d e) }
{
    ensure(follows(t.phase, kind), Refusal::Shape)?;
    let fit = text_written::written_of(kind, a, b, c, d, e);
    ensure(fit, Refusal::Number)?;
    rule(t, kind, a, b, c, d, e)
}
