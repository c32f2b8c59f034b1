// What is seen after an item of a plan, a kind and its numbers. What it means stands in specs/Coded of `judge_coded`.
#![tactic(auto)]

ghost use Rattle.std.specs.Prelude.{◌≡◌, set};
ghost use Rattle.plan.specs.Rules as rules;
ghost use Rattle.judge_coded.specs.Coded as coded;
ghost use Rattle.judge_coded.specs.Coded.{item};

use judge_coded::{GLOBAL, GUESTS, MUTEXES, OPENINGS, Seen, VCPUS, slot};
use plan::{ENDED, Kind, MAX_TASKS};

// A number as a byte; 0 for one that is none.
fn byte(x: u64) -> u8
    ensures { result ≡ coded.byte x }
{
    u8::try_from(x).unwrap_or(0)
}

// Writes x at i, if there is such a place.
fn put(d: &mut [u8], i: u64, x: u64)
    ensures { d.new ≡ set d.old i (coded.byte x) }
{
    let k = i as usize;
    if k < d.len() {
        d[k] = byte(x);
    }
}

// The number by which a line's place is told (specs/Rules of `plan`).
#[tactic(auto, unfolding(plan::specs::Rules::phase))]
fn phase_of(kind: Kind) -> u64
    ensures { result ≡ rules.phase kind }
{
    match kind {
        Kind::PlanLine => 1,
        Kind::PolicyPO | Kind::PolicyPN | Kind::PolicyDO | Kind::PolicyDN => 2,
        Kind::VcpuLine => 3,
        Kind::MutexG | Kind::MutexL => 4,
        Kind::OpenLine => 5,
        Kind::GuestLine => 6,
        Kind::RunLine => 7,
        Kind::TaskLine => 8,
        Kind::LockLine => 9,
        Kind::EndLine => 10,
        Kind::AskLine | Kind::FreeLine | Kind::UseLine | Kind::TopLine | Kind::ShowLine => 11,
    }
}

// One more, up to the limit of tasks.
fn bump(n: u64) -> u64
    ensures { result ≡ coded.bump n }
{
    if n < MAX_TASKS { n + 1 } else { n }
}

// What is seen after a line of each kind, with q the phase after it.
fn after_vcpu(t: Seen, q: u64, v: u64, guest: u64) -> Seen
    ensures { result ≡ coded.after_vcpu q t v guest }
{
    let mut guests = t.guests;
    put(&mut guests, v, guest);
    let mut hosted = t.hosted;
    put(&mut hosted, guest, 1);
    let mut u = t;
    u.phase = q;
    u.guests = guests;
    u.vcpu = v;
    u.hosted = hosted;
    u
}

fn after_mutex(t: Seen, q: u64, m: u64, owner: u64) -> Seen
    ensures { result ≡ coded.after_mutex q t m owner }
{
    let mut owners = t.owners;
    put(&mut owners, m, owner);
    let mut u = t;
    u.phase = q;
    u.owners = owners;
    u.mutex = m;
    u
}

fn after_open(t: Seen, q: u64, m: u64, guest: u64) -> Seen
    ensures { result ≡ coded.after_open q t m guest }
{
    let mut opens = t.opens;
    put(&mut opens, slot(m, guest), 1);
    let mut u = t;
    u.phase = q;
    u.opens = opens;
    u.shared = m;
    u.sharer = guest;
    u
}

// The same tables, at another phase, guest and task.
fn placed(t: Seen, q: u64, guest: u64, v: u64, n: u64, tasks: u64, locks: u64) -> Seen
    ensures { result ≡ coded.placed q t guest v n tasks locks }
{
    let mut u = t;
    u.phase = q;
    u.guest = guest;
    u.v = v;
    u.n = n;
    u.tasks = tasks;
    u.locks = locks;
    u
}

// What is seen after an item that has no fault.
#[tactic(auto, unfolding(judge_coded::specs::Coded::seen_by, plan::specs::Line::nums_of, plan::specs::Line::size, plan::specs::Line::shape))]
pub fn seen_after(t: Seen, kind: Kind, a: u64, b: u64, c: u64, d: u64, e: u64) -> Seen
    ensures { result ≡ (coded.coded).next t (item kind a b c d e) }
{
    let q = phase_of(kind);
    match kind {
        Kind::VcpuLine => after_vcpu(t, q, a, b),
        Kind::MutexG => after_mutex(t, q, a, GLOBAL),
        Kind::MutexL => after_mutex(t, q, a, b),
        Kind::OpenLine => after_open(t, q, a, b),
        Kind::GuestLine => placed(t, q, a, 0, 0, t.tasks, t.locks),
        Kind::TaskLine => placed(t, q, t.guest, a, b, bump(t.tasks), 0),
        Kind::LockLine => placed(t, q, t.guest, t.v, t.n, t.tasks, bump(t.locks)),
        _ => placed(t, q, t.guest, t.v, t.n, t.tasks, t.locks),
    }
}

// Nothing is seen.
pub fn start() -> Seen
    ensures { result ≡ coded.start }
{
    Seen {
        phase: 0,
        guests: [0u8; VCPUS],
        vcpu: 0,
        hosted: [0u8; GUESTS],
        owners: [0u8; MUTEXES],
        mutex: 0,
        opens: [0u8; OPENINGS],
        shared: 0,
        sharer: 0,
        guest: 0,
        v: 0,
        n: 0,
        tasks: 0,
        locks: 0,
    }
}

// May the plan stop here?
pub fn ready(t: Seen) -> bool
    ensures { result ≡ (coded.coded).ready t }
{
    t.phase == ENDED
}
