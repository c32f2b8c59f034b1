// The test for 9: do tables hold what some accepted plan gives? (specs/Given of `plan_tables`; specs/Tests has its tests one by one.)
#![tactic(auto)]

ghost use Rattle.std.specs.Prelude.{◌≡◌, true, [], ◌≤◌};
ghost use Rattle.laws.specs.Rows.{rows};
ghost use Rattle.plan.specs.declared.Kind.TheVariants.{EndLine};
ghost use Rattle.plan.specs.Limits.{most_tasks};
ghost use Rattle.plan.specs.Text as text;
ghost use Rattle.plan.specs.Text.{policy_kind};
ghost use Rattle.judge_coded.specs.Coded.{item};
ghost use Rattle.plan_tables.specs.Layout as layout;
ghost use Rattle.plan_tables.specs.Given as tables;
ghost use Rattle.given_tasks.specs.Clear.{tasks_clear};
ghost use Rattle.given_test.specs.Feed as feed;
ghost use Rattle.given_test.specs.Tests as tests;

use given_tasks::tasks_clear;
use given_tidy::{all_tidy, cell, few};
use judge_coded::Seen;
use judge_faults::fault_of;
use judge_seen::{seen_after, start};
use plan::{Kind, OverrunChoice, Policy, within};
use plan_tables::{MUTEX_WIDTH, OPEN_WIDTH, PlanRecord, VCPU_WIDTH};

// The judge at work: is no item so far at fault, and what is seen.
#[derive(Clone, Copy)]
struct Run {
    ok: bool,
    seen: Seen,
}

// After one item more.
#[tactic(auto, unfolding(crate::specs::Feed::feed))]
fn fed(run: Run, kind: Kind, a: u64, b: u64, c: u64, d: u64, e: u64) -> Run
    ensures { result ≡ feed.feed run (item kind a b c d e) }
{
    let seen = run.seen;
    let ok = run.ok & fault_of(seen, kind, a, b, c, d, e).is_ok();
    let next = seen_after(seen, kind, a, b, c, d, e);
    Run { ok: ok, seen: next }
}

// Before the first item.
fn fresh() -> Run
    ensures { result ≡ feed.fresh }
{
    let seen = start();
    Run {
        ok: true,
        seen: seen,
    }
}

// After row i of the VCPUs.
fn fed_vcpu(run: Run, t: &[u64], i: usize) -> Run
    requires { i ≤ tests.most_rows }
    ensures { result ≡ feed.feeds run (feed.vcpu_lines t.now i) }
{
    let v = cell(t, VCPU_WIDTH, i, 0);
    let guest = cell(t, VCPU_WIDTH, i, 1);
    let core = cell(t, VCPU_WIDTH, i, 2);
    let budget = cell(t, VCPU_WIDTH, i, 3);
    let period = cell(t, VCPU_WIDTH, i, 4);
    fed(run, Kind::VcpuLine, v, guest, core, budget, period)
}

// A mutex is global where its owner is 0.
fn owner_kind(owner: u64) -> Kind
    ensures { result ≡ feed.owner_kind owner }
{
    if owner == 0 {
        Kind::MutexG
    } else {
        Kind::MutexL
    }
}

// After row i of the mutexes.
fn fed_mutex(run: Run, t: &[u64], i: usize) -> Run
    requires { i ≤ tests.most_rows }
    ensures { result ≡ feed.feeds run (feed.mutex_lines t.now i) }
{
    let m = cell(t, MUTEX_WIDTH, i, 0);
    let owner = cell(t, MUTEX_WIDTH, i, 1);
    let kind = owner_kind(owner);
    fed(run, kind, m, owner, 0, 0, 0)
}

// After row i of the openings.
fn fed_open(run: Run, t: &[u64], i: usize) -> Run
    requires { i ≤ tests.most_rows }
    ensures { result ≡ feed.feeds run (feed.open_lines t.now i) }
{
    let m = cell(t, OPEN_WIDTH, i, 0);
    let guest = cell(t, OPEN_WIDTH, i, 1);
    fed(run, Kind::OpenLine, m, guest, 0, 0, 0)
}

// After the first n rows of the VCPUs.
fn fed_vcpus(run: Run, t: &[u64], n: usize) -> Run
    requires { n ≤ tests.most_rows }
    ensures { result ≡ feed.feeds run (feed.lined n (feed.vcpu_lines t.now)) }
{
    let mut s = run;
    for i in 0..n {
        s = fed_vcpu(s, t, i);
    }
    s
}

// After the first n rows of the mutexes.
fn fed_mutexes(run: Run, t: &[u64], n: usize) -> Run
    requires { n ≤ tests.most_rows }
    ensures { result ≡ feed.feeds run (feed.lined n (feed.mutex_lines t.now)) }
{
    let mut s = run;
    for i in 0..n {
        s = fed_mutex(s, t, i);
    }
    s
}

// After the first n rows of the openings.
fn fed_opens(run: Run, t: &[u64], n: usize) -> Run
    requires { n ≤ tests.most_rows }
    ensures { result ≡ feed.feeds run (feed.lined n (feed.open_lines t.now)) }
{
    let mut s = run;
    for i in 0..n {
        s = fed_open(s, t, i);
    }
    s
}

// The kind of the policy's line.
fn policy_kind(p: Policy, o: OverrunChoice) -> Kind
    ensures { result ≡ policy_kind p o }
{
    match p {
        Policy::Periodic => match o {
            OverrunChoice::WithOverrun => Kind::PolicyPO,
            OverrunChoice::WithoutOverrun => Kind::PolicyPN,
        },
        Policy::Deferrable => match o {
            OverrunChoice::WithOverrun => Kind::PolicyDO,
            OverrunChoice::WithoutOverrun => Kind::PolicyDN,
        },
    }
}

// Are the lines of the first m tasks clear of faults, where one may stand after what is seen?
fn seen_clear(seen: Seen, vt: &[u64], n: usize, t: &[u64], m: usize) -> bool
    requires { (n ≤ tests.most_rows) × (m ≤ most_tasks) × (tests.all_tidy t.now m ≡ true) }
    ensures { result ≡ tasks_clear seen.guests seen.hosted seen.owners seen.opens t.now (rows n (layout.vcpu_row vt.now)) m }
{
    let opens = seen.opens;
    let owners = seen.owners;
    let hosted = seen.hosted;
    let guests = seen.guests;
    tasks_clear(&guests, &hosted, &owners, &opens, vt, n, t, m)
}

// Are the lines of the first m tasks, and the last line after them, clear of faults? The run before them has begun no section.
fn clean_tasks(run: Run, vt: &[u64], n: usize, t: &[u64], m: usize) -> bool
    requires { (n ≤ tests.most_rows) × (m ≤ most_tasks) × (tests.all_tidy t.now m ≡ true) × feed.Bare run }
    ensures { result ≡ feed.passing (feed.feed (feed.feeds run (feed.lined m (feed.task_lines (rows n (layout.vcpu_row vt.now)) t.now))) (text.item EndLine [])) }
{
    let seen = run.seen;
    let q = seen.phase;
    if run.ok & ((1 <= m) & (within(q, 3, 5) | (q == 7))) {
        seen_clear(seen, vt, n, t, m)
    } else {
        false
    }
}

// After the first two lines.
fn fed_front(r: PlanRecord) -> Run
    ensures { result ≡ feed.feeds feed.fresh (tests.front_items r []) }
{
    let policy = r.policy;
    let overrun = r.overrun;
    let kind = policy_kind(policy, overrun);
    let first = fed(fresh(), Kind::PlanLine, 0, 0, 0, 0, 0);
    fed(first, kind, 0, 0, 0, 0, 0)
}

// Has no item of the rows a fault after those before it?
fn clean_rows(r: PlanRecord, vt: &[u64], mt: &[u64], ot: &[u64], ts: &[u64]) -> bool
    requires { tests.Few r × (tests.all_tidy ts.now r.tasks ≡ true) }
    ensures { result ≡ tests.clean_rows r (layout.lent vt.now mt.now ot.now ts.now) }
{
    let n = r.vcpus;
    let front = fed_front(r);
    let vcpus = fed_vcpus(front, vt, n);
    let mutexes = fed_mutexes(vcpus, mt, r.mutexes);
    let opens = fed_opens(mutexes, ot, r.opens);
    clean_tasks(opens, vt, n, ts, r.tasks)
}

// Is every task's row as one of a plan, and has no item of the rows a fault?
fn sound_rows(r: PlanRecord, vt: &[u64], mt: &[u64], ot: &[u64], ts: &[u64]) -> bool
    requires { tests.Few r }
    ensures { result ≡ tests.sound_rows r (layout.lent vt.now mt.now ot.now ts.now) }
{
    if all_tidy(ts, r.tasks) {
        clean_rows(r, vt, mt, ot, ts)
    } else {
        false
    }
}

// The test for 9: does some accepted plan give these tables with this record?
pub fn is_given(r: PlanRecord, vt: &[u64], mt: &[u64], ot: &[u64], ts: &[u64]) -> bool
    ensures { result ≡ tables.is_given r (layout.lent vt.now mt.now ot.now ts.now) }
{
    if plan_tables::roomy(r, vt.len(), mt.len(), ot.len(), ts.len()) & few(r) {
        sound_rows(r, vt, mt, ot, ts)
    } else {
        false
    }
}
