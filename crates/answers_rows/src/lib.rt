// One row of a plan in lent tables, asked for by its names: a VCPU's, a wait, a section's response. What each answers stands in specs/Asked of `answers_tasks`.
#![tactic(auto)]

ghost use Rattle.std.specs.Prelude.{◌≡◌, true, ◌<◌};
ghost use Rattle.plan_tables.specs.Layout.{lent, vcpu_row, task_row};
ghost use Rattle.figures_cells.specs.Held.{system_of};
ghost use Rattle.figures.specs.Figures.{response};
ghost use Rattle.figures.specs.Named.{lock_at, has_section};
ghost use Rattle.figures.specs.Answers.{vcpu_answer, wait_answer};
ghost use Rattle.answers_tasks.specs.Asked.{vcpu_row_of, wait_row_of, response_row_of, vcpu_asked, wait_asked, response_asked};

use figures_cells::PlanTables;
use plan::Refusal;
use plan_tables::PlanRecord;
use search::Answer;

// The answer of VCPU row a.
fn vcpu_answer(t: &PlanTables, a: usize) -> Answer
    requires { a < t.now.plan.vcpus }
    ensures { result ≡ vcpu_answer (system_of t.now) (vcpu_row t.now.vcpus.now a) }
{
    let mut tf = [0u64; 320];
    let mut vf = [0u64; 48];
    let mut rf = [0u64; 512];
    let mut rows = [0u64; 240];
    figures_stored::stored(t, &mut tf, &mut vf, &mut rf);
    times_vcpus::vcpu_answer(t, &tf, &vf, &mut rows, a)
}

// The answer of the wait of task k at its place i, a global section.
fn wait_answer(t: &PlanTables, k: usize, i: u64) -> Answer
    requires { (k < t.now.plan.tasks) × (has_section (system_of t.now) (task_row t.now.tasks.now k) i ≡ true) }
    ensures { result ≡ wait_answer (system_of t.now) (task_row t.now.tasks.now k) (lock_at (task_row t.now.tasks.now k) i) }
{
    let mut tf = [0u64; 320];
    let mut vf = [0u64; 48];
    let mut rf = [0u64; 512];
    let mut rows = [0u64; 240];
    figures_stored::stored(t, &mut tf, &mut vf, &mut rf);
    let v = t.task_cell(k, 0);
    let limit = t.task_cell(k, 2);
    let m = t.lock_cell(k, (i - 1) as usize, 0);
    times_waits::wait_answer(t, &rf, &mut rows, v, m, limit)
}

// The response of task k at its place i, a global section.
fn response_at(t: &PlanTables, k: usize, i: u64) -> u64
    requires { (k < t.now.plan.tasks) × (has_section (system_of t.now) (task_row t.now.tasks.now k) i ≡ true) }
    ensures { result ≡ response (system_of t.now) (task_row t.now.tasks.now k) (lock_at (task_row t.now.tasks.now k) i) }
{
    let mut tf = [0u64; 320];
    let mut vf = [0u64; 48];
    let mut rf = [0u64; 512];
    figures_stored::stored(t, &mut tf, &mut vf, &mut rf);
    rf[k * 8 + (i - 1) as usize]
}

// VCPU v of a plan.
fn vcpu_in(t: &PlanTables, v: u64) -> Result<Answer, Refusal>
    ensures { result ≡ vcpu_row_of (system_of t.now) v }
{
    let n = t.plan.vcpus;
    let a = figures_found::vcpu_row(t, v);
    if n <= a {
        return Err(Refusal::Unknown);
    }
    let x = vcpu_answer(t, a);
    Ok(x)
}

// The wait of task (v, n) of a plan at its place i.
fn wait_in(t: &PlanTables, v: u64, n: u64, i: u64) -> Result<Answer, Refusal>
    ensures { result ≡ wait_row_of (system_of t.now) v n i }
{
    let e = t.plan.tasks;
    let k = figures_named::task_row(t, v, n);
    if e <= k {
        return Err(Refusal::Unknown);
    }
    if !answers_tasks::has_section(t, k, i) {
        return Err(Refusal::Unknown);
    }
    let x = wait_answer(t, k, i);
    Ok(x)
}

// The response of task (v, n) of a plan at its place i.
fn response_in(t: &PlanTables, v: u64, n: u64, i: u64) -> Result<u64, Refusal>
    ensures { result ≡ response_row_of (system_of t.now) v n i }
{
    let e = t.plan.tasks;
    let k = figures_named::task_row(t, v, n);
    if e <= k {
        return Err(Refusal::Unknown);
    }
    if !answers_tasks::has_section(t, k, i) {
        return Err(Refusal::Unknown);
    }
    let x = response_at(t, k, i);
    Ok(x)
}

// How late VCPU v can finish: 9 first, then 10.
pub fn vcpu_time(
    r: PlanRecord,
    vt: &[u64],
    mt: &[u64],
    ot: &[u64],
    ts: &[u64],
    v: u64,
) -> Result<Answer, Refusal>
    ensures { result ≡ vcpu_asked r (lent vt.now mt.now ot.now ts.now) v }
{
    if !given_test::is_given(r, vt, mt, ot, ts) {
        return Err(Refusal::Foreign);
    }
    let t = PlanTables {
        plan: r,
        vcpus: vt,
        mutexes: mt,
        tasks: ts,
    };
    vcpu_in(&t, v)
}

// How long task (v, n) can wait at its lock place i: 9 first, then 10.
pub fn wait_time(
    r: PlanRecord,
    vt: &[u64],
    mt: &[u64],
    ot: &[u64],
    ts: &[u64],
    v: u64,
    n: u64,
    i: u64,
) -> Result<Answer, Refusal>
    ensures { result ≡ wait_asked r (lent vt.now mt.now ot.now ts.now) v n i }
{
    if !given_test::is_given(r, vt, mt, ot, ts) {
        return Err(Refusal::Foreign);
    }
    let t = PlanTables {
        plan: r,
        vcpus: vt,
        mutexes: mt,
        tasks: ts,
    };
    wait_in(&t, v, n, i)
}

// The response of the global section of task (v, n) at its lock place i: 9 first, then 10.
pub fn section_response(
    r: PlanRecord,
    vt: &[u64],
    mt: &[u64],
    ot: &[u64],
    ts: &[u64],
    v: u64,
    n: u64,
    i: u64,
) -> Result<u64, Refusal>
    ensures { result ≡ response_asked r (lent vt.now mt.now ot.now ts.now) v n i }
{
    if !given_test::is_given(r, vt, mt, ot, ts) {
        return Err(Refusal::Foreign);
    }
    let t = PlanTables {
        plan: r,
        vcpus: vt,
        mutexes: mt,
        tasks: ts,
    };
    response_in(&t, v, n, i)
}
