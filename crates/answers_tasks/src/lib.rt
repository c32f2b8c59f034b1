// A task's row of a plan in lent tables, asked for by its names. What each row answers stands in specs/Asked: 9 first, then 10 for a VCPU, task or place that the plan lacks.
#![tactic(auto)]

ghost use Rattle.std.specs.Prelude.{◌≡◌, ◌<◌};
ghost use Rattle.plan_tables.specs.Layout.{lent, task_row};
ghost use Rattle.figures_cells.specs.Held.{system_of};
ghost use Rattle.figures.specs.Named.{has_section};
ghost use Rattle.figures.specs.Answers.{task_answer};
ghost use Rattle.answers_tasks.specs.Asked.{task_row_of, task_asked};

use figures::TaskAnswer;
use figures_cells::PlanTables;
use plan::Refusal;
use plan_tables::PlanRecord;

// Does a global section stand at place i of task k?
pub fn has_section(t: &PlanTables, k: usize, i: u64) -> bool
    requires { k < t.now.plan.tasks }
    ensures { result ≡ has_section (system_of t.now) (task_row t.now.tasks.now k) i }
{
    let n = t.lock_count(k) as u64;
    if i < 1 {
        return false;
    }
    if n < i {
        return false;
    }
    let m = t.lock_cell(k, (i - 1) as usize, 0);
    t.is_global(m)
}

// The answer of task k.
fn task_answer(t: &PlanTables, k: usize) -> TaskAnswer
    requires { k < t.now.plan.tasks }
    ensures { result ≡ task_answer (system_of t.now) (task_row t.now.tasks.now k) }
{
    let mut tf = [0u64; 320];
    let mut rf = [0u64; 512];
    let mut va = [0u64; 48];
    let mut wa = [0u64; 1536];
    let mut ta = [0u64; 192];
    answers::fill_answers(t, &mut tf, &mut rf, &mut va, &mut wa, &mut ta);
    answers_told::task_answer_at(&ta, k)
}

// Task (v, n) of a plan.
fn task_in(t: &PlanTables, v: u64, n: u64) -> Result<TaskAnswer, Refusal>
    ensures { result ≡ task_row_of (system_of t.now) v n }
{
    let e = t.plan.tasks;
    let k = figures_named::task_row(t, v, n);
    if e <= k {
        return Err(Refusal::Unknown);
    }
    let x = task_answer(t, k);
    Ok(x)
}

// How late task (v, n) can finish: 9 first, then 10.
pub fn task_time(
    r: PlanRecord,
    vt: &[u64],
    mt: &[u64],
    ot: &[u64],
    ts: &[u64],
    v: u64,
    n: u64,
) -> Result<TaskAnswer, Refusal>
    ensures { result ≡ task_asked r (lent vt.now mt.now ot.now ts.now) v n }
{
    if !given_test::is_given(r, vt, mt, ot, ts) {
        return Err(Refusal::Foreign);
    }
    let t = PlanTables {
        plan: r,
        vcpus: vt,
        mutexes: mt,
        tasks: ts,
    };
    task_in(&t, v, n)
}
