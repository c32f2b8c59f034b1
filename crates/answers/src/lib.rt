// The answers of a whole plan, in lent slices. What stands where is said in specs/Store of `figures_slices`.
#![tactic(auto)]

ghost use Rattle.std.specs.Prelude.{◌≡◌, ◌*◌, ◌≤◌, length};
ghost use Rattle.plan_tables.specs.Layout.{over};
ghost use Rattle.figures_cells.specs.Held.{system_of};
ghost use Rattle.figures_slices.specs.Lent.{TasksOf, BlockingsOf, StoredOf};
ghost use Rattle.figures_slices.specs.Store.{vcpu_answers, wait_answers, task_answers};
ghost use Rattle.times_tasks.specs.Lent.{WaitsOf};
ghost use Rattle.answers_told.specs.Lent.{AnswersOf};
ghost use Rattle.plan.specs.Limits.{most_tasks};

use figures_cells::PlanTables;

// Fills the answers of the tasks.
fn fill_tasks(t: &PlanTables, tf: &[u64], ws: &[u64], fs: &[u64], rows: &mut [u64], ta: &mut [u64])
    requires { TasksOf t.now tf.now × BlockingsOf t.now tf.now × WaitsOf t.now ws.now fs.now × (240 ≤ length rows.old) × (t.now.plan.tasks * 3 ≤ length ta.old) }
    ensures { ta.new ≡ over (task_answers (system_of t.now)) ta.old }
{
    let n = t.plan.tasks;
    for i in 0..n {
        let x = times_tasks::task_answer(t, tf, ws, fs, rows, i);
        answers_puts::put_task(ta, i, x);
    }
}

// Fills every answer of the plan in the tables, whose figures are stored; rows, ws and fs are scratch.
pub fn answers(
    t: &PlanTables,
    tf: &[u64],
    vf: &[u64],
    rf: &[u64],
    rows: &mut [u64],
    ws: &mut [u64],
    fs: &mut [u64],
    va: &mut [u64],
    wa: &mut [u64],
    ta: &mut [u64],
)
    requires stored { StoredOf t.now tf.now vf.now rf.now }
    requires in_bounds { (240 ≤ length rows.old) × (most_tasks ≤ length ws.old) × (most_tasks ≤ length fs.old) × (48 ≤ length va.old) × (t.now.plan.tasks * 24 ≤ length wa.old) × (t.now.plan.tasks * 3 ≤ length ta.old) }
    ensures { (va.new ≡ over (vcpu_answers (system_of t.now)) va.old) × (wa.new ≡ over (wait_answers (system_of t.now)) wa.old) × (ta.new ≡ over (task_answers (system_of t.now)) ta.old) }
{
    answers_waits::fill_vcpus(t, tf, vf, rows, va);
    answers_waits::fill_waits(t, rf, rows, wa);
    answers_sums::fill_sums(t, wa, ws);
    answers_sums::fill_flags(t, wa, fs);
    fill_tasks(t, tf, ws, fs, rows, ta);
}

// Fills every answer of the plan in the tables; tf and rf are scratch.
pub fn fill_answers(
    t: &PlanTables,
    tf: &mut [u64],
    rf: &mut [u64],
    va: &mut [u64],
    wa: &mut [u64],
    ta: &mut [u64],
)
    requires { (t.now.plan.tasks * 5 ≤ length tf.old) × (t.now.plan.tasks * 8 ≤ length rf.old) × (48 ≤ length va.old) × (t.now.plan.tasks * 24 ≤ length wa.old) × (t.now.plan.tasks * 3 ≤ length ta.old) }
    ensures { AnswersOf t.now va.new wa.new ta.new }
{
    let mut vf = [0u64; 48];
    let mut rows = [0u64; 240];
    let mut ws = [0u64; 64];
    let mut fs = [0u64; 64];
    figures_stored::stored(t, tf, &mut vf, rf);
    answers(t, tf, &vf, rf, &mut rows, &mut ws, &mut fs, va, wa, ta);
}
