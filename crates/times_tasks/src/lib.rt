// The searches of tasks, over rows that are written once for each search.
#![tactic(auto)]

ghost use Rattle.std.specs.Prelude.{◌≡◌, ◌&&◌, map, ◌+◌, ◌*◌, ◌<◌, ◌≤◌, length};
ghost use Rattle.laws.specs.Sums.{only, Each};
ghost use Rattle.laws.specs.Rows.{rows as rows_of};
ghost use Rattle.search.specs.Search.{solve};
ghost use Rattle.search.specs.Row.{Sound, rows_in, pushed};
ghost use Rattle.plan_tables.specs.Layout.{task_row};
ghost use Rattle.figures_cells.specs.Held.{system_of};
ghost use Rattle.figures.specs.Figures.{vcpu_at, higher_task, lengths, local_blocking, task_demand};
ghost use Rattle.figures.specs.Answers.{remote_waits, lacks_wait, is_held, task_answer};
ghost use Rattle.figures_slices.specs.Lent.{TasksOf, BlockingsOf};
ghost use Rattle.plan.specs.Limits.{most_tasks};
ghost use Rattle.times_tasks.specs.Waits.{preempt_row, task_rows};
ghost use Rattle.times_tasks.specs.Lent.{WaitsOf};

use figures::TaskAnswer;
use figures_cells::PlanTables;
use search::Answer;

// Does task h lack a wait?
fn lacks(t: &PlanTables, ws: &[u64], fs: &[u64], h: usize) -> bool
    requires { WaitsOf t.now ws.now fs.now × (h < t.now.plan.tasks) }
    ensures { result ≡ lacks_wait (system_of t.now) (task_row t.now.tasks.now h) }
{
    fs[h] == 1
}

// Is task h a higher task of task i's VCPU that lacks a wait?
fn holds_up(t: &PlanTables, ws: &[u64], fs: &[u64], i: usize, h: usize) -> bool
    requires { WaitsOf t.now ws.now fs.now × (i < t.now.plan.tasks) × (h < t.now.plan.tasks) }
    ensures { result ≡ (higher_task (task_row t.now.tasks.now i) (task_row t.now.tasks.now h) && lacks_wait (system_of t.now) (task_row t.now.tasks.now h)) }
{
    figures_named::is_higher(t, i, h) & lacks(t, ws, fs, h)
}

// Does a higher task of task i's VCPU lack a wait?
fn is_held(t: &PlanTables, ws: &[u64], fs: &[u64], i: usize) -> bool
    requires { WaitsOf t.now ws.now fs.now × (i < t.now.plan.tasks) }
    ensures { result ≡ is_held (system_of t.now) (task_row t.now.tasks.now i) }
{
    let n = t.plan.tasks;
    for h in 0..n {
        if holds_up(t, ws, fs, i, h) {
            return true;
        }
    }
    false
}

// Writes row n: task h, a higher one on a VCPU with this gap.
fn push_task(
    t: &PlanTables,
    tf: &[u64],
    ws: &[u64],
    fs: &[u64],
    rows: &mut [u64],
    gap: u64,
    h: usize,
    n: usize,
)
    requires { TasksOf t.now tf.now × WaitsOf t.now ws.now fs.now × (gap ≤ 1000000) × (h < t.now.plan.tasks) × (n * 3 + 3 ≤ length rows.old) }
    ensures { rows.new ≡ pushed rows.old n (preempt_row (system_of t.now) gap (task_row t.now.tasks.now h)) }
{
    let period = t.task_cell(h, 2);
    search_rows::push_row(rows, n, gap + ws[h], period, tf[h * 5 + 3]);
}

// Writes the rows of the higher tasks of task i's VCPU, which has this gap, and says how many.
fn higher_rows(
    t: &PlanTables,
    tf: &[u64],
    ws: &[u64],
    fs: &[u64],
    rows: &mut [u64],
    gap: u64,
    i: usize,
) -> usize
    requires { TasksOf t.now tf.now × WaitsOf t.now ws.now fs.now × (gap ≤ 1000000) × (i < t.now.plan.tasks) × (240 ≤ length rows.old) }
    ensures { (result ≤ most_tasks) × (rows_in rows.new result ≡ map (preempt_row (system_of t.now) gap) (only (higher_task (task_row t.now.tasks.now i)) (rows_of t.now.plan.tasks (task_row t.now.tasks.now)))) }
{
    let count = t.plan.tasks;
    let mut n = 0;
    for h in 0..count {
        if figures_named::is_higher(t, i, h) {
            push_task(t, tf, ws, fs, rows, gap, h, n);
            n += 1;
        }
    }
    n
}

// Writes the rows of task i's search, and says how many.
fn task_rows(
    t: &PlanTables,
    tf: &[u64],
    ws: &[u64],
    fs: &[u64],
    rows: &mut [u64],
    i: usize,
) -> usize
    requires { TasksOf t.now tf.now × WaitsOf t.now ws.now fs.now × (i < t.now.plan.tasks) × (240 ≤ length rows.old) }
    ensures { (result ≤ 65) × (rows_in rows.new result ≡ task_rows (system_of t.now) (task_row t.now.tasks.now i) (vcpu_at (system_of t.now) (task_row t.now.tasks.now i).v)) × Each Sound (rows_in rows.new result) }
{
    let a = figures_named::vcpu_of(t, t.task_cell(i, 0));
    let budget = t.vcpu_cell(a, 3);
    let period = t.vcpu_cell(a, 4);
    let gap = period - budget;
    let n = higher_rows(t, tf, ws, fs, rows, gap, i);
    search_rows::push_row(rows, n, budget, period, gap);
    n + 1
}

// The base of task i's search.
fn task_base(t: &PlanTables, tf: &[u64], ws: &[u64], fs: &[u64], i: usize) -> u64
    requires { TasksOf t.now tf.now × BlockingsOf t.now tf.now × WaitsOf t.now ws.now fs.now × (i < t.now.plan.tasks) }
    ensures { result ≡ lengths (task_row t.now.tasks.now i) + local_blocking (system_of t.now) (task_row t.now.tasks.now i) + remote_waits (system_of t.now) (task_row t.now.tasks.now i) }
{
    tf[i * 5 + 3] + tf[i * 5 + 4] + ws[i]
}

// The answer of task i's search.
fn task_search(
    t: &PlanTables,
    tf: &[u64],
    ws: &[u64],
    fs: &[u64],
    rows: &mut [u64],
    i: usize,
) -> Answer
    requires { TasksOf t.now tf.now × BlockingsOf t.now tf.now × WaitsOf t.now ws.now fs.now × (i < t.now.plan.tasks) × (240 ≤ length rows.old) }
    ensures { result ≡ solve (task_demand (system_of t.now) (remote_waits (system_of t.now)) (task_row t.now.tasks.now i)) (lengths (task_row t.now.tasks.now i)) (task_row t.now.tasks.now i).period }
{
    let base = task_base(t, tf, ws, fs, i);
    let n = task_rows(t, tf, ws, fs, rows, i);
    let limit = t.task_cell(i, 2);
    search_least::least(base, tf[i * 5 + 3], limit, rows, n)
}

// The answer of task i.
pub fn task_answer(
    t: &PlanTables,
    tf: &[u64],
    ws: &[u64],
    fs: &[u64],
    rows: &mut [u64],
    i: usize,
) -> TaskAnswer
    requires { TasksOf t.now tf.now × BlockingsOf t.now tf.now × WaitsOf t.now ws.now fs.now × (i < t.now.plan.tasks) × (240 ≤ length rows.old) }
    ensures { result ≡ task_answer (system_of t.now) (task_row t.now.tasks.now i) }
{
    if lacks(t, ws, fs, i) {
        return TaskAnswer::NoWait;
    }
    if is_held(t, ws, fs, i) {
        return TaskAnswer::Held;
    }
    let a = task_search(t, tf, ws, fs, rows, i);
    TaskAnswer::Searched(a)
}
