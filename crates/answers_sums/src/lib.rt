// The remote waits of each task, added up from a plan's stored answers, and whether one of them is late.
#![tactic(auto)]

ghost use Rattle.std.specs.Prelude.{◌≡◌, ◌&&◌, ◌*◌, ◌<◌, ◌≤◌, length};
ghost use Rattle.laws.specs.Choice.{when};
ghost use Rattle.laws.specs.Rows.{Is};
ghost use Rattle.plan_tables.specs.Layout.{cell, lock_row, task_row, task_width};
ghost use Rattle.figures_cells.specs.Held.{system_of};
ghost use Rattle.figures.specs.Answers.{wait_answer, ticks_of, is_late, remote_waits, lacks_wait};
ghost use Rattle.figures.specs.Figures.{is_section};
ghost use Rattle.figures_slices.specs.Stored.{ValuesAt};
ghost use Rattle.figures_slices.specs.Filled.{Places};
ghost use Rattle.plan.specs.Limits.{most_tasks};

use figures_cells::PlanTables;

// The remote wait of task i at its lock j, 0 where it is late or the lock is no global section.
fn wait_ticks(t: &PlanTables, wa: &[u64], i: usize, j: usize) -> u64
    requires { Places (system_of t.now) t.now.tasks.now (t.now.plan.tasks * 8) wa.now × (i < t.now.plan.tasks) × (j < 8) × (j < cell t.now.tasks.now task_width i 4) }
    ensures { Is result (when (is_section (system_of t.now) (lock_row t.now.tasks.now i j)) (ticks_of (wait_answer (system_of t.now) (task_row t.now.tasks.now i) (lock_row t.now.tasks.now i j)))) 1000000 }
{
    wa[(i * 8 + j) * 3 + 1]
}

// The remote waits of task i.
fn wait_sum(t: &PlanTables, wa: &[u64], i: usize) -> u64
    requires { Places (system_of t.now) t.now.tasks.now (t.now.plan.tasks * 8) wa.now × (i < t.now.plan.tasks) }
    ensures { Is result (remote_waits (system_of t.now) (task_row t.now.tasks.now i)) 8000000 }
{
    let n = t.lock_count(i);
    let mut s: u64 = 0;
    for j in 0..n {
        let x = wait_ticks(t, wa, i, j);
        s = s + x;
    }
    s
}

// Is lock j of task i a global section whose wait has no answer?
fn wait_late(t: &PlanTables, wa: &[u64], i: usize, j: usize) -> bool
    requires { Places (system_of t.now) t.now.tasks.now (t.now.plan.tasks * 8) wa.now × (i < t.now.plan.tasks) × (j < 8) × (j < cell t.now.tasks.now task_width i 4) }
    ensures { result ≡ (is_section (system_of t.now) (lock_row t.now.tasks.now i j) && is_late (wait_answer (system_of t.now) (task_row t.now.tasks.now i) (lock_row t.now.tasks.now i j))) }
{
    let m = t.lock_cell(i, j, 0);
    t.is_global(m) & (wa[(i * 8 + j) * 3] == 0)
}

// Does task i lack a wait?
fn is_lacking(t: &PlanTables, wa: &[u64], i: usize) -> bool
    requires { Places (system_of t.now) t.now.tasks.now (t.now.plan.tasks * 8) wa.now × (i < t.now.plan.tasks) }
    ensures { result ≡ lacks_wait (system_of t.now) (task_row t.now.tasks.now i) }
{
    let n = t.lock_count(i);
    for j in 0..n {
        if wait_late(t, wa, i, j) {
            return true;
        }
    }
    false
}

// 1 where b holds, else 0.
fn flag_of(b: bool) -> u64
    ensures { Is result (when b 1) 1 }
{
    if b { 1 } else { 0 }
}

// Stores the remote waits of each task.
pub fn fill_sums(t: &PlanTables, wa: &[u64], ws: &mut [u64])
    requires { Places (system_of t.now) t.now.tasks.now (t.now.plan.tasks * 8) wa.now × (most_tasks ≤ length ws.old) }
    ensures { ValuesAt (λ i. i) 8000000 t.now.plan.tasks (λ i. remote_waits (system_of t.now) (task_row t.now.tasks.now i)) ws.new }
{
    let n = t.plan.tasks;
    for i in 0..n {
        let x = wait_sum(t, wa, i);
        ws[i] = x;
    }
}

// Stores which tasks lack a wait.
pub fn fill_flags(t: &PlanTables, wa: &[u64], fs: &mut [u64])
    requires { Places (system_of t.now) t.now.tasks.now (t.now.plan.tasks * 8) wa.now × (most_tasks ≤ length fs.old) }
    ensures { ValuesAt (λ i. i) 1 t.now.plan.tasks (λ i. when (lacks_wait (system_of t.now) (task_row t.now.tasks.now i)) 1) fs.new }
{
    let n = t.plan.tasks;
    for i in 0..n {
        let x = flag_of(is_lacking(t, wa, i));
        fs[i] = x;
    }
}
