// The times of a plan, one at a time: what the clock asks of it beside the view of the board. What stands where is said in specs/TimesOf.
#![tactic(auto)]

ghost use Rattle.std.specs.Prelude.{◌≡◌, ◌+◌, ◌<◌, ◌≤◌};
ghost use Rattle.laws.specs.Rows.{rows, Is};
ghost use Rattle.laws.specs.Sums.{sum};
ghost use Rattle.plan_tables.specs.Layout.{cell, lock_row, task_width};
ghost use Rattle.figures_cells.specs.Held.{system_of};
ghost use Rattle.figures.specs.Figures.{vcpu_at, lengths};
ghost use Rattle.clock_cells.specs.TimesOf.{core_of, has_lock, begin_of, end_of, mutex_of};
ghost use Rattle.clock_cells.specs.TaskRows.{task_in};

use figures_cells::PlanTables;

// The core of VCPU v and one more, 0 where there is no such VCPU.
pub fn core_of(t: &PlanTables, v: u64) -> u64
    ensures { result ≡ core_of (system_of t.now) v }
{
    let n = t.plan.vcpus;
    let a = figures_found::vcpu_row(t, v);
    if n <= a {
        return 0;
    }
    t.vcpu_cell(a, 2) + 1
}

// The period of VCPU v, 0 where there is no such VCPU.
pub fn refill_of(t: &PlanTables, v: u64) -> u64
    ensures { result ≡ (vcpu_at (system_of t.now) v).period }
{
    let n = t.plan.vcpus;
    let a = figures_found::vcpu_row(t, v);
    if n <= a {
        return 0;
    }
    t.vcpu_cell(a, 4)
}

// The period of task row a, 0 where there is no such row.
pub fn period_of(t: &PlanTables, a: usize) -> u64
    ensures { result ≡ (task_in t.now.plan t.now.tasks.now a).period }
{
    let n = t.plan.tasks;
    if n <= a {
        return 0;
    }
    t.task_cell(a, 2)
}

// The lengths of task row a, 0 where there is no such row.
pub fn lengths_of(t: &PlanTables, a: usize) -> u64
    ensures { result ≡ lengths (task_in t.now.plan t.now.tasks.now a) }
{
    let n = t.plan.tasks;
    if n <= a {
        return 0;
    }
    figures_sections::lengths_of(t, a)
}

// Is there a task row a, and has it a lock j, from 1?
fn has_lock(t: &PlanTables, a: usize, j: usize) -> bool
    requires { 0 < j }
    ensures { result ≡ has_lock (task_in t.now.plan t.now.tasks.now a) j }
{
    let n = t.plan.tasks;
    if n <= a {
        return false;
    }
    j <= t.lock_count(a)
}

// The ticks under lock i, from 0, of task row a and of the run after it.
fn span_of(t: &PlanTables, a: usize, i: usize) -> u64
    requires { (a < t.now.plan.tasks) × (i < 8) }
    ensures { Is result ((lock_row t.now.tasks.now a i).ticks + (lock_row t.now.tasks.now a i).after) 2000000 }
{
    t.lock_cell(a, i, 1) + t.lock_cell(a, i, 2)
}

// The ticks that a job of task row a has done when e of its locks, and the runs after them, are over.
fn start_of(t: &PlanTables, a: usize, e: usize) -> u64
    requires { (a < t.now.plan.tasks) × (e < 8) }
    ensures { Is result (cell t.now.tasks.now task_width a 3 + sum (λ l. l.ticks + l.after) (rows e (lock_row t.now.tasks.now a))) 17000000 }
{
    let mut s: u64 = 0;
    for i in 0..e {
        let x = span_of(t, a, i);
        s = s + x;
    }
    t.task_cell(a, 3) + s
}

// When the section of lock j, from 1, of task row a begins, 0 where there is no such lock.
pub fn begin_of(t: &PlanTables, a: usize, j: usize) -> u64
    requires { (0 < j) × (j ≤ 8) }
    ensures { result ≡ begin_of (task_in t.now.plan t.now.tasks.now a) j }
{
    if has_lock(t, a, j) {
        start_of(t, a, j - 1)
    } else {
        0
    }
}

// When the section of lock j, from 1, of task row a ends, 0 where there is no such lock.
pub fn end_of(t: &PlanTables, a: usize, j: usize) -> u64
    requires { (0 < j) × (j ≤ 8) }
    ensures { result ≡ end_of (task_in t.now.plan t.now.tasks.now a) j }
{
    if has_lock(t, a, j) {
        start_of(t, a, j - 1) + t.lock_cell(a, j - 1, 1)
    } else {
        0
    }
}

// The mutex of lock j, from 1, of task row a, 0 where there is no such lock.
pub fn mutex_of(t: &PlanTables, a: usize, j: usize) -> u64
    requires { (0 < j) × (j ≤ 8) }
    ensures { result ≡ mutex_of (task_in t.now.plan t.now.tasks.now a) j }
{
    if has_lock(t, a, j) {
        t.lock_cell(a, j - 1, 0)
    } else {
        0
    }
}
