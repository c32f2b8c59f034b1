// The tasks of a plan in lent tables by (v, n), over the whole plan.
#![tactic(auto)]

ghost use Rattle.std.specs.Prelude.{◌+◌, ◌<◌, ◌≤◌, [], ◌∷◌, length};
ghost use Rattle.laws.specs.Sums.{only};
ghost use Rattle.plan_tables.specs.Layout.{task_row};
ghost use Rattle.figures_cells.specs.Held.{system_of};
ghost use Rattle.plan.specs.Limits.{most_tasks};
ghost use Rattle.listing_order.specs.Ordered.{Ordered};
ghost use Rattle.listing_order.specs.Pushed.{is_task, named, of_vcpu, tasks_at, Placed, Added};

use figures_cells::PlanTables;

// Writes place i after k places where it is the place of task (v, n); returns how many places there are.
fn push_one(t: &PlanTables, i: usize, v: u64, n: u64, order: &mut [u64], k: usize) -> usize
    requires { (i < t.now.plan.tasks) × Placed t.now.plan.tasks order.old k × (k + length (only (is_task v n) (task_row t.now.tasks.now i ∷ [])) ≤ most_tasks) }
    ensures { Added t.now.tasks.now t.now.plan.tasks (tasks_at t.now.tasks.now order.old k) (only (is_task v n) (task_row t.now.tasks.now i ∷ [])) order.new result }
{
    if !t.row_task(i, v, n) {
        return k;
    }
    order[k] = i as u64;
    k + 1
}

// Writes the places of the tasks (v, n).
fn push_named(t: &PlanTables, v: u64, n: u64, order: &mut [u64], k: usize) -> usize
    requires { Placed t.now.plan.tasks order.old k × (k + length (named (system_of t.now) v n) ≤ most_tasks) }
    ensures { Added t.now.tasks.now t.now.plan.tasks (tasks_at t.now.tasks.now order.old k) (named (system_of t.now) v n) order.new result }
{
    let count = t.plan.tasks;
    let mut e = k;
    for i in 0..count {
        e = push_one(t, i, v, n, order, e);
    }
    e
}

// Writes the places of the tasks of VCPU v.
fn push_vcpu(t: &PlanTables, v: u64, order: &mut [u64], k: usize) -> usize
    requires { Placed t.now.plan.tasks order.old k × (k + length (of_vcpu (system_of t.now) v) ≤ most_tasks) }
    ensures { Added t.now.tasks.now t.now.plan.tasks (tasks_at t.now.tasks.now order.old k) (of_vcpu (system_of t.now) v) order.new result }
{
    let mut e = k;
    for n in 1..=8 {
        e = push_named(t, v, n, order, e);
    }
    e
}

// Writes the places of the tasks, as they rise; returns how many there are.
pub fn rising(t: &PlanTables, order: &mut [u64]) -> usize
    requires { most_tasks ≤ length order.old }
    ensures { Ordered (system_of t.now) t.now.tasks.now order.new t.now.plan.tasks result }
{
    let mut e = 0;
    for v in 1..=16 {
        e = push_vcpu(t, v, order, e);
    }
    e
}
