// Rows of a plan in lent tables, tasks found by their names or set against each other; the ght of a VCPU, and the overrun that it gives.
#![tactic(auto)]

ghost use Rattle.std.specs.Prelude.{◌≡◌, true, ◌<◌};
ghost use Rattle.laws.specs.Rows.{rows, Is};
ghost use Rattle.plan.specs.Lookup.{has_vcpu};
ghost use Rattle.plan_tables.specs.Layout.{vcpu_row, task_row};
ghost use Rattle.figures_cells.specs.Held.{system_of};
ghost use Rattle.figures.specs.Figures.{vcpu_at, ght, higher_task, overrun_by};
ghost use Rattle.figures_found.specs.First.{TaskFirst};

use figures_cells::PlanTables;
use plan::OverrunChoice;

// The row of VCPU v, which the plan has.
pub fn vcpu_of(t: &PlanTables, v: u64) -> usize
    requires { has_vcpu (rows t.now.plan.vcpus (vcpu_row t.now.vcpus.now)) v ≡ true }
    ensures { (result < t.now.plan.vcpus) × (vcpu_at (system_of t.now) v ≡ vcpu_row t.now.vcpus.now result) }
{
    figures_found::vcpu_row(t, v)
}

// The first row of task (v, n), or at least the number of rows.
pub fn task_row(t: &PlanTables, v: u64, n: u64) -> usize
    ensures { TaskFirst t.now.plan t.now.tasks.now v n result }
{
    let e = t.plan.tasks;
    for a in 0..e {
        if t.row_task(a, v, n) {
            return a;
        }
    }
    e
}

// Is task h a higher task of task i's VCPU?
pub fn is_higher(t: &PlanTables, i: usize, h: usize) -> bool
    requires { (i < t.now.plan.tasks) × (h < t.now.plan.tasks) }
    ensures { result ≡ higher_task (task_row t.now.tasks.now i) (task_row t.now.tasks.now h) }
{
    let same = t.task_cell(h, 0) == t.task_cell(i, 0);
    same & (t.task_cell(i, 1) < t.task_cell(h, 1))
}

// The ght of VCPU v.
pub fn ght_of(t: &PlanTables, v: u64) -> u64
    ensures { Is result (ght (system_of t.now) v) 64000000 }
{
    let n = t.plan.tasks;
    let mut s: u64 = 0;
    for h in 0..n {
        let x = figures_found::ght_at(t, v, h);
        s = s + x;
    }
    s
}

// The overrun of a VCPU with this ght.
pub fn overrun_by(overrun: OverrunChoice, g: u64) -> u64
    ensures { Is result (overrun_by overrun g) g }
{
    match overrun {
        OverrunChoice::WithOverrun => g,
        OverrunChoice::WithoutOverrun => 0,
    }
}
