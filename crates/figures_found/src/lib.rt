// Rows of a plan in lent tables, VCPUs found by their names or set against each other; what one task adds to a ght.
#![tactic(auto)]

ghost use Rattle.std.specs.Prelude.{◌≡◌, ◌<◌, eqb};
ghost use Rattle.laws.specs.Choice.{when};
ghost use Rattle.laws.specs.Rows.{Is};
ghost use Rattle.plan_tables.specs.Layout.{vcpu_row, task_row};
ghost use Rattle.figures_cells.specs.Held.{system_of};
ghost use Rattle.figures.specs.Figures.{longest_global, higher_on};
ghost use Rattle.figures_found.specs.First.{VcpuFirst};

use figures_cells::PlanTables;

// The first row of VCPU v, or at least the number of rows.
pub fn vcpu_row(t: &PlanTables, v: u64) -> usize
    ensures { VcpuFirst t.now.plan t.now.vcpus.now v result }
{
    let n = t.plan.vcpus;
    for a in 0..n {
        let x = t.vcpu_cell(a, 0);
        if x == v {
            return a;
        }
    }
    n
}

// Is VCPU b a higher VCPU on the core of VCPU a?
pub fn is_higher_on(t: &PlanTables, a: usize, b: usize) -> bool
    requires { (a < t.now.plan.vcpus) × (b < t.now.plan.vcpus) }
    ensures { result ≡ higher_on (vcpu_row t.now.vcpus.now a) (vcpu_row t.now.vcpus.now b) }
{
    let higher = t.vcpu_cell(a, 0) < t.vcpu_cell(b, 0);
    higher & (t.vcpu_cell(b, 2) == t.vcpu_cell(a, 2))
}

// What task h adds to the ght of VCPU v.
pub fn ght_at(t: &PlanTables, v: u64, h: usize) -> u64
    requires { h < t.now.plan.tasks }
    ensures { Is result (when (eqb (task_row t.now.tasks.now h).v v) (longest_global (system_of t.now) (task_row t.now.tasks.now h))) 1000000 }
{
    if t.task_cell(h, 0) == v {
        figures_sections::longest_global(t, h)
    } else {
        0
    }
}
