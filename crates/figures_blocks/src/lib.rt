// The longest global section by which one task blocks another, of a plan in lent tables whose figures stand in a lent slice (specs/Stored of `figures_slices`).
#![tactic(auto)]

ghost use Rattle.std.specs.Prelude.{◌<◌};
ghost use Rattle.laws.specs.Choice.{when};
ghost use Rattle.laws.specs.Rows.{Is};
ghost use Rattle.plan_tables.specs.Layout.{task_row};
ghost use Rattle.figures_cells.specs.Held.{system_of};
ghost use Rattle.figures.specs.Figures.{lower_task, longest_global};
ghost use Rattle.figures_slices.specs.Lent.{TasksOf};

use figures_cells::PlanTables;

// The longest global section of task h, as stored.
pub fn longest_at(t: &PlanTables, tf: &[u64], h: usize) -> u64
    requires { TasksOf t.now tf.now × (h < t.now.plan.tasks) }
    ensures { Is result (longest_global (system_of t.now) (task_row t.now.tasks.now h)) 1000000 }
{
    tf[h * 5]
}

// The longest global section by which task h blocks task i.
pub fn blocks_global(t: &PlanTables, tf: &[u64], i: usize, h: usize) -> u64
    requires { TasksOf t.now tf.now × (i < t.now.plan.tasks) × (h < t.now.plan.tasks) }
    ensures { Is result (when (lower_task (task_row t.now.tasks.now i) (task_row t.now.tasks.now h)) (longest_global (system_of t.now) (task_row t.now.tasks.now h))) 1000000 }
{
    if t.is_lower(i, h) {
        longest_at(t, tf, h)
    } else {
        0
    }
}
