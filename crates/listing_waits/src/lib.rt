// The line of a wait, from a plan in lent tables and its answers in lent slices.
#![tactic(auto)]

ghost use Rattle.std.specs.Prelude.{◌<◌, ◌≤◌, length};
ghost use Rattle.plan_tables.specs.Layout.{cell, lock_row, task_row, task_width};
ghost use Rattle.figures_cells.specs.Held.{system_of};
ghost use Rattle.text_letters.specs.Wrote.{Wrote};
ghost use Rattle.answers_told.specs.Lent.{WaitAnswersOf};
ghost use Rattle.listing_sizes.specs.Texts.{place_text};

use figures_cells::PlanTables;

// Writes the line of place j of task i, nothing where its lock is local.
pub fn put_wait(t: &PlanTables, wa: &[u64], i: usize, j: usize, out: &mut [u8]) -> usize
    requires { WaitAnswersOf t.now wa.now × (i < t.now.plan.tasks) × (j < 8) × (j < cell t.now.tasks.now task_width i 4) × (length (place_text (system_of t.now) (task_row t.now.tasks.now i) (lock_row t.now.tasks.now i) j) ≤ length out.old) }
    ensures { Wrote (place_text (system_of t.now) (task_row t.now.tasks.now i) (lock_row t.now.tasks.now i) j) out.old out.new result }
{
    if !listing_sizes::is_wait(t, i, j) {
        return 0;
    }
    let v = t.task_cell(i, 0);
    let n = t.task_cell(i, 1);
    let x = answers_told::answer_at(wa, i * 8 + j);
    listing_lines::wait_line(out, v, n, (j + 1) as u64, x)
}
