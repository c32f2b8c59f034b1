// A wait that has the answer of an earlier one: which it is, and its answer copied.
#![tactic(auto)]

ghost use Rattle.std.specs.Prelude.{◌≡◌, ◌+◌, ◌*◌, ◌<◌, ◌≤◌, length};
ghost use Rattle.search.specs.Row.{row_in, pushed};
ghost use Rattle.plan_tables.specs.Layout.{lock_row};

use figures_cells::PlanTables;

// The place of a lock of task i on the mutex of its lock j: an earlier one where there is one.
pub fn same_before(t: &PlanTables, i: usize, j: usize) -> usize
    requires { (i < t.now.plan.tasks) × (j < 8) }
    ensures { (result ≤ j) × ((lock_row t.now.tasks.now i result).m ≡ (lock_row t.now.tasks.now i j).m) }
{
    let m = t.lock_cell(i, j, 0);
    for e in 0..j {
        let x = t.lock_cell(i, e, 0);
        if x == m {
            return e;
        }
    }
    j
}

// Writes answer n: the same as answer e.
pub fn copy_answer(xs: &mut [u64], e: usize, n: usize)
    requires { (e * 3 + 3 ≤ length xs.old) × (n * 3 + 3 ≤ length xs.old) }
    ensures { xs.new ≡ pushed xs.old n (row_in xs.old e) }
{
    let x = xs[e * 3];
    let y = xs[e * 3 + 1];
    let z = xs[e * 3 + 2];
    search_rows::push_row(xs, n, x, y, z);
}
