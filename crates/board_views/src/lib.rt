// A plan's view: what the board asks of it, in one list of numbers.
#![tactic(auto)]

ghost use Rattle.std.specs.Prelude.{◌≡◌, ◌&&◌, ◌<◌, ◌≤◌, length, take};
ghost use Rattle.laws.specs.Rows.{Is};
ghost use Rattle.plan_tables.specs.Layout.{task_row};
ghost use Rattle.figures_cells.specs.Held.{system_of};
ghost use Rattle.board_rules.specs.View.{is_v, is_n, is_m};
ghost use Rattle.board_keeps.specs.Fair.{InV, InN, InM};
ghost use Rattle.board_viewcells.specs.ViewOf.{view_of};
ghost use Rattle.board_views.specs.Sheets.{place_of, blank_at, Blank, in_turn, marked, marked_by};

use figures_cells::PlanTables;

// Number k of the view, 0 in the sheets.
fn blank_cell(t: &PlanTables, k: u64) -> u64
    ensures { result ≡ blank_at (system_of t.now) k }
{
    if k < 224 {
        board_viewcells::view_cell(t, k)
    } else {
        0
    }
}

// Writes the view with zeros for its sheets.
fn fill_blank(t: &PlanTables, view: &mut [u64])
    requires { 4320 ≤ length view.old }
    ensures { Blank (system_of t.now) view.new }
{
    for k in 0..4320 {
        view[k] = blank_cell(t, k as u64);
    }
}

// Is (v, n) a seat, and m the name of a mutex?
fn in_sheets(v: u64, n: u64, m: u64) -> bool
    ensures { result ≡ ((is_v v && is_n n) && is_m m) }
{
    (((1 <= v) & (v <= 16)) & ((1 <= n) & (n <= 8))) & ((1 <= m) & (m <= 32))
}

// The place in the view that says whether the sheet of task (v, n) locks m.
fn place_of(v: u64, n: u64, m: u64) -> u64
    requires { InV v × InN n × InM m }
    ensures { Is result (place_of v n m) 4319 }
{
    224 + (((v - 1) * 8 + n - 1) * 32 + (m - 1))
}

// Writes that the sheet of task (v, n) locks m.
fn mark(v: u64, n: u64, m: u64, view: &mut [u64])
    requires { 4320 ≤ length view.old }
    ensures { view.new ≡ marked v n m view.old }
{
    if in_sheets(v, n, m) {
        let k = place_of(v, n, m) as usize;
        view[k] = 1;
    }
}

// Writes the locks of task row a in its sheet.
fn mark_row(t: &PlanTables, a: usize, view: &mut [u64])
    requires { (a < t.now.plan.tasks) × (4320 ≤ length view.old) }
    ensures { view.new ≡ marked_by (task_row t.now.tasks.now a) view.old }
{
    let v = t.task_cell(a, 0);
    let n = t.task_cell(a, 1);
    let e = t.lock_count(a);
    for j in 0..e {
        let m = t.lock_cell(a, j, 0);
        mark(v, n, m, view);
    }
}

// Writes the locks of each task row in its sheet.
fn mark_rows(t: &PlanTables, view: &mut [u64])
    requires { 4320 ≤ length view.old }
    ensures { view.new ≡ in_turn marked_by (system_of t.now).tasks view.old }
{
    let e = t.plan.tasks;
    for a in 0..e {
        mark_row(t, a, view);
    }
}

// Writes the view of the plan in the tables.
pub fn fill_view(t: &PlanTables, view: &mut [u64])
    requires { 4320 ≤ length view.old }
    ensures { take 4320 view.new ≡ view_of (system_of t.now) }
{
    fill_blank(t, view);
    mark_rows(t, view);
}
