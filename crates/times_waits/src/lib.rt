// The searches of waits: how long a task can wait at a lock, over rows that are written once for each search (specs/Costs of `figures_slices`).
#![tactic(auto)]

ghost use Rattle.std.specs.Prelude.{◌≡◌, true, ◌*◌, ◌<◌, ◌≤◌, ltb, length};
ghost use Rattle.laws.specs.Choice.{when};
ghost use Rattle.laws.specs.Sums.{sum, greatest};
ghost use Rattle.laws.specs.Rows.{rows as rows_of, Is};
ghost use Rattle.search.specs.Search.{solve};
ghost use Rattle.search.specs.Row.{rows_in};
ghost use Rattle.plan.specs.Lookup.{global};
ghost use Rattle.plan.specs.Limits.{most_tasks};
ghost use Rattle.plan_tables.specs.Layout.{cell, lock_row, task_row, task_width};
ghost use Rattle.figures_cells.specs.Held.{system_of};
ghost use Rattle.figures.specs.Figures.{wait_start, wait_demand};
ghost use Rattle.figures_slices.specs.Stored.{max_response};
ghost use Rattle.figures_slices.specs.Lent.{ResponsesOf};
ghost use Rattle.figures_slices.specs.Costs.{cost_rows, response_on, wait_cost};

use figures_cells::PlanTables;
use search::Answer;

// The response of lock j of task i where its mutex is m, a global one, else 0.
fn section_on(t: &PlanTables, rf: &[u64], i: usize, j: usize, m: u64) -> u64
    requires { ResponsesOf t.now rf.now × (t.now.plan.tasks * 8 ≤ length rf.now) × (i < t.now.plan.tasks) × (j < 8) × (j < cell t.now.tasks.now task_width i 4) × (global (system_of t.now).mutexes m ≡ true) }
    ensures { Is result (response_on (system_of t.now) m (task_row t.now.tasks.now i) (lock_row t.now.tasks.now i j)) max_response }
{
    if t.lock_cell(i, j, 0) == m {
        rf[i * 8 + j]
    } else {
        0
    }
}

// The greatest response of task i's sections on m.
fn most_on(t: &PlanTables, rf: &[u64], i: usize, m: u64) -> u64
    requires { ResponsesOf t.now rf.now × (t.now.plan.tasks * 8 ≤ length rf.now) × (i < t.now.plan.tasks) × (global (system_of t.now).mutexes m ≡ true) }
    ensures { Is result (greatest (response_on (system_of t.now) m (task_row t.now.tasks.now i)) (task_row t.now.tasks.now i).locks) max_response }
{
    let n = t.lock_count(i);
    let mut s: u64 = 0;
    for j in 0..n {
        let x = section_on(t, rf, i, j, m);
        s = plan::larger(s, x);
    }
    s
}

// The sum of the responses of task i's sections on m.
fn sum_on(t: &PlanTables, rf: &[u64], i: usize, m: u64) -> u64
    requires { ResponsesOf t.now rf.now × (t.now.plan.tasks * 8 ≤ length rf.now) × (i < t.now.plan.tasks) × (global (system_of t.now).mutexes m ≡ true) }
    ensures { Is result (sum (response_on (system_of t.now) m (task_row t.now.tasks.now i)) (task_row t.now.tasks.now i).locks) 520008712000000 }
{
    let n = t.lock_count(i);
    let mut s: u64 = 0;
    for j in 0..n {
        let x = section_on(t, rf, i, j, m);
        s = s + x;
    }
    s
}

// The greatest response of task i's sections on m where its VCPU is lower than v, else 0.
fn most_lower(t: &PlanTables, rf: &[u64], v: u64, m: u64, i: usize) -> u64
    requires { ResponsesOf t.now rf.now × (t.now.plan.tasks * 8 ≤ length rf.now) × (i < t.now.plan.tasks) × (global (system_of t.now).mutexes m ≡ true) }
    ensures { Is result (when (ltb (task_row t.now.tasks.now i).v v) (greatest (response_on (system_of t.now) m (task_row t.now.tasks.now i)) (task_row t.now.tasks.now i).locks)) max_response }
{
    if t.task_cell(i, 0) < v {
        most_on(t, rf, i, m)
    } else {
        0
    }
}

// The start of a wait of VCPU v for m.
fn wait_start(t: &PlanTables, rf: &[u64], v: u64, m: u64) -> u64
    requires { ResponsesOf t.now rf.now × (t.now.plan.tasks * 8 ≤ length rf.now) × (global (system_of t.now).mutexes m ≡ true) }
    ensures { Is result (wait_start (system_of t.now) v m) max_response }
{
    let n = t.plan.tasks;
    let mut s: u64 = 0;
    for i in 0..n {
        let x = most_lower(t, rf, v, m, i);
        s = plan::larger(s, x);
    }
    s
}

// What task i costs a wait of VCPU v for m.
fn wait_cost(t: &PlanTables, rf: &[u64], v: u64, m: u64, i: usize) -> u64
    requires { ResponsesOf t.now rf.now × (t.now.plan.tasks * 8 ≤ length rf.now) × (i < t.now.plan.tasks) × (global (system_of t.now).mutexes m ≡ true) }
    ensures { Is result (wait_cost (system_of t.now) v m (task_row t.now.tasks.now i)) 520008712000000 }
{
    if v < t.task_cell(i, 0) {
        sum_on(t, rf, i, m)
    } else {
        0
    }
}

// What all tasks cost a wait of VCPU v for m.
fn wait_costs(t: &PlanTables, rf: &[u64], v: u64, m: u64) -> u64
    requires { ResponsesOf t.now rf.now × (t.now.plan.tasks * 8 ≤ length rf.now) × (global (system_of t.now).mutexes m ≡ true) }
    ensures { Is result (sum (wait_cost (system_of t.now) v m) (rows_of t.now.plan.tasks (task_row t.now.tasks.now))) 33280557568000000 }
{
    let n = t.plan.tasks;
    let mut s: u64 = 0;
    for i in 0..n {
        let x = wait_cost(t, rf, v, m, i);
        s = s + x;
    }
    s
}

// Writes the rows of the tasks that cost a wait of VCPU v for m something, and says how many.
fn wait_rows(t: &PlanTables, rf: &[u64], rows: &mut [u64], v: u64, m: u64) -> usize
    requires { ResponsesOf t.now rf.now × (t.now.plan.tasks * 8 ≤ length rf.now) × (global (system_of t.now).mutexes m ≡ true) × (240 ≤ length rows.old) }
    ensures { (result ≤ most_tasks) × (rows_in rows.new result ≡ cost_rows (wait_cost (system_of t.now) v m) (rows_of t.now.plan.tasks (task_row t.now.tasks.now))) }
{
    let count = t.plan.tasks;
    let mut n = 0;
    for k in 0..count {
        let cost = wait_cost(t, rf, v, m, k);
        n = figures_slices::add_cost(rows, n, t.task_cell(k, 2), cost);
    }
    n
}

// The answer of a wait of VCPU v for the global mutex m, up to a limit.
pub fn wait_answer(
    t: &PlanTables,
    rf: &[u64],
    rows: &mut [u64],
    v: u64,
    m: u64,
    limit: u64,
) -> Answer
    requires { ResponsesOf t.now rf.now × (t.now.plan.tasks * 8 ≤ length rf.now) × (global (system_of t.now).mutexes m ≡ true) × (240 ≤ length rows.old) × (limit ≤ 1000000) }
    ensures { result ≡ solve (wait_demand (system_of t.now) v m) (wait_start (system_of t.now) v m) limit }
{
    let start = wait_start(t, rf, v, m);
    let costs = wait_costs(t, rf, v, m);
    let n = wait_rows(t, rf, rows, v, m);
    search_least::least(start + costs, start, limit, rows, n)
}
