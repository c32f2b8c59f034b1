// The figures of the sections of one row of a plan in lent tables: sums, counts and the longest, ceilings, and the local sections that block. They stand in crate figures, specs/Figures.
#![tactic(auto)]

ghost use Rattle.std.specs.Prelude.{◌≡◌, ◌+◌, ◌<◌};
ghost use Rattle.laws.specs.Choice.{when};
ghost use Rattle.laws.specs.Rows.{Is};
ghost use Rattle.plan_tables.specs.Layout.{lock_row, task_row};
ghost use Rattle.figures_cells.specs.Held.{system_of};
ghost use Rattle.figures.specs.Figures.{lower_task, longest_global, global_sum, global_count, lengths, locks_it, ceiling, longest_local, is_section};
ghost use Rattle.figures.specs.Parts.{counts_local, local_ticks, greatest_local};

use figures_cells::PlanTables;
use plan::larger;

// 1 where lock j of task i is a global section, else 0.
fn global_one(t: &PlanTables, i: usize, j: usize) -> u64
    requires { (i < t.now.plan.tasks) × (j < 8) }
    ensures { Is result (when (is_section (system_of t.now) (lock_row t.now.tasks.now i j)) 1) 1 }
{
    if t.is_global(t.lock_cell(i, j, 0)) {
        1
    } else {
        0
    }
}

// The ticks under lock j of task i and of the run after it.
fn lock_length(t: &PlanTables, i: usize, j: usize) -> u64
    requires { (i < t.now.plan.tasks) × (j < 8) }
    ensures { Is result ((lock_row t.now.tasks.now i j).ticks + (lock_row t.now.tasks.now i j).after) 2000000 }
{
    t.lock_cell(i, j, 1) + t.lock_cell(i, j, 2)
}

// The longest global section of task i.
pub fn longest_global(t: &PlanTables, i: usize) -> u64
    requires { i < t.now.plan.tasks }
    ensures { Is result (longest_global (system_of t.now) (task_row t.now.tasks.now i)) 1000000 }
{
    let n = t.lock_count(i);
    let mut s: u64 = 0;
    for j in 0..n {
        let x = t.global_ticks(i, j);
        s = larger(s, x);
    }
    s
}

// The sum of the global sections of task i.
pub fn global_sum(t: &PlanTables, i: usize) -> u64
    requires { i < t.now.plan.tasks }
    ensures { Is result (global_sum (system_of t.now) (task_row t.now.tasks.now i)) 8000000 }
{
    let n = t.lock_count(i);
    let mut s: u64 = 0;
    for j in 0..n {
        let x = t.global_ticks(i, j);
        s = s + x;
    }
    s
}

// The number of global sections of task i.
pub fn global_count(t: &PlanTables, i: usize) -> u64
    requires { i < t.now.plan.tasks }
    ensures { Is result (global_count (system_of t.now) (task_row t.now.tasks.now i)) 8 }
{
    let n = t.lock_count(i);
    let mut s: u64 = 0;
    for j in 0..n {
        let x = global_one(t, i, j);
        s = s + x;
    }
    s
}

// The lengths of task i.
pub fn lengths_of(t: &PlanTables, i: usize) -> u64
    requires { i < t.now.plan.tasks }
    ensures { Is result (lengths (task_row t.now.tasks.now i)) 17000000 }
{
    let n = t.lock_count(i);
    let mut s: u64 = 0;
    for j in 0..n {
        let x = lock_length(t, i, j);
        s = s + x;
    }
    t.task_cell(i, 3) + s
}

// Does task i lock m?
fn locks_it(t: &PlanTables, i: usize, m: u64) -> bool
    requires { i < t.now.plan.tasks }
    ensures { result ≡ locks_it m (task_row t.now.tasks.now i) }
{
    let n = t.lock_count(i);
    for j in 0..n {
        let x = t.lock_cell(i, j, 0);
        if x == m {
            return true;
        }
    }
    false
}

// What task i adds to the ceiling of m: its n where it locks m.
fn ceiling_at(t: &PlanTables, i: usize, m: u64) -> u64
    requires { i < t.now.plan.tasks }
    ensures { Is result (when (locks_it m (task_row t.now.tasks.now i)) (task_row t.now.tasks.now i).n) 1000000 }
{
    if locks_it(t, i, m) {
        t.task_cell(i, 1)
    } else {
        0
    }
}

// The ceiling of m.
pub fn ceiling_of(t: &PlanTables, m: u64) -> u64
    ensures { Is result (ceiling (system_of t.now) m) 1000000 }
{
    let n = t.plan.tasks;
    let mut s: u64 = 0;
    for h in 0..n {
        let x = ceiling_at(t, h, m);
        s = larger(s, x);
    }
    s
}

// Is lock j of task i a local section on a mutex whose ceiling is at least n?
fn counts_local(t: &PlanTables, i: usize, j: usize, n: u64) -> bool
    requires { (i < t.now.plan.tasks) × (j < 8) }
    ensures { result ≡ counts_local (system_of t.now) n (task_row t.now.tasks.now i).v (lock_row t.now.tasks.now i j) }
{
    let v = t.task_cell(i, 0);
    let m = t.lock_cell(i, j, 0);
    t.is_local(v, m) & (n <= ceiling_of(t, m))
}

// The ticks of lock j of task i where it is such a section, else 0.
fn local_ticks(t: &PlanTables, i: usize, j: usize, n: u64) -> u64
    requires { (i < t.now.plan.tasks) × (j < 8) }
    ensures { Is result (local_ticks (system_of t.now) n (task_row t.now.tasks.now i).v (lock_row t.now.tasks.now i j)) 1000000 }
{
    if counts_local(t, i, j, n) {
        t.lock_cell(i, j, 1)
    } else {
        0
    }
}

// The longest local section of task i on a mutex whose ceiling is at least n.
fn longest_local(t: &PlanTables, i: usize, n: u64) -> u64
    requires { i < t.now.plan.tasks }
    ensures { Is result (longest_local (system_of t.now) n (task_row t.now.tasks.now i)) 1000000 }
{
    let e = t.lock_count(i);
    let mut s: u64 = 0;
    for j in 0..e {
        let x = local_ticks(t, i, j, n);
        s = larger(s, x);
    }
    s
}

// The longest local section by which task h blocks task i.
fn blocks_local(t: &PlanTables, i: usize, h: usize) -> u64
    requires { (i < t.now.plan.tasks) × (h < t.now.plan.tasks) }
    ensures { Is result (when (lower_task (task_row t.now.tasks.now i) (task_row t.now.tasks.now h)) (longest_local (system_of t.now) (task_row t.now.tasks.now i).n (task_row t.now.tasks.now h))) 1000000 }
{
    if t.is_lower(i, h) {
        longest_local(t, h, t.task_cell(i, 1))
    } else {
        0
    }
}

// The longest local section of a lower task of task i's VCPU on a mutex whose ceiling is at least task i's n.
pub fn greatest_local(t: &PlanTables, i: usize) -> u64
    requires { i < t.now.plan.tasks }
    ensures { Is result (greatest_local (system_of t.now) (task_row t.now.tasks.now i)) 1000000 }
{
    let n = t.plan.tasks;
    let mut s: u64 = 0;
    for h in 0..n {
        let x = blocks_local(t, i, h);
        s = larger(s, x);
    }
    s
}
