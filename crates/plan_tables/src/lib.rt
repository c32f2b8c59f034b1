// The tables: how lent rows of numbers hold a plan. specs/Layout says where each number stands.
#![tactic(auto)]

ghost use Rattle.std.specs.Prelude.{◌≡◌, ◌≤◌, get_or};
ghost use Rattle.laws.specs.Rows.{Is};
ghost use Rattle.plan_tables.specs.Layout.{task_width};
ghost use Rattle.plan_tables.specs.Given.{roomy_by};
ghost use Rattle.plan_tables.specs.RowPlaces as places;

use plan::{MAX_GUEST, MAX_LOCKS, MAX_M, OverrunChoice, Policy};

// The numbers in a row of each table (specs/Layout).
pub const VCPU_WIDTH: usize = 5;

pub const MUTEX_WIDTH: usize = 2;

pub const OPEN_WIDTH: usize = 2;

pub const LOCK_WIDTH: usize = 3;

// Where the locks of a task begin.
pub const FIRST_LOCK: usize = 5;

// Five numbers, and eight locks.
pub const TASK_WIDTH: usize = FIRST_LOCK + MAX_LOCKS as usize * LOCK_WIDTH;

// No table of a plan has more rows: openings, a pair of mutex and guest each.
pub const MOST: usize = MAX_M as usize * MAX_GUEST as usize;

// The plan record: the policy, the overrun choice, and how many rows of each table are the plan's.
#[derive(Clone, Copy)]
pub struct PlanRecord {
    pub policy: Policy,
    pub overrun: OverrunChoice,
    pub vcpus: usize,
    pub mutexes: usize,
    pub opens: usize,
    pub tasks: usize,
}

// Cell k of a table, 0 beyond its end.
pub fn at(t: &[u64], k: usize) -> u64
    ensures { result ≡ get_or t.now k 0 }
{
    t.get(k).copied().unwrap_or(0)
}

// Have tables of these lengths room for as many rows as a record counts?
pub fn roomy(r: PlanRecord, v: usize, m: usize, o: usize, k: usize) -> bool
    ensures { result ≡ roomy_by r v m o k }
{
    (r.vcpus <= v / VCPU_WIDTH)
        & ((r.mutexes <= m / MUTEX_WIDTH)
            & ((r.opens <= o / OPEN_WIDTH) & (r.tasks <= k / TASK_WIDTH)))
}

// Where row i of a table begins whose rows have w numbers.
pub fn place(i: usize, w: usize) -> usize
    requires { w ≤ task_width }
    ensures { Is result (places.place i w) 3712 }
{
    if i < MOST { i * w } else { 0 }
}

// Where a run stands in a task's row after n locks.
pub fn run_place(n: usize) -> usize
    ensures { Is result (places.run_place n) 3716 }
{
    if n == 0 { 3 } else { place(n, LOCK_WIDTH) + 4 }
}
