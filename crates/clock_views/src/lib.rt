// The times of a plan: what the clock asks of it beside the view of the board, in one list of numbers. What stands where is said in specs/TimesOf of `clock_cells`.
#![tactic(auto)]

ghost use Rattle.std.specs.Prelude.{◌≡◌, ◌+◌, ◌<◌, length, get_or};
ghost use Rattle.figures_cells.specs.Held.{system_of};
ghost use Rattle.clock_cells.specs.TimesOf.{times_of};
ghost use Rattle.clock_cells.specs.TaskRows.{Rowed};

use figures_cells::PlanTables;

// Writes the task row of each seat.
fn fill_rows(t: &PlanTables, at: &mut [usize])
    requires { length at.old ≡ 128 }
    ensures { Rowed t.now.plan t.now.tasks.now at.new }
{
    for i in 0..128 {
        let k = i as u64;
        let a = figures_named::task_row(t, k / 8 + 1, k % 8 + 1);
        at[i] = a;
    }
}

// Number c of those by seat and lock.
fn lock_time(t: &PlanTables, at: &[usize], c: usize) -> u64
    requires { Rowed t.now.plan t.now.tasks.now at.now × (c < 3072) }
    ensures { result ≡ get_or (times_of (system_of t.now)) (288 + c) 0 }
{
    let a = at[c % 1024 / 8];
    let j = c % 8 + 1;
    if c < 1024 {
        return clock_cells::begin_of(t, a, j);
    }
    if c < 2048 {
        return clock_cells::end_of(t, a, j);
    }
    clock_cells::mutex_of(t, a, j)
}

// Number k of the times.
fn times_cell(t: &PlanTables, at: &[usize], k: usize) -> u64
    requires { Rowed t.now.plan t.now.tasks.now at.now × (k < 3360) }
    ensures { result ≡ get_or (times_of (system_of t.now)) k 0 }
{
    if k < 16 {
        return clock_cells::core_of(t, k as u64 + 1);
    }
    if k < 32 {
        return clock_cells::refill_of(t, k as u64 - 15);
    }
    if k < 160 {
        let a = at[k - 32];
        return clock_cells::period_of(t, a);
    }
    if k < 288 {
        let a = at[k - 160];
        return clock_cells::lengths_of(t, a);
    }
    lock_time(t, at, k - 288)
}

// Writes every number of the times.
fn fill_cells(t: &PlanTables, at: &[usize], times: &mut [u64])
    requires { Rowed t.now.plan t.now.tasks.now at.now × (length times.old ≡ 3360) }
    ensures { times.new ≡ times_of (system_of t.now) }
{
    for k in 0..3360 {
        let x = times_cell(t, at, k);
        times[k] = x;
    }
}

// Writes the times of the plan in the tables.
pub fn fill_times(t: &PlanTables, times: &mut [u64])
    requires { length times.old ≡ 3360 }
    ensures { times.new ≡ times_of (system_of t.now) }
{
    let mut at = [0usize; 128];
    fill_rows(t, &mut at);
    fill_cells(t, &at, times);
}
