// The rows of a plan's lines: their cells in lent tables. What they mean stands in specs/Fill.
#![tactic(auto)]

ghost use Rattle.std.specs.Prelude.{◌≡◌, ◌≤◌};
ghost use Rattle.laws.specs.Rows.{Is};
ghost use Rattle.plan_tables.specs.Layout.{task_width};
ghost use Rattle.read_fill.specs.Fill as fills;

use plan_tables::{MUTEX_WIDTH, OPEN_WIDTH, TASK_WIDTH, VCPU_WIDTH};
use read_tally::Tally;
use text_lines::Said;

// Writes x at k where the test holds, if there is such a place.
fn put(on: bool, d: &mut [u64], k: usize, x: u64)
    ensures { d.new ≡ fills.put_if on d.old k x }
{
    if on {
        if k < d.len() {
            d[k] = x;
        }
    }
}

// Writes two numbers from k on where the test holds.
fn put_two(on: bool, d: &mut [u64], k: usize, a: u64, b: u64)
    requires { k ≤ 10000 }
    ensures { d.new ≡ fills.put_two on d.old k a b }
{
    put(on, d, k, a);
    put(on, d, k + 1, b);
}

// What a line writes of VCPUs.
fn put_vcpu(t: Tally, s: Said, d: &mut [u64])
    ensures { d.new ≡ fills.vcpu_put t s d.old }
{
    let on = read_tally::mark_in(s) == 5;
    let k = plan_tables::place(t.vcpus, VCPU_WIDTH);
    put_two(on, d, k, s.a, s.b);
    put_two(on, d, k + 2, s.c, s.d);
    put(on, d, k + 4, s.e);
}

// What a line writes of mutexes: 0 for the owner of a global one.
fn put_mutex(t: Tally, s: Said, d: &mut [u64])
    ensures { d.new ≡ fills.mutex_put t s d.old }
{
    let on = read_tally::mark_in(s) == 6;
    put_two(on, d, plan_tables::place(t.mutexes, MUTEX_WIDTH), s.a, s.b);
}

// What a line writes of opens.
fn put_open(t: Tally, s: Said, d: &mut [u64])
    ensures { d.new ≡ fills.open_put t s d.old }
{
    let on = read_tally::mark_in(s) == 7;
    put_two(on, d, plan_tables::place(t.opens, OPEN_WIDTH), s.a, s.b);
}

// Writes n zeros from k on.
fn wipe(d: &mut [u64], k: usize, n: usize)
    requires { (k ≤ 4000) × (n ≤ task_width) }
    ensures { d.new ≡ fills.wiped d.old k n }
{
    let end = d.len().min(k + n);
    if k < end {
        d[k..end].fill(0);
    }
}

// The numbers in a task's row where the test holds.
fn width_if(on: bool) -> usize
    ensures { Is result (fills.width_if on) task_width }
{
    if on { TASK_WIDTH } else { 0 }
}

// The row of the last task.
fn last_row(t: Tally) -> usize
    ensures { Is result (fills.last_row t) 3712 }
{
    plan_tables::place(t.tasks.saturating_sub(1), TASK_WIDTH)
}

// What the first line of a task writes.
fn put_task(t: Tally, s: Said, d: &mut [u64])
    ensures { d.new ≡ fills.task_line_put t s d.old }
{
    let on = read_tally::mark_in(s) == 8;
    let k = plan_tables::place(t.tasks, TASK_WIDTH);
    wipe(d, k, width_if(on));
    put_two(on, d, k, s.a, s.b);
    put(on, d, k + 2, s.c);
}

// What a run writes.
fn put_run(t: Tally, s: Said, d: &mut [u64])
    ensures { d.new ≡ fills.run_put t s d.old }
{
    let on = read_tally::mark_in(s) == 9;
    put(on, d, last_row(t) + plan_tables::run_place(t.locks), s.a);
}

// What a lock writes: one lock more, its mutex and its ticks.
fn put_lock(t: Tally, s: Said, d: &mut [u64])
    ensures { d.new ≡ fills.lock_put t s d.old }
{
    let on = read_tally::mark_in(s) == 10;
    let k = last_row(t);
    let j = plan_tables::place(t.locks, 3);
    put(on, d, k + 4, read_tally::bump(true, t.locks) as u64);
    put_two(on, d, k + 5 + j, s.a, s.b);
}

// What a line writes of tasks.
fn put_sheet(t: Tally, s: Said, d: &mut [u64])
    ensures { d.new ≡ fills.task_put t s d.old }
{
    put_task(t, s, d);
    put_run(t, s, d);
    put_lock(t, s, d);
}

// What a line writes into the tables; what has no place in a table is dropped.
pub fn put_line(t: Tally, s: Said, vt: &mut [u64], mt: &mut [u64], ot: &mut [u64], kt: &mut [u64])
    ensures vt_after { vt.new ≡ fills.vcpu_put t s vt.old }
    ensures mt_after { mt.new ≡ fills.mutex_put t s mt.old }
    ensures ot_after { ot.new ≡ fills.open_put t s ot.old }
    ensures kt_after { kt.new ≡ fills.task_put t s kt.old }
{
    put_vcpu(t, s, vt);
    put_mutex(t, s, mt);
    put_open(t, s, ot);
    put_sheet(t, s, kt);
}
