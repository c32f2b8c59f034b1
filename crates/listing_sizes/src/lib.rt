// The size of a plan's listing.
#![tactic(auto)]

ghost use Rattle.std.specs.Prelude.{◌≡◌, ◌<◌, ◌≤◌, length};
ghost use Rattle.laws.specs.Sums.{flat};
ghost use Rattle.plan_tables.specs.Layout.{cell, vcpu_row, lock_row, task_row, task_width};
ghost use Rattle.figures_cells.specs.Held.{system_of};
ghost use Rattle.figures.specs.Figures.{is_section};
ghost use Rattle.listing.specs.Listing.{vcpu_line, wait_lines, task_lines, rising, listing};
ghost use Rattle.text_letters.specs.Wrote.{Sized};
ghost use Rattle.listing_order.specs.Ordered.{Ordered};
ghost use Rattle.answers_told.specs.Lent.{VcpuAnswersOf, WaitAnswersOf, TaskAnswersOf, AnswersOf};
ghost use Rattle.plan.specs.Limits.{most_tasks};
ghost use Rattle.listing_sizes.specs.Texts.{place_text};

use figures_cells::PlanTables;

// The size of the line of VCPU row a.
fn size_vcpu(t: &PlanTables, va: &[u64], a: usize) -> usize
    requires { VcpuAnswersOf t.now va.now × (a < t.now.plan.vcpus) }
    ensures { Sized (vcpu_line (system_of t.now) (vcpu_row t.now.vcpus.now a)) 75 result }
{
    let v = t.vcpu_cell(a, 0);
    let x = answers_told::answer_at(va, a);
    listing_lines::vcpu_size(v, x)
}

// The size of the lines of the VCPUs.
fn size_vcpus(t: &PlanTables, va: &[u64]) -> usize
    requires { VcpuAnswersOf t.now va.now }
    ensures { Sized (flat (vcpu_line (system_of t.now)) (system_of t.now).vcpus) 1200 result }
{
    let n = t.plan.vcpus;
    let mut s = 0;
    for a in 0..n {
        let x = size_vcpu(t, va, a);
        s = s + x;
    }
    s
}

// Is the lock at place j of task i a global section?
pub fn is_wait(t: &PlanTables, i: usize, j: usize) -> bool
    requires { (i < t.now.plan.tasks) × (j < 8) }
    ensures { result ≡ is_section (system_of t.now) (lock_row t.now.tasks.now i j) }
{
    let m = t.lock_cell(i, j, 0);
    t.is_global(m)
}

// The size of the line of place j of task i, 0 where its lock is local.
fn size_wait(t: &PlanTables, wa: &[u64], i: usize, j: usize) -> usize
    requires { WaitAnswersOf t.now wa.now × (i < t.now.plan.tasks) × (j < 8) × (j < cell t.now.tasks.now task_width i 4) }
    ensures { Sized (place_text (system_of t.now) (task_row t.now.tasks.now i) (lock_row t.now.tasks.now i) j) 110 result }
{
    if !is_wait(t, i, j) {
        return 0;
    }
    let v = t.task_cell(i, 0);
    let n = t.task_cell(i, 1);
    let x = answers_told::answer_at(wa, i * 8 + j);
    listing_lines::wait_size(v, n, (j + 1) as u64, x)
}

// The size of the lines of the waits of task i.
fn size_waits(t: &PlanTables, wa: &[u64], i: usize) -> usize
    requires { WaitAnswersOf t.now wa.now × (i < t.now.plan.tasks) }
    ensures { Sized (wait_lines (system_of t.now) (task_row t.now.tasks.now i) 1 (task_row t.now.tasks.now i).locks) 880 result }
{
    let n = t.lock_count(i);
    let mut s = 0;
    for j in 0..n {
        let x = size_wait(t, wa, i, j);
        s = s + x;
    }
    s
}

// The size of the lines of task i.
fn size_task(t: &PlanTables, wa: &[u64], ta: &[u64], i: usize) -> usize
    requires { WaitAnswersOf t.now wa.now × TaskAnswersOf t.now ta.now × (i < t.now.plan.tasks) }
    ensures { Sized (task_lines (system_of t.now) (task_row t.now.tasks.now i)) 976 result }
{
    let v = t.task_cell(i, 0);
    let n = t.task_cell(i, 1);
    let a = answers_told::task_answer_at(ta, i);
    let x = size_waits(t, wa, i);
    x + listing_lines::task_size(v, n, a)
}

// The size of the lines of the tasks.
fn size_tasks(t: &PlanTables, wa: &[u64], ta: &[u64], order: &[u64], n: usize) -> usize
    requires { WaitAnswersOf t.now wa.now × TaskAnswersOf t.now ta.now × Ordered (system_of t.now) t.now.tasks.now order.now t.now.plan.tasks n × (most_tasks ≤ length order.now) }
    ensures { Sized (flat (task_lines (system_of t.now)) (rising (system_of t.now))) 62464 result }
{
    let mut s = 0;
    for task in &order[..n] {
        let x = size_task(t, wa, ta, *task as usize);
        s = s + x;
    }
    s
}

// The size of the listing.
pub fn listing_size(
    t: &PlanTables,
    va: &[u64],
    wa: &[u64],
    ta: &[u64],
    order: &[u64],
    n: usize,
) -> usize
    requires { AnswersOf t.now va.now wa.now ta.now × Ordered (system_of t.now) t.now.tasks.now order.now t.now.plan.tasks n × (most_tasks ≤ length order.now) }
    ensures { Sized (listing (system_of t.now)) 63683 result }
{
    let fits = answers_told::all_fit(t, va, ta);
    let x = listing_lines::head_size();
    let y = size_vcpus(t, va);
    let z = size_tasks(t, wa, ta, order, n);
    x + (y + (z + listing_lines::all_size(fits)))
}
