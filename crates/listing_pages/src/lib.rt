// The listing's lines, from the answers of a plan and the order of its tasks into a buffer with room.
#![tactic(auto)]

ghost use Rattle.std.specs.Prelude.{◌<◌, ◌≤◌, length};
ghost use Rattle.laws.specs.Sums.{flat};
ghost use Rattle.plan_tables.specs.Layout.{vcpu_row, task_row};
ghost use Rattle.figures_cells.specs.Held.{system_of};
ghost use Rattle.listing.specs.Listing.{vcpu_line, wait_lines, task_lines, rising, listing};
ghost use Rattle.text_letters.specs.Wrote.{Wrote};
ghost use Rattle.listing_order.specs.Ordered.{Ordered};
ghost use Rattle.answers_told.specs.Lent.{VcpuAnswersOf, WaitAnswersOf, TaskAnswersOf, AnswersOf};
ghost use Rattle.listing_sizes.specs.Texts.{tasks_end, vcpus_end};
ghost use Rattle.plan.specs.Limits.{most_tasks};

use figures_cells::PlanTables;

// Writes the line of VCPU row a.
fn put_vcpu(t: &PlanTables, va: &[u64], a: usize, out: &mut [u8]) -> usize
    requires { VcpuAnswersOf t.now va.now × (a < t.now.plan.vcpus) × (length (vcpu_line (system_of t.now) (vcpu_row t.now.vcpus.now a)) ≤ length out.old) }
    ensures { Wrote (vcpu_line (system_of t.now) (vcpu_row t.now.vcpus.now a)) out.old out.new result }
{
    let v = t.vcpu_cell(a, 0);
    let x = answers_told::answer_at(va, a);
    listing_lines::vcpu_line(out, v, x)
}

// Writes the lines of the VCPUs.
fn put_vcpus(t: &PlanTables, va: &[u64], out: &mut [u8]) -> usize
    requires { VcpuAnswersOf t.now va.now × (length (flat (vcpu_line (system_of t.now)) (system_of t.now).vcpus) ≤ length out.old) }
    ensures { Wrote (flat (vcpu_line (system_of t.now)) (system_of t.now).vcpus) out.old out.new result }
{
    let n = t.plan.vcpus;
    let mut at = 0;
    for a in 0..n {
        let k = put_vcpu(t, va, a, &mut out[at..]);
        at += k;
    }
    at
}

// Writes the lines of the waits of task i.
fn put_waits(t: &PlanTables, wa: &[u64], i: usize, out: &mut [u8]) -> usize
    requires { WaitAnswersOf t.now wa.now × (i < t.now.plan.tasks) × (length (wait_lines (system_of t.now) (task_row t.now.tasks.now i) 1 (task_row t.now.tasks.now i).locks) ≤ length out.old) }
    ensures { Wrote (wait_lines (system_of t.now) (task_row t.now.tasks.now i) 1 (task_row t.now.tasks.now i).locks) out.old out.new result }
{
    let n = t.lock_count(i);
    let mut at = 0;
    for j in 0..n {
        let k = listing_waits::put_wait(t, wa, i, j, &mut out[at..]);
        at += k;
    }
    at
}

// Writes the lines of task i: each task after its waits.
fn put_task(t: &PlanTables, wa: &[u64], ta: &[u64], i: usize, out: &mut [u8]) -> usize
    requires { WaitAnswersOf t.now wa.now × TaskAnswersOf t.now ta.now × (i < t.now.plan.tasks) × (length (task_lines (system_of t.now) (task_row t.now.tasks.now i)) ≤ length out.old) }
    ensures { Wrote (task_lines (system_of t.now) (task_row t.now.tasks.now i)) out.old out.new result }
{
    let v = t.task_cell(i, 0);
    let n = t.task_cell(i, 1);
    let a = answers_told::task_answer_at(ta, i);
    let k = put_waits(t, wa, i, out);
    k + listing_lines::task_line(&mut out[k..], v, n, a)
}

// Writes the lines of the tasks, (v, n) rising.
fn put_tasks(
    t: &PlanTables,
    wa: &[u64],
    ta: &[u64],
    order: &[u64],
    n: usize,
    out: &mut [u8],
) -> usize
    requires { WaitAnswersOf t.now wa.now × TaskAnswersOf t.now ta.now × Ordered (system_of t.now) t.now.tasks.now order.now t.now.plan.tasks n × (most_tasks ≤ length order.now) × (length (flat (task_lines (system_of t.now)) (rising (system_of t.now))) ≤ length out.old) }
    ensures { Wrote (flat (task_lines (system_of t.now)) (rising (system_of t.now))) out.old out.new result }
{
    let mut at = 0;
    for task in &order[..n] {
        let k = put_task(t, wa, ta, *task as usize, &mut out[at..]);
        at += k;
    }
    at
}

// Writes the listing from its first task on.
fn put_tail(
    t: &PlanTables,
    va: &[u64],
    wa: &[u64],
    ta: &[u64],
    order: &[u64],
    n: usize,
    out: &mut [u8],
) -> usize
    requires { AnswersOf t.now va.now wa.now ta.now × Ordered (system_of t.now) t.now.tasks.now order.now t.now.plan.tasks n × (most_tasks ≤ length order.now) × (length (tasks_end (system_of t.now)) ≤ length out.old) }
    ensures { Wrote (tasks_end (system_of t.now)) out.old out.new result }
{
    let fits = answers_told::all_fit(t, va, ta);
    let k = put_tasks(t, wa, ta, order, n, out);
    k + listing_lines::all_line(&mut out[k..], fits)
}

// Writes the listing from its first VCPU on.
fn put_body(
    t: &PlanTables,
    va: &[u64],
    wa: &[u64],
    ta: &[u64],
    order: &[u64],
    n: usize,
    out: &mut [u8],
) -> usize
    requires { AnswersOf t.now va.now wa.now ta.now × Ordered (system_of t.now) t.now.tasks.now order.now t.now.plan.tasks n × (most_tasks ≤ length order.now) × (length (vcpus_end (system_of t.now)) ≤ length out.old) }
    ensures { Wrote (vcpus_end (system_of t.now)) out.old out.new result }
{
    let k = put_vcpus(t, va, out);
    k + put_tail(t, va, wa, ta, order, n, &mut out[k..])
}

// Writes the listing.
pub fn put_listing(
    t: &PlanTables,
    va: &[u64],
    wa: &[u64],
    ta: &[u64],
    order: &[u64],
    n: usize,
    out: &mut [u8],
) -> usize
    requires { AnswersOf t.now va.now wa.now ta.now × Ordered (system_of t.now) t.now.tasks.now order.now t.now.plan.tasks n × (most_tasks ≤ length order.now) × (length (listing (system_of t.now)) ≤ length out.old) }
    ensures { Wrote (listing (system_of t.now)) out.old out.new result }
{
    let k = listing_lines::head_line(out);
    k + put_body(t, va, wa, ta, order, n, &mut out[k..])
}
