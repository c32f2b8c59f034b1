// Every figure of a plan, worked out once into lent slices. Where each stands is said in specs/Stored of `figures_slices`.
#![tactic(auto)]

ghost use Rattle.std.specs.Prelude.{◌≡◌, ◌+◌, ◌*◌, ◌<◌, ◌≤◌, ◌^◌, length, set};
ghost use Rattle.laws.specs.Choice.{when};
ghost use Rattle.laws.specs.Sums.{up};
ghost use Rattle.laws.specs.Rows.{Is};
ghost use Rattle.plan_tables.specs.Layout.{vcpu_row, lock_row, task_row};
ghost use Rattle.figures_cells.specs.Held.{system_of};
ghost use Rattle.figures.specs.Parts.{lower_sum, higher_sum};
ghost use Rattle.figures.specs.Figures.{higher_task, longest_global, local_blocking, load, preemption, response_by, response};
ghost use Rattle.figures_slices.specs.Stored.{section_response, max_response, response_for};
ghost use Rattle.figures_slices.specs.Lent.{TasksOf, BlockingsOf, VcpusOf, PreemptionsOf, ResponsesOf, StoredOf};

use figures_cells::PlanTables;
use plan::{OverrunChoice, Policy};

// Writes the first four numbers of task i.
fn put_task(tf: &mut [u64], i: usize, x: u64, y: u64, z: u64, w: u64)
    requires { i * 5 + 5 ≤ length tf.old }
    ensures { tf.new ≡ set (set (set (set tf.old (i * 5) x) (i * 5 + 1) y) (i * 5 + 2) z) (i * 5 + 3) w }
{
    tf[i * 5] = x;
    tf[i * 5 + 1] = y;
    tf[i * 5 + 2] = z;
    tf[i * 5 + 3] = w;
}

// Stores the sections and the lengths of each task.
fn fill_tasks(t: &PlanTables, tf: &mut [u64])
    requires { t.now.plan.tasks * 5 ≤ length tf.old }
    ensures { TasksOf t.now tf.new }
{
    let n = t.plan.tasks;
    for i in 0..n {
        let x = figures_sections::longest_global(t, i);
        let y = figures_sections::global_sum(t, i);
        let z = figures_sections::global_count(t, i);
        let w = figures_sections::lengths_of(t, i);
        put_task(tf, i, x, y, z, w);
    }
}

// The sum of the longest global sections of lower tasks of task i's VCPU.
fn lower_sum(t: &PlanTables, tf: &[u64], i: usize) -> u64
    requires { TasksOf t.now tf.now × (i < t.now.plan.tasks) }
    ensures { Is result (lower_sum (system_of t.now) (task_row t.now.tasks.now i)) 64000000 }
{
    let n = t.plan.tasks;
    let mut s: u64 = 0;
    for h in 0..n {
        let x = figures_blocks::blocks_global(t, tf, i, h);
        s = s + x;
    }
    s
}

// The local blocking of task i.
fn local_blocking(t: &PlanTables, tf: &[u64], i: usize) -> u64
    requires { TasksOf t.now tf.now × (i < t.now.plan.tasks) }
    ensures { Is result (local_blocking (system_of t.now) (task_row t.now.tasks.now i)) 585000000 }
{
    let longest = figures_sections::greatest_local(t, i);
    let sum = lower_sum(t, tf, i);
    (longest + sum) * (tf[i * 5 + 2] + 1)
}

// Stores the local blocking of each task.
fn fill_blockings(t: &PlanTables, tf: &mut [u64])
    requires { TasksOf t.now tf.old }
    ensures { TasksOf t.now tf.new × BlockingsOf t.now tf.new }
{
    let n = t.plan.tasks;
    for i in 0..n {
        let x = local_blocking(t, tf, i);
        tf[i * 5 + 4] = x;
    }
}

// What task h adds to the load of a section of task i.
fn load_at(t: &PlanTables, tf: &[u64], i: usize, h: usize) -> u64
    requires { TasksOf t.now tf.now × (i < t.now.plan.tasks) × (h < t.now.plan.tasks) }
    ensures { Is result (when (higher_task (task_row t.now.tasks.now i) (task_row t.now.tasks.now h)) (longest_global (system_of t.now) (task_row t.now.tasks.now h))) 1000000 }
{
    if figures_named::is_higher(t, i, h) {
        figures_blocks::longest_at(t, tf, h)
    } else {
        0
    }
}

// The sum of the longest global sections of higher tasks of task i's VCPU.
fn higher_sum(t: &PlanTables, tf: &[u64], i: usize) -> u64
    requires { TasksOf t.now tf.now × (i < t.now.plan.tasks) }
    ensures { Is result (higher_sum (system_of t.now) (task_row t.now.tasks.now i)) 64000000 }
{
    let n = t.plan.tasks;
    let mut s: u64 = 0;
    for h in 0..n {
        let x = load_at(t, tf, i, h);
        s = s + x;
    }
    s
}

// t / p, rounded up.
fn up_by(t: u64, p: u64) -> u64
    requires { (0 < p) × (t + p < 2 ^ 64) }
    ensures { Is result (up t p) t }
{
    (t + (p - 1)) / p
}

// The response of a section with this load, on a VCPU with this gap, budget and preemption.
fn response_by(
    policy: Policy,
    overrun: OverrunChoice,
    gap: u64,
    budget: u64,
    load: u64,
    preemption: u64,
) -> u64
    requires { (gap ≤ 1000000) × (0 < budget) × (budget ≤ 1000000) × (load ≤ 65000000) × (preemption ≤ 1024000000) }
    ensures { Is result (response_for policy overrun gap budget load preemption) max_response }
{
    match overrun {
        OverrunChoice::WithOverrun => match policy {
            Policy::Periodic => gap + load + preemption,
            Policy::Deferrable => load + preemption,
        },
        OverrunChoice::WithoutOverrun => up_by(load, budget) * gap + load + preemption,
    }
}

// The response of a section with this load on VCPU a.
fn response_on(t: &PlanTables, vf: &[u64], a: usize, load: u64) -> u64
    requires { VcpusOf t.now vf.now × PreemptionsOf t.now vf.now × (a < t.now.plan.vcpus) × (load ≤ 65000000) }
    ensures { Is result (response_by t.now.plan.policy t.now.plan.overrun (vcpu_row t.now.vcpus.now a) load (preemption (system_of t.now) (vcpu_row t.now.vcpus.now a))) max_response }
{
    let budget = t.vcpu_cell(a, 3);
    let period = t.vcpu_cell(a, 4);
    let p = t.plan.policy;
    let o = t.plan.overrun;
    response_by(p, o, period - budget, budget, load, vf[a * 3 + 2])
}

// The response of lock j of task i.
fn response_of(t: &PlanTables, tf: &[u64], vf: &[u64], i: usize, j: usize) -> u64
    requires { TasksOf t.now tf.now × VcpusOf t.now vf.now × PreemptionsOf t.now vf.now × (i < t.now.plan.tasks) × (j < 8) }
    ensures { Is result (response (system_of t.now) (task_row t.now.tasks.now i) (lock_row t.now.tasks.now i j)) max_response }
{
    let a = figures_named::vcpu_of(t, t.task_cell(i, 0));
    let load = t.lock_cell(i, j, 1) + higher_sum(t, tf, i);
    response_on(t, vf, a, load)
}

// The response of lock j of task i where it is a global section, else 0.
fn section_response(t: &PlanTables, tf: &[u64], vf: &[u64], i: usize, j: usize) -> u64
    requires { TasksOf t.now tf.now × VcpusOf t.now vf.now × PreemptionsOf t.now vf.now × (i < t.now.plan.tasks) × (j < 8) }
    ensures { Is result (section_response (system_of t.now) t.now.tasks.now i j) max_response }
{
    let m = t.lock_cell(i, j, 0);
    if (j < t.lock_count(i)) & t.is_global(m) {
        response_of(t, tf, vf, i, j)
    } else {
        0
    }
}

// Stores the response of each section.
fn fill_responses(t: &PlanTables, tf: &[u64], vf: &[u64], rf: &mut [u64])
    requires { TasksOf t.now tf.now × VcpusOf t.now vf.now × PreemptionsOf t.now vf.now × (t.now.plan.tasks * 8 ≤ length rf.old) }
    ensures { ResponsesOf t.now rf.new }
{
    let n = t.plan.tasks * 8;
    for k in 0..n {
        let x = section_response(t, tf, vf, k / 8, k % 8);
        rf[k] = x;
    }
}

// Stores every figure of the plan in the tables.
pub fn stored(t: &PlanTables, tf: &mut [u64], vf: &mut [u64], rf: &mut [u64])
    requires { (t.now.plan.tasks * 5 ≤ length tf.old) × (48 ≤ length vf.old) × (t.now.plan.tasks * 8 ≤ length rf.old) }
    ensures { StoredOf t.now tf.new vf.new rf.new }
{
    fill_tasks(t, tf);
    fill_blockings(t, tf);
    figures_vcpus::fill_vcpus(t, vf);
    figures_vcpus::fill_preemptions(t, vf);
    fill_responses(t, tf, vf, rf);
}
