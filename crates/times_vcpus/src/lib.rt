// The searches of VCPUs, over rows that are written once for each search. What the rows are stands in specs/Costs of `figures_slices`.
#![tactic(auto)]

ghost use Rattle.std.specs.Prelude.{◌≡◌, ◌&&◌, ◌++◌, map, ◌+◌, ◌<◌, ◌≤◌, eqb, length};
ghost use Rattle.laws.specs.Choice.{when};
ghost use Rattle.laws.specs.Sums.{sum, only};
ghost use Rattle.laws.specs.Rows.{rows as rows_of, Is};
ghost use Rattle.search.specs.Row.{rows_in};
ghost use Rattle.plan_tables.specs.Layout.{vcpu_row, task_row};
ghost use Rattle.figures_cells.specs.Held.{system_of};
ghost use Rattle.figures.specs.Figures.{lower_on, higher_on};
ghost use Rattle.figures.specs.Answers.{vcpu_answer};
ghost use Rattle.figures_slices.specs.Lent.{TasksOf, VcpusOf};
ghost use Rattle.figures_slices.specs.Costs.{is_deferrable, lower_times, blocking_cost, blocking_ght, cost_rows, higher_row, vcpu_base};
ghost use Rattle.plan.specs.Limits.{most_tasks};

use figures_cells::PlanTables;
use plan::Policy;
use search::Answer;

// Is the policy D?
fn is_deferrable(policy: Policy) -> bool
    ensures { result ≡ is_deferrable policy }
{
    match policy {
        Policy::Periodic => false,
        Policy::Deferrable => true,
    }
}

// 1 where VCPU b is a lower VCPU on the core of VCPU a, and is v.
fn lower_one(t: &PlanTables, a: usize, v: u64, b: usize) -> u64
    requires { (a < t.now.plan.vcpus) × (b < t.now.plan.vcpus) }
    ensures { Is result (when (lower_on (vcpu_row t.now.vcpus.now a) (vcpu_row t.now.vcpus.now b) && eqb v (vcpu_row t.now.vcpus.now b).v) 1) 1 }
{
    let lower = times_rows::is_lower_on(t, a, b);
    if lower & (v == t.vcpu_cell(b, 0)) {
        1
    } else {
        0
    }
}

// How many of the lower VCPUs on the core of VCPU a are v.
fn lower_times(t: &PlanTables, a: usize, v: u64) -> u64
    requires { a < t.now.plan.vcpus }
    ensures { Is result (lower_times (system_of t.now) (vcpu_row t.now.vcpus.now a) v) 16 }
{
    let n = t.plan.vcpus;
    let mut s: u64 = 0;
    for b in 0..n {
        let x = lower_one(t, a, v, b);
        s = s + x;
    }
    s
}

// Under D, what task k costs VCPU a.
fn blocking_cost(t: &PlanTables, tf: &[u64], d: bool, a: usize, k: usize) -> u64
    requires { TasksOf t.now tf.now × (a < t.now.plan.vcpus) × (k < t.now.plan.tasks) }
    ensures { Is result (blocking_cost d (system_of t.now) (vcpu_row t.now.vcpus.now a) (task_row t.now.tasks.now k)) 128000000 }
{
    if d {
        lower_times(t, a, t.task_cell(k, 0)) * tf[k * 5 + 1]
    } else {
        0
    }
}

// What all tasks cost VCPU a.
fn blocking_costs(t: &PlanTables, tf: &[u64], d: bool, a: usize) -> u64
    requires { TasksOf t.now tf.now × (a < t.now.plan.vcpus) }
    ensures { Is result (sum (blocking_cost d (system_of t.now) (vcpu_row t.now.vcpus.now a)) (rows_of t.now.plan.tasks (task_row t.now.tasks.now))) 8192000000 }
{
    let n = t.plan.tasks;
    let mut s: u64 = 0;
    for k in 0..n {
        let x = blocking_cost(t, tf, d, a, k);
        s = s + x;
    }
    s
}

// Under P, what VCPU b costs VCPU a.
fn blocking_ght(t: &PlanTables, vf: &[u64], d: bool, a: usize, b: usize) -> u64
    requires { VcpusOf t.now vf.now × (a < t.now.plan.vcpus) × (b < t.now.plan.vcpus) }
    ensures { Is result (blocking_ght d (system_of t.now) (vcpu_row t.now.vcpus.now a) (vcpu_row t.now.vcpus.now b)) 64000000 }
{
    let lower = times_rows::is_lower_on(t, a, b);
    if !d & lower { vf[b * 3] } else { 0 }
}

// What all VCPUs cost VCPU a.
fn blocking_ghts(t: &PlanTables, vf: &[u64], d: bool, a: usize) -> u64
    requires { VcpusOf t.now vf.now × (a < t.now.plan.vcpus) }
    ensures { Is result (sum (blocking_ght d (system_of t.now) (vcpu_row t.now.vcpus.now a)) (rows_of t.now.plan.vcpus (vcpu_row t.now.vcpus.now))) 1024000000 }
{
    let n = t.plan.vcpus;
    let mut s: u64 = 0;
    for b in 0..n {
        let x = blocking_ght(t, vf, d, a, b);
        s = s + x;
    }
    s
}

// The base of VCPU a's search.
fn vcpu_base(t: &PlanTables, tf: &[u64], vf: &[u64], d: bool, a: usize) -> u64
    requires { TasksOf t.now tf.now × VcpusOf t.now vf.now × (a < t.now.plan.vcpus) }
    ensures { result ≡ vcpu_base d (system_of t.now) (vcpu_row t.now.vcpus.now a) }
{
    let ghts = blocking_ghts(t, vf, d, a);
    let costs = blocking_costs(t, tf, d, a);
    vf[a * 3 + 1] + ghts + costs
}

// Writes the rows of the tasks that cost VCPU a something, and says how many.
fn task_rows(t: &PlanTables, tf: &[u64], rows: &mut [u64], d: bool, a: usize) -> usize
    requires { TasksOf t.now tf.now × (a < t.now.plan.vcpus) × (240 ≤ length rows.old) }
    ensures { (result ≤ most_tasks) × (rows_in rows.new result ≡ cost_rows (blocking_cost d (system_of t.now) (vcpu_row t.now.vcpus.now a)) (rows_of t.now.plan.tasks (task_row t.now.tasks.now))) }
{
    let count = t.plan.tasks;
    let mut n = 0;
    for k in 0..count {
        let cost = blocking_cost(t, tf, d, a, k);
        n = figures_slices::add_cost(rows, n, t.task_cell(k, 2), cost);
    }
    n
}

// Writes the rows of the higher VCPUs on the core of VCPU a after n rows, and says how many rows there are.
fn vcpu_rows(t: &PlanTables, vf: &[u64], rows: &mut [u64], d: bool, a: usize, n: usize) -> usize
    requires { VcpusOf t.now vf.now × (d ≡ is_deferrable t.now.plan.policy) × (a < t.now.plan.vcpus) × (n ≤ most_tasks) × (240 ≤ length rows.old) }
    ensures { (result ≤ 80) × (rows_in rows.new result ≡ rows_in rows.old n ++ map (higher_row (system_of t.now)) (only (higher_on (vcpu_row t.now.vcpus.now a)) (rows_of t.now.plan.vcpus (vcpu_row t.now.vcpus.now)))) }
{
    let count = t.plan.vcpus;
    let mut e = n;
    for b in 0..count {
        if figures_found::is_higher_on(t, a, b) {
            times_rows::push_vcpu(t, vf, rows, d, b, e);
            e += 1;
        }
    }
    e
}

// The answer of VCPU a.
pub fn vcpu_answer(t: &PlanTables, tf: &[u64], vf: &[u64], rows: &mut [u64], a: usize) -> Answer
    requires { TasksOf t.now tf.now × VcpusOf t.now vf.now × (a < t.now.plan.vcpus) × (240 ≤ length rows.old) }
    ensures { result ≡ vcpu_answer (system_of t.now) (vcpu_row t.now.vcpus.now a) }
{
    let p = t.plan.policy;
    let d = is_deferrable(p);
    let base = vcpu_base(t, tf, vf, d, a);
    let n = task_rows(t, tf, rows, d, a);
    let e = vcpu_rows(t, vf, rows, d, a, n);
    search_least::least(base, vf[a * 3 + 1], t.vcpu_cell(a, 4), rows, e)
}
