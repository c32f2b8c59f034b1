// The figures of VCPUs, worked out once into lent slices. Where each stands is said in specs/Stored of `figures_slices`.
#![tactic(auto)]

ghost use Rattle.std.specs.Prelude.{◌≡◌, ◌+◌, ◌*◌, ◌<◌, ◌≤◌, length, set};
ghost use Rattle.laws.specs.Choice.{when};
ghost use Rattle.laws.specs.Rows.{Is};
ghost use Rattle.plan_tables.specs.Layout.{vcpu_row};
ghost use Rattle.figures_cells.specs.Held.{system_of};
ghost use Rattle.figures.specs.Figures.{higher_on, ght, preemption};
ghost use Rattle.figures_slices.specs.Lent.{VcpusOf, PreemptionsOf};

use figures_cells::PlanTables;

// Writes the first two numbers of VCPU a.
fn put_vcpu(vf: &mut [u64], a: usize, x: u64, y: u64)
    requires { a * 3 + 3 ≤ length vf.old }
    ensures { vf.new ≡ set (set vf.old (a * 3) x) (a * 3 + 1) y }
{
    vf[a * 3] = x;
    vf[a * 3 + 1] = y;
}

// Stores the ght of each VCPU, and its budget with overrun.
pub fn fill_vcpus(t: &PlanTables, vf: &mut [u64])
    requires { 48 ≤ length vf.old }
    ensures { VcpusOf t.now vf.new }
{
    let n = t.plan.vcpus;
    let o = t.plan.overrun;
    for a in 0..n {
        let g = figures_named::ght_of(t, t.vcpu_cell(a, 0));
        let x = t.vcpu_cell(a, 3) + figures_named::overrun_by(o, g);
        put_vcpu(vf, a, g, x);
    }
}

// What VCPU b adds to the preemption of VCPU a.
fn preempts_by(t: &PlanTables, vf: &[u64], a: usize, b: usize) -> u64
    requires { VcpusOf t.now vf.now × (a < t.now.plan.vcpus) × (b < t.now.plan.vcpus) }
    ensures { Is result (when (higher_on (vcpu_row t.now.vcpus.now a) (vcpu_row t.now.vcpus.now b)) (ght (system_of t.now) (vcpu_row t.now.vcpus.now b).v)) 64000000 }
{
    if figures_found::is_higher_on(t, a, b) {
        vf[b * 3]
    } else {
        0
    }
}

// The preemption of VCPU a.
fn preemption_of(t: &PlanTables, vf: &[u64], a: usize) -> u64
    requires { VcpusOf t.now vf.now × (a < t.now.plan.vcpus) }
    ensures { Is result (preemption (system_of t.now) (vcpu_row t.now.vcpus.now a)) 1024000000 }
{
    let n = t.plan.vcpus;
    let mut s: u64 = 0;
    for b in 0..n {
        let x = preempts_by(t, vf, a, b);
        s = s + x;
    }
    s
}

// Stores the preemption of each VCPU.
pub fn fill_preemptions(t: &PlanTables, vf: &mut [u64])
    requires { VcpusOf t.now vf.old }
    ensures { VcpusOf t.now vf.new × PreemptionsOf t.now vf.new }
{
    let n = t.plan.vcpus;
    for a in 0..n {
        let x = preemption_of(t, vf, a);
        vf[a * 3 + 2] = x;
    }
}
