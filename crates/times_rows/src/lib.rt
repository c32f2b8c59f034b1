// Rows of the searches of VCPUs: which VCPUs are lower on a core, and the row of a higher one. What the rows are stands in specs/Costs of `figures_slices`.
#![tactic(auto)]

ghost use Rattle.std.specs.Prelude.{◌≡◌, ◌+◌, ◌-◌, ◌*◌, ◌<◌, ◌≤◌, length};
ghost use Rattle.laws.specs.Choice.{when};
ghost use Rattle.search.specs.Row.{pushed};
ghost use Rattle.plan_tables.specs.Layout.{vcpu_row};
ghost use Rattle.figures_cells.specs.Held.{system_of};
ghost use Rattle.figures.specs.Figures.{lower_on};
ghost use Rattle.figures_slices.specs.Lent.{VcpusOf};
ghost use Rattle.figures_slices.specs.Costs.{is_deferrable, higher_row};

use figures_cells::PlanTables;

// Is VCPU b a lower VCPU on the core of VCPU a?
pub fn is_lower_on(t: &PlanTables, a: usize, b: usize) -> bool
    requires { (a < t.now.plan.vcpus) × (b < t.now.plan.vcpus) }
    ensures { result ≡ lower_on (vcpu_row t.now.vcpus.now a) (vcpu_row t.now.vcpus.now b) }
{
    let lower = t.vcpu_cell(b, 0) < t.vcpu_cell(a, 0);
    lower & (t.vcpu_cell(b, 2) == t.vcpu_cell(a, 2))
}

// The jitter of a VCPU: its gap under D.
fn jitter_of(d: bool, budget: u64, period: u64) -> u64
    requires { budget ≤ period }
    ensures { result ≡ when d (period - budget) }
{
    if d { period - budget } else { 0 }
}

// Writes row n: VCPU b, a higher one.
pub fn push_vcpu(t: &PlanTables, vf: &[u64], rows: &mut [u64], d: bool, b: usize, n: usize)
    requires { VcpusOf t.now vf.now × (d ≡ is_deferrable t.now.plan.policy) × (b < t.now.plan.vcpus) × (n * 3 + 3 ≤ length rows.old) }
    ensures { rows.new ≡ pushed rows.old n (higher_row (system_of t.now) (vcpu_row t.now.vcpus.now b)) }
{
    let budget = t.vcpu_cell(b, 3);
    let period = t.vcpu_cell(b, 4);
    search_rows::push_row(rows, n, jitter_of(d, budget, period), period, vf[b * 3 + 1]);
}
