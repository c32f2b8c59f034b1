// One number of the view: a plan's facts as the board's code looks them up. What stands where is said in specs/ViewOf.
#![tactic(auto)]

ghost use Rattle.std.specs.Prelude.{◌≡◌, ◌<◌, get_or};
ghost use Rattle.laws.specs.Range.{highest};
ghost use Rattle.plan.specs.Lookup.{local_to};
ghost use Rattle.figures_cells.specs.Held.{system_of};
ghost use Rattle.figures.specs.Figures.{vcpu_at, overrun_of};
ghost use Rattle.figures.specs.Named.{has_task};
ghost use Rattle.board_viewcells.specs.ViewOf.{bit, owner_of, view_of};

use figures_cells::PlanTables;

// The budget of VCPU v, 0 where there is no such VCPU.
fn budget_of(t: &PlanTables, v: u64) -> u64
    ensures { result ≡ (vcpu_at (system_of t.now) v).budget }
{
    let n = t.plan.vcpus;
    let a = figures_found::vcpu_row(t, v);
    if n <= a {
        return 0;
    }
    t.vcpu_cell(a, 3)
}

// The overrun of VCPU v.
fn overrun_of(t: &PlanTables, v: u64) -> u64
    ensures { result ≡ overrun_of (system_of t.now) v }
{
    let o = t.plan.overrun;
    figures_named::overrun_by(o, figures_named::ght_of(t, v))
}

// The VCPU that m is local to, 0 for none.
fn local_owner(t: &PlanTables, m: u64) -> u64
    ensures { result ≡ highest 16 (λ v. local_to (system_of t.now).mutexes v m) }
{
    for v in (1..=16).rev() {
        if t.is_local(v, m) {
            return v;
        }
    }
    0
}

// The owner of mutex m.
fn owner_of(t: &PlanTables, m: u64) -> u64
    ensures { result ≡ owner_of (system_of t.now) m }
{
    if t.is_global(m) {
        17
    } else {
        local_owner(t, m)
    }
}

// Is there a task (v, n)?
fn has_task(t: &PlanTables, v: u64, n: u64) -> bool
    ensures { result ≡ has_task (system_of t.now) v n }
{
    let e = t.plan.tasks;
    figures_named::task_row(t, v, n) < e
}

// 1 where the test holds, else 0.
fn bit_of(t: bool) -> u64
    ensures { result ≡ bit t }
{
    if t { 1 } else { 0 }
}

// Number k of the view, before the sheets.
pub fn view_cell(t: &PlanTables, k: u64) -> u64
    requires { k < 224 }
    ensures { result ≡ get_or (view_of (system_of t.now)) k 0 }
{
    if k < 16 {
        return budget_of(t, k + 1);
    }
    if k < 32 {
        return overrun_of(t, k - 15);
    }
    if k < 64 {
        return owner_of(t, k - 31);
    }
    if k < 96 {
        return figures_sections::ceiling_of(t, k - 63);
    }
    bit_of(has_task(t, (k - 96) / 8 + 1, (k - 96) % 8 + 1))
}
