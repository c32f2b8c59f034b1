// The leftmost field of an item whose number is out of its range. What it means stands in specs/Fields of `plan`.
#![tactic(auto)]

ghost use Rattle.std.specs.Prelude.{◌≡◌, [], ◌∷◌, cond};
ghost use Rattle.plan.specs.Rules as rules;
ghost use Rattle.plan.specs.declared.Kind.TheVariants.{VcpuLine, TaskLine};
ghost use Rattle.plan.specs.Line.{shape, nums_of};
ghost use Rattle.plan.specs.Fields as fields;

use plan::{Kind, MAX_CORE, MAX_GUEST, MAX_LENGTH, MAX_M, MAX_N, MAX_PERIOD, MAX_V, within};

// Field k where its test does not hold, else what the fields right of it say.
pub fn out(ok: bool, k: u64, rest: u64) -> u64
    ensures { result ≡ cond ok rest k }
{
    if ok { rest } else { k }
}

// Two numbers from 1 on, of which the second stands in field k.
fn pair_out(x: u64, hi: u64, y: u64, top: u64, k: u64) -> u64
    ensures { result ≡ cond (rules.within x 1 hi) (cond (rules.within y 1 top) 0 k) 2 }
{
    let second = out(within(y, 1, top), k, 0);
    out(within(x, 1, hi), 2, second)
}

// A line `task`.
fn task_out(v: u64, n: u64, period: u64) -> u64
    ensures { result ≡ fields.first_out 1 (shape TaskLine) (fields.ranges TaskLine (v ∷ n ∷ period ∷ [])) }
{
    let third = out(within(period, 1, MAX_PERIOD), 4, 0);
    let second = out(within(n, 1, MAX_N), 3, third);
    out(within(v, 1, MAX_V), 2, second)
}

// A line `vcpu`: a budget is 1 to its period as that is written.
fn vcpu_out(v: u64, guest: u64, core: u64, budget: u64, period: u64) -> u64
    ensures { result ≡ fields.first_out 1 (shape VcpuLine) (fields.ranges VcpuLine (v ∷ guest ∷ core ∷ budget ∷ period ∷ [])) }
{
    let fifth = out(within(period, 1, MAX_PERIOD), 6, 0);
    let fourth = out(within(budget, 1, period), 5, fifth);
    let third = out(within(core, 0, MAX_CORE), 4, fourth);
    let second = out(within(guest, 1, MAX_GUEST), 3, third);
    out(within(v, 1, MAX_V), 2, second)
}

// Range: the leftmost field whose number is out of its range.
#[tactic(auto, unfolding(plan::specs::Fields::first_out, plan::specs::Fields::ranges, plan::specs::Line::nums_of, plan::specs::Line::size, plan::specs::Line::shape))]
pub fn range_of(kind: Kind, a: u64, b: u64, c: u64, d: u64, e: u64) -> u64
    ensures { result ≡ fields.first_out 1 (shape kind) (fields.ranges kind (nums_of kind a b c d e)) }
{
    match kind {
        Kind::VcpuLine => vcpu_out(a, b, c, d, e),
        Kind::MutexG => out(within(a, 1, MAX_M), 2, 0),
        Kind::MutexL => pair_out(a, MAX_M, b, MAX_V, 4),
        Kind::OpenLine => pair_out(a, MAX_M, b, MAX_GUEST, 3),
        Kind::GuestLine => out(within(a, 1, MAX_GUEST), 2, 0),
        Kind::TaskLine => task_out(a, b, c),
        Kind::RunLine => out(within(a, 0, MAX_LENGTH), 2, 0),
        Kind::LockLine => pair_out(a, MAX_M, b, MAX_LENGTH, 3),
        _ => 0,
    }
}
