// The plan in lent tables on a clock: how the run to a horizon ends. What it answers stands in specs/Clock of `clock_rules`: 9 first, then 3.
#![tactic(auto)]

ghost use Rattle.std.specs.Prelude.{◌≡◌, true};
ghost use Rattle.plan_tables.specs.Given.{is_given};
ghost use Rattle.plan_tables.specs.Layout.{lent};
ghost use Rattle.clock_rules.specs.Clock.{is_horizon, run_for};

use clock_rules::RunAnswer;
use plan::{Refusal, within};
use plan_tables::PlanRecord;

// Is h a horizon?
fn is_horizon(h: u64) -> bool
    ensures { result ≡ is_horizon h }
{
    within(h, 1, 1000000)
}

// The run to horizon h of tables that an accepted plan gives: 3 first.
pub fn run_to(r: PlanRecord, vt: &[u64], mt: &[u64], ot: &[u64], ts: &[u64], h: u64) -> RunAnswer
    requires { is_given r (lent vt.now mt.now ot.now ts.now) ≡ true }
    ensures { result ≡ run_for r (lent vt.now mt.now ot.now ts.now) h }
{
    if !is_horizon(h) {
        return RunAnswer::NoRun(Refusal::Range);
    }
    clock_begins::run_in(r, vt, mt, ot, ts, h)
}

// The run to horizon h of the plan in lent tables: 9 first, then 3.
pub fn run_of(r: PlanRecord, vt: &[u64], mt: &[u64], ot: &[u64], ts: &[u64], h: u64) -> RunAnswer
    ensures { result ≡ run_for r (lent vt.now mt.now ot.now ts.now) h }
{
    if !given_test::is_given(r, vt, mt, ot, ts) {
        return RunAnswer::NoRun(Refusal::Foreign);
    }
    run_to(r, vt, mt, ot, ts, h)
}
