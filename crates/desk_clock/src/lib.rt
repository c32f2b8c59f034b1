// The face of the clock that strangers call: from any bytes to how the run of their plan ends.
#![tactic(auto)]

ghost use Rattle.std.specs.Prelude.{◌≡◌};
ghost use Rattle.plan_tables.specs.Layout.{lent};
ghost use Rattle.records_read.specs.Lies.{Sure};
ghost use Rattle.desk_runs.specs.Ran.{run_or, run_bytes};

use clock_rules::RunAnswer;
use plan::{Complaint, Refusal};
use plan_tables::PlanRecord;

// The run to horizon h of an accepted plan in tables; for a refused one its number.
fn run_or(
    a: Result<PlanRecord, Complaint>,
    vt: &[u64],
    mt: &[u64],
    ot: &[u64],
    ts: &[u64],
    h: u64,
) -> RunAnswer
    requires { Sure a (lent vt.now mt.now ot.now ts.now) }
    ensures { result ≡ run_or a (lent vt.now mt.now ot.now ts.now) h }
{
    match a {
        Ok(r) => clock_tables::run_to(r, vt, mt, ot, ts, h),
        Err(c) => {
            let x = c.number;
            RunAnswer::NoRun(x)
        }
    }
}

// The run to horizon h of any plan in bytes: 8 above 65,536 bytes, then the plan's own number, then 3.
pub fn run_bytes(plan: &[u8], h: u64) -> RunAnswer
    ensures { result ≡ run_bytes plan.now h }
{
    if desk_rooms::too_large(plan.len()) {
        return RunAnswer::NoRun(Refusal::Room);
    }
    let mut vt = [0u64; 80];
    let mut mt = [0u64; 64];
    let mut ot = [0u64; 256];
    let mut ts = [0u64; 1856];
    let a = records_read::read_rows(plan, &mut vt, &mut mt, &mut ot, &mut ts);
    run_or(a, &vt, &mt, &ot, &ts, h)
}
