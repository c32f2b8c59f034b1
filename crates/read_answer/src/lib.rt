// The answer to bytes offered as a plan: the plan record of one that is accepted, or number, line and field of a refusal. What it is for all bytes and tables stands in specs/Into; what lines judged one after the other answer and leave, in specs/Judged.
#![tactic(auto)]

ghost use Rattle.std.specs.Prelude.{◌≡◌, Err};
ghost use Rattle.plan.specs.Refusals.{complaint};
ghost use Rattle.read_answer.specs.Judged as judged;

use plan::{Complaint, Refusal};
use plan_tables::PlanRecord;
use read_tally::Tally;

// The refusal by x, of line n and its field k.
pub fn refuse(x: Refusal, n: usize, k: u64) -> Result<PlanRecord, Complaint>
    ensures { result ≡ Err (complaint x n k) }
{
    Err(Complaint {
        number: x,
        line: n,
        field: k,
    })
}

// The answer where line n is what follows the last LF.
pub fn finish(ok: bool, t: Tally, n: usize) -> Result<PlanRecord, Complaint>
    ensures { result ≡ judged.finish_by ok t n }
{
    if ok {
        Ok(read_tally::record_of(t))
    } else {
        refuse(Refusal::Shape, n, 0)
    }
}

// The answer for a plan with no fault.
fn room_or(ok: bool, r: PlanRecord) -> Result<PlanRecord, Complaint>
    ensures { result ≡ judged.room_or ok r }
{
    if ok { Ok(r) } else { Err(plan::no_room()) }
}

// The answer for tables of these lengths: room is tested for a plan with no fault only.
pub fn with_room(
    a: Result<PlanRecord, Complaint>,
    v: usize,
    m: usize,
    o: usize,
    k: usize,
) -> Result<PlanRecord, Complaint>
    ensures { result ≡ judged.with_room a v m o k }
{
    let r = a?;
    room_or(plan_tables::roomy(r, v, m, o, k), r)
}

// Is a plan accepted?
pub fn is_accepted(a: Result<PlanRecord, Complaint>) -> bool
    ensures { result ≡ judged.is_accepted a }
{
    a.is_ok()
}
