// The reader: any bytes into lent tables by `read_plan`, whose refusals change nothing that was lent; the loop below it is `read_lines`. What `read_plan` answers stands in specs/Into of `read_answer`.
#![tactic(auto)]

ghost use Rattle.std.specs.Prelude.{◌≡◌};
ghost use Rattle.laws.specs.Bytes.{pieces};
ghost use Rattle.plan.specs.Limits.{lf};
ghost use Rattle.plan_tables.specs.Layout.{lent};
ghost use Rattle.judge_coded.specs.Coded as coded;
ghost use Rattle.read_tally.specs.Tally as tallies;
ghost use Rattle.read_fill.specs.Fill as fills;
ghost use Rattle.read_answer.specs.Into.{plan_answer, tables_after};
ghost use Rattle.read_answer.specs.Judged as judged;

use plan::Complaint;
use plan_tables::PlanRecord;

// The answer alone, for tables with room: what is written goes into tables of one number, and is dropped.
fn judge_lines(src: &[u8]) -> Result<PlanRecord, Complaint>
    ensures { result ≡ judged.judged_from coded.start tallies.blank 1 (pieces lf src.now) }
{
    let mut vt = [0u64; 1];
    let mut mt = [0u64; 1];
    let mut ot = [0u64; 1];
    let mut kt = [0u64; 1];
    read_lines::read_lines(src, &mut vt, &mut mt, &mut ot, &mut kt)
}

// Writes what the lines say into the tables where `on`; else leaves them as they were.
fn fill_if(on: bool, src: &[u8], vt: &mut [u64], mt: &mut [u64], ot: &mut [u64], kt: &mut [u64])
    ensures vt_after { vt.new ≡ judged.left_if on fills.vcpu_put src.now vt.old }
    ensures mt_after { mt.new ≡ judged.left_if on fills.mutex_put src.now mt.old }
    ensures ot_after { ot.new ≡ judged.left_if on fills.open_put src.now ot.old }
    ensures kt_after { kt.new ≡ judged.left_if on fills.task_put src.now kt.old }
{
    if on {
        let _ = read_lines::read_lines(src, vt, mt, ot, kt);
    }
}

// Reads bytes offered as a plan into lent tables. A refusal leaves the tables as they were lent.
pub fn read_plan(
    src: &[u8],
    vt: &mut [u64],
    mt: &mut [u64],
    ot: &mut [u64],
    kt: &mut [u64],
) -> Result<PlanRecord, Complaint>
    ensures value { result ≡ plan_answer src.now (lent vt.old mt.old ot.old kt.old) }
    ensures vt_after { vt.new ≡ (tables_after src.now (lent vt.old mt.old ot.old kt.old)).vcpus }
    ensures mt_after { mt.new ≡ (tables_after src.now (lent vt.old mt.old ot.old kt.old)).mutexes }
    ensures ot_after { ot.new ≡ (tables_after src.now (lent vt.old mt.old ot.old kt.old)).opens }
    ensures kt_after { kt.new ≡ (tables_after src.now (lent vt.old mt.old ot.old kt.old)).tasks }
{
    let a = judge_lines(src);
    let b = read_answer::with_room(a, vt.len(), mt.len(), ot.len(), kt.len());
    fill_if(read_answer::is_accepted(b), src, vt, mt, ot, kt);
    b
}
