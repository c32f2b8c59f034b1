// Bytes offered as a plan, judged line by line, with what each line says written into tables.
#![tactic(auto)]

ghost use Rattle.std.specs.Prelude.{◌≡◌};
ghost use Rattle.laws.specs.Bytes.{pieces};
ghost use Rattle.plan.specs.Limits.{lf};
ghost use Rattle.plan.specs.Reading.{fault_of, field_at, next_of};
ghost use Rattle.text_lines.specs.Said.{said_item};
ghost use Rattle.judge_coded.specs.Coded as coded;
ghost use Rattle.read_tally.specs.Tally as tallies;
ghost use Rattle.read_fill.specs.Fill as fills;
ghost use Rattle.read_answer.specs.Judged as judged;

use judge_coded::Seen;
use plan::{Complaint, Refusal};
use plan_tables::PlanRecord;
use text_lines::Said;

// What is wrong with a line.
fn fault_in(t: Seen, s: Said) -> Result<(), Refusal>
    ensures { result ≡ fault_of coded.coded t (said_item s) }
{
    match s.found {
        Some(k) => judge_faults::fault_of(t, k, s.a, s.b, s.c, s.d, s.e),
        None => Err(Refusal::Shape),
    }
}

// The field for which a line is refused by r.
fn field_said(t: Seen, s: Said, r: Refusal) -> u64
    ensures { result ≡ field_at coded.coded t (said_item s) r }
{
    match s.found {
        Some(k) => judge_fields::field_of(t, k, s.a, s.b, s.c, s.d, s.e, r),
        None => 0,
    }
}

// What is seen after a line.
fn seen_in(t: Seen, s: Said) -> Seen
    ensures { result ≡ next_of coded.coded t (said_item s) }
{
    match s.found {
        Some(k) => judge_seen::seen_after(t, k, s.a, s.b, s.c, s.d, s.e),
        None => t,
    }
}

// Inner; for lent tables call `read_plan`. Judges bytes offered as a plan line by line, and writes what each line before the first with a fault says. A refusal leaves these rows in the tables.
// The answer is the one for tables with room: what has no place in a shorter table is dropped.
pub fn read_lines(
    src: &[u8],
    vt: &mut [u64],
    mt: &mut [u64],
    ot: &mut [u64],
    kt: &mut [u64],
) -> Result<PlanRecord, Complaint>
    ensures value { result ≡ judged.judged_from coded.start tallies.blank 1 (pieces lf src.now) }
    ensures vt_after { vt.new ≡ judged.lines_left fills.vcpu_put src.now vt.old }
    ensures mt_after { mt.new ≡ judged.lines_left fills.mutex_put src.now mt.old }
    ensures ot_after { ot.new ≡ judged.lines_left fills.open_put src.now ot.old }
    ensures kt_after { kt.new ≡ judged.lines_left fills.task_put src.now kt.old }
{
    let mut t = judge_seen::start();
    let mut c = read_tally::blank();
    let mut at = 0;
    let mut n: usize = 1;
    loop {
        let r = text_scan::read_line(src, at, n);
        let l = r.line;
        if !l.ended {
            return read_answer::finish(judge_seen::ready(t) & l.empty, c, n);
        }
        let s = l.said;
        if let Err(r) = fault_in(t, s) {
            return read_answer::refuse(r, n, field_said(t, s, r));
        }
        read_fill::put_line(c, s, vt, mt, ot, kt);
        let u = seen_in(t, s);
        let v = read_tally::tally_after(c, s);
        t = u;
        c = v;
        at = r.at;
        n = r.number;
    }
}
