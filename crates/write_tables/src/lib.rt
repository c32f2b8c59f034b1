// A plan's bytes from lent tables into a lent buffer: 9 first, then 8. What is asked stands in specs/Asked of `write_asked`.
#![tactic(auto)]

ghost use Rattle.std.specs.Prelude.{◌≡◌, true, ◌≤◌, length};
ghost use Rattle.plan.specs.Text.{text};
ghost use Rattle.plan_tables.specs.Layout.{lent};
ghost use Rattle.plan_tables.specs.Given.{plan_in, is_given};
ghost use Rattle.text_told.specs.Told.{Space, Told};
ghost use Rattle.listing_lines.specs.Into.{has_room, text_answer, text_after};
ghost use Rattle.write_asked.specs.Asked.{plan_asked, plan_left};
ghost use Rattle.write_tables.specs.Parts.{front_bytes};

use plan::{OverrunChoice, Policy, Refusal};
use plan_tables::PlanRecord;
use write_rows::Rows;

// No plan has more bytes (specs/Short of `write_asked`).
const MOST_TEXT: usize = 64170;

// Tells the first two lines.
fn front(on: bool, out: &mut [u8], n: usize, p: Policy, o: OverrunChoice) -> usize
    requires { Space on (front_bytes p o) out.old n }
    ensures { Told on (front_bytes p o) out.old out.new n result }
{
    match p {
        Policy::Periodic => match o {
            OverrunChoice::WithOverrun => {
                text_told::tell(on, out, n, b"plan\t1\npolicy\tP\tO\n")
            }
            OverrunChoice::WithoutOverrun => {
                text_told::tell(on, out, n, b"plan\t1\npolicy\tP\tN\n")
            }
        },
        Policy::Deferrable => match o {
            OverrunChoice::WithOverrun => {
                text_told::tell(on, out, n, b"plan\t1\npolicy\tD\tO\n")
            }
            OverrunChoice::WithoutOverrun => {
                text_told::tell(on, out, n, b"plan\t1\npolicy\tD\tN\n")
            }
        },
    }
}

// Tells the lines of the plan in tables that passed the test for 9: written where `on`, else only counted.
fn plan_told(
    on: bool,
    r: PlanRecord,
    vt: &[u64],
    mt: &[u64],
    ot: &[u64],
    ts: &[u64],
    out: &mut [u8],
) -> usize
    requires { (is_given r (lent vt.now mt.now ot.now ts.now) ≡ true)
        × (on ≡ true → length (text (plan_in r (lent vt.now mt.now ot.now ts.now))) ≤ length out.old) }
    ensures { Told on (text (plan_in r (lent vt.now mt.now ot.now ts.now))) out.old out.new 0 result }
{
    let policy = r.policy;
    let overrun = r.overrun;
    let first = front(on, out, 0, policy, overrun);
    let vcpus = write_rows::rows_told(on, out, first, Rows::Vcpus, vt, r.vcpus);
    let mutexes = write_rows::rows_told(on, out, vcpus, Rows::Mutexes, mt, r.mutexes);
    let opens = write_rows::rows_told(on, out, mutexes, Rows::Opens, ot, r.opens);
    let tasks = write_rows::tasks_told(on, out, opens, vt, r.vcpus, ts, r.tasks);
    text_told::tell(on, out, tasks, b"end\n")
}

// Has a lent buffer room for the plan in tables that passed the test for 9? Its bytes are counted only where the buffer is shorter than some plan.
fn fits(r: PlanRecord, vt: &[u64], mt: &[u64], ot: &[u64], ts: &[u64], out: &mut [u8]) -> bool
    requires { is_given r (lent vt.now mt.now ot.now ts.now) ≡ true }
    ensures value { result ≡ has_room (text (plan_in r (lent vt.now mt.now ot.now ts.now))) out.old }
    ensures out_unchanged { out.new ≡ out.old }
{
    if MOST_TEXT <= out.len() {
        return true;
    }
    let size = plan_told(false, r, vt, mt, ot, ts, out);
    size <= out.len()
}

// Writes the plan in tables that passed the test for 9 into a lent buffer; with too little room 8, and the buffer as it was lent.
pub fn plan_into(
    r: PlanRecord,
    vt: &[u64],
    mt: &[u64],
    ot: &[u64],
    ts: &[u64],
    out: &mut [u8],
) -> Result<usize, Refusal>
    requires { is_given r (lent vt.now mt.now ot.now ts.now) ≡ true }
    ensures value { result ≡ text_answer (text (plan_in r (lent vt.now mt.now ot.now ts.now))) out.old }
    ensures out_after { out.new ≡ text_after (text (plan_in r (lent vt.now mt.now ot.now ts.now))) out.old }
{
    if !fits(r, vt, mt, ot, ts, out) {
        return Err(Refusal::Room);
    }
    let n = plan_told(true, r, vt, mt, ot, ts, out);
    Ok(n)
}

// Writes the plan in lent tables into a lent buffer: 9 first, then 8.
pub fn write_plan(
    r: PlanRecord,
    vt: &[u64],
    mt: &[u64],
    ot: &[u64],
    ts: &[u64],
    out: &mut [u8],
) -> Result<usize, Refusal>
    ensures value { result ≡ plan_asked r (lent vt.now mt.now ot.now ts.now) out.old }
    ensures out_after { out.new ≡ plan_left r (lent vt.now mt.now ot.now ts.now) out.old }
{
    if !given_test::is_given(r, vt, mt, ot, ts) {
        return Err(Refusal::Foreign);
    }
    plan_into(r, vt, mt, ot, ts, out)
}
