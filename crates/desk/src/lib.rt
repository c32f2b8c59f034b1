// The faces that strangers call: from any bytes to the bytes that a program prints.
#![tactic(auto)]

ghost use Rattle.std.specs.Prelude.{◌≡◌, true, ◌≤◌, length};
ghost use Rattle.plan.specs.Reading.{reading};
ghost use Rattle.plan_tables.specs.Layout.{lent};
ghost use Rattle.plan_tables.specs.Given.{is_given};
ghost use Rattle.listing.specs.Listing.{verdict_text};
ghost use Rattle.board_events.specs.Events.{board_text};
ghost use Rattle.text_letters.specs.Wrote.{Wrote};
ghost use Rattle.listing_lines.specs.Into.{text_answer, text_after};
ghost use Rattle.records_read.specs.Lies.{Sure};
ghost use Rattle.desk.specs.Told.{told_in, told_or, text_for};
ghost use Rattle.desk_rooms.specs.Whole.{verdict_bytes, board_bytes, Counted};

use figures_cells::PlanTables;
use plan::{Complaint, Refusal, no_room};
use plan_tables::PlanRecord;

// Writes, for the plan in tables that passed the test for 9, the answers to the events of src where `on`, else its listing.
fn text_into(
    on: bool,
    r: PlanRecord,
    vt: &[u64],
    mt: &[u64],
    ot: &[u64],
    ts: &[u64],
    src: &[u8],
    out: &mut [u8],
) -> Result<usize, Refusal>
    requires { (is_given r (lent vt.now mt.now ot.now ts.now) ≡ true) × (length src.now ≤ 65536) }
    ensures value { result ≡ text_answer (told_in on r (lent vt.now mt.now ot.now ts.now) src.now) out.old }
    ensures out_after { out.new ≡ text_after (told_in on r (lent vt.now mt.now ot.now ts.now) src.now) out.old }
{
    if on {
        return log_text::answers_into(r, vt, mt, ot, ts, src, out);
    }
    let t = PlanTables {
        plan: r,
        vcpus: vt,
        mutexes: mt,
        tasks: ts,
    };
    listing_puts::listing_into(&t, out)
}

// The same for an accepted plan; for a refused one its line.
fn text_or(
    on: bool,
    a: Result<PlanRecord, Complaint>,
    vt: &[u64],
    mt: &[u64],
    ot: &[u64],
    ts: &[u64],
    src: &[u8],
    out: &mut [u8],
) -> Result<usize, Refusal>
    requires { Sure a (lent vt.now mt.now ot.now ts.now) × (length src.now ≤ 65536) }
    ensures value { result ≡ text_answer (told_or on a (lent vt.now mt.now ot.now ts.now) src.now) out.old }
    ensures out_after { out.new ≡ text_after (told_or on a (lent vt.now mt.now ot.now ts.now) src.now) out.old }
{
    match a {
        Ok(r) => text_into(on, r, vt, mt, ot, ts, src, out),
        Err(c) => desk_refusals::refusal_text(c, out),
    }
}

// Reads a plan, and writes the answers to the events of src where `on`, else its listing; or its refusal.
fn text_of(on: bool, plan: &[u8], src: &[u8], out: &mut [u8]) -> Result<usize, Refusal>
    requires { length src.now ≤ 65536 }
    ensures value { result ≡ text_answer (text_for on (reading plan.now) src.now) out.old }
    ensures out_after { out.new ≡ text_after (text_for on (reading plan.now) src.now) out.old }
{
    let mut vt = [0u64; 80];
    let mut mt = [0u64; 64];
    let mut ot = [0u64; 256];
    let mut ts = [0u64; 1856];
    let a = records_read::read_rows(plan, &mut vt, &mut mt, &mut ot, &mut ts);
    text_or(on, a, &vt, &mt, &ot, &ts, src, out)
}

// What `board` prints for any two inputs, into a lent buffer; with too little room 8, and the buffer as it was lent.
pub fn board_text(plan: &[u8], src: &[u8], out: &mut [u8]) -> Result<usize, Refusal>
    ensures value { result ≡ text_answer (board_text plan.now src.now) out.old }
    ensures out_after { out.new ≡ text_after (board_text plan.now src.now) out.old }
{
    if desk_rooms::too_large(plan.len()) {
        return desk_refusals::refusal_text(no_room(), out);
    }
    if desk_rooms::too_large(src.len()) {
        return desk_refusals::refusal_text(no_room(), out);
    }
    text_of(true, plan, src, out)
}

// What `verdict` prints for any input, into a lent buffer; with too little room 8, and the buffer as it was lent.
pub fn verdict_text(src: &[u8], out: &mut [u8]) -> Result<usize, Refusal>
    ensures value { result ≡ text_answer (verdict_text src.now) out.old }
    ensures out_after { out.new ≡ text_after (verdict_text src.now) out.old }
{
    if desk_rooms::too_large(src.len()) {
        return desk_refusals::refusal_text(no_room(), out);
    }
    text_of(false, src, src, out)
}

// What `board` prints, into a buffer of at least its program's size; returns the bytes written.
pub fn board_in(plan: &[u8], src: &[u8], out: &mut [u8]) -> usize
    requires { board_bytes ≤ length out.old }
    ensures wrote { Wrote (board_text plan.now src.now) out.old out.new result }
    ensures counted { Counted result out.new }
{
    let a = board_text(plan, src, out);
    desk_refusals::bytes_in(a)
}

// What `verdict` prints, into a buffer of at least its program's size; returns the bytes written.
pub fn verdict_in(src: &[u8], out: &mut [u8]) -> usize
    requires { verdict_bytes ≤ length out.old }
    ensures wrote { Wrote (verdict_text src.now) out.old out.new result }
    ensures counted { Counted result out.new }
{
    let a = verdict_text(src, out);
    desk_refusals::bytes_in(a)
}
