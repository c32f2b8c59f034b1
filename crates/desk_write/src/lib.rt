// The face of the writer that strangers call: from any bytes to the bytes that `rewrite` prints.
#![tactic(auto)]

ghost use Rattle.std.specs.Prelude.{◌≡◌, ◌≤◌, length};
ghost use Rattle.plan_tables.specs.Layout.{lent};
ghost use Rattle.text_letters.specs.Wrote.{Wrote};
ghost use Rattle.listing_lines.specs.Into.{text_answer, text_after};
ghost use Rattle.records_read.specs.Lies.{Sure};
ghost use Rattle.desk_rooms.specs.Whole.{Counted};
ghost use Rattle.desk_write.specs.Rewritten.{rewrite_or, rewrite_text, rewrite_bytes};

use plan::{Complaint, Refusal, no_room};
use plan_tables::PlanRecord;

// Writes an accepted plan from the tables that its reading left; for a refused one its line.
fn plan_or(
    a: Result<PlanRecord, Complaint>,
    vt: &[u64],
    mt: &[u64],
    ot: &[u64],
    ts: &[u64],
    out: &mut [u8],
) -> Result<usize, Refusal>
    requires { Sure a (lent vt.now mt.now ot.now ts.now) }
    ensures value { result ≡ text_answer (rewrite_or a (lent vt.now mt.now ot.now ts.now)) out.old }
    ensures out_after { out.new ≡ text_after (rewrite_or a (lent vt.now mt.now ot.now ts.now)) out.old }
{
    match a {
        Ok(r) => write_tables::plan_into(r, vt, mt, ot, ts, out),
        Err(c) => desk_refusals::refusal_text(c, out),
    }
}

// What `rewrite` prints for any input, into a lent buffer; with too little room 8, and the buffer as it was lent.
pub fn rewrite_text(src: &[u8], out: &mut [u8]) -> Result<usize, Refusal>
    ensures value { result ≡ text_answer (rewrite_text src.now) out.old }
    ensures out_after { out.new ≡ text_after (rewrite_text src.now) out.old }
{
    if desk_rooms::too_large(src.len()) {
        return desk_refusals::refusal_text(no_room(), out);
    }
    let mut vt = [0u64; 80];
    let mut mt = [0u64; 64];
    let mut ot = [0u64; 256];
    let mut ts = [0u64; 1856];
    let a = records_read::read_rows(src, &mut vt, &mut mt, &mut ot, &mut ts);
    plan_or(a, &vt, &mt, &ot, &ts, out)
}

// What `rewrite` prints, into a buffer of at least its program's size; returns the bytes written.
pub fn rewrite_in(src: &[u8], out: &mut [u8]) -> usize
    requires { rewrite_bytes ≤ length out.old }
    ensures wrote { Wrote (rewrite_text src.now) out.old out.new result }
    ensures counted { Counted result out.new }
{
    let a = rewrite_text(src, out);
    desk_refusals::bytes_in(a)
}
