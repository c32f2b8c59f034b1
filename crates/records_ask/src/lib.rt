// What is asked of tables with tasks as a lent slice of records: the records' numbers are loaded, and the covered functions over numbers answer.
#![tactic(auto)]

ghost use Rattle.std.specs.Prelude.{◌≡◌, ◌≤◌, length, take};
ghost use Rattle.plan_tables.specs.Layout.{lent};
ghost use Rattle.listing_asked.specs.Asked.{text_asked, text_left};
ghost use Rattle.records.specs.Sheet.{tables_of};
ghost use Rattle.records_reply.specs.Replies.{reply_to};
ghost use Rattle.records_ask.specs.Wanted.{wanted};

use plan::{MOST_TASKS, Refusal};
use plan_tables::PlanRecord;
use records::Task;
use records_reply::{Question, Replied};

// The reply, on the first c numbers of the rows.
fn reply_in(
    r: PlanRecord,
    vt: &[u64],
    mt: &[u64],
    ot: &[u64],
    rows: &[u64],
    q: Question,
    c: usize,
) -> Replied
    requires { c ≤ length rows.now }
    ensures { result ≡ reply_to r (lent vt.now mt.now ot.now (take c rows.now)) q }
{
    records_reply::reply_on(r, vt, mt, ot, &rows[..c], q)
}

// Replies to a question about the plan in lent tables.
pub fn reply(
    r: PlanRecord,
    vt: &[u64],
    mt: &[u64],
    ot: &[u64],
    tasks: &[Task],
    q: Question,
) -> Replied
    ensures { result ≡ reply_to r (tables_of vt.now mt.now ot.now tasks.now) q }
{
    let mut rows = records::no_rows();
    let c = records::load(tasks, &mut rows, MOST_TASKS);
    reply_in(r, vt, mt, ot, &rows, q, c)
}

// What is written of the plan in lent tables: its listing, or its own bytes.
#[derive(Clone, Copy)]
pub enum Text {
    Listing,
    Plan,
}

// The text into a lent buffer, on the first c numbers of the rows.
fn text_in(
    r: PlanRecord,
    vt: &[u64],
    mt: &[u64],
    ot: &[u64],
    rows: &[u64],
    what: Text,
    out: &mut [u8],
    c: usize,
) -> Result<usize, Refusal>
    requires { c ≤ length rows.now }
    ensures { (result ≡ text_asked (wanted what) r (lent vt.now mt.now ot.now (take c rows.now)) out.old)
        × (out.new ≡ text_left (wanted what) r (lent vt.now mt.now ot.now (take c rows.now)) out.old) }
{
    match what {
        Text::Listing => listing_write::write_listing(r, vt, mt, ot, &rows[..c], out),
        Text::Plan => write_tables::write_plan(r, vt, mt, ot, &rows[..c], out),
    }
}

// Writes what is wanted of the plan in lent tables into a lent buffer: 9 first, then 8.
pub fn write(
    r: PlanRecord,
    vt: &[u64],
    mt: &[u64],
    ot: &[u64],
    tasks: &[Task],
    what: Text,
    out: &mut [u8],
) -> Result<usize, Refusal>
    ensures value { result ≡ text_asked (wanted what) r (tables_of vt.now mt.now ot.now tasks.now) out.old }
    ensures out_after { out.new ≡ text_left (wanted what) r (tables_of vt.now mt.now ot.now tasks.now) out.old }
{
    let mut rows = records::no_rows();
    let c = records::load(tasks, &mut rows, MOST_TASKS);
    text_in(r, vt, mt, ot, &rows, what, out, c)
}
