// The whole listing of a plan in lent tables that pass the test for 9, into a lent buffer.
#![tactic(auto)]

ghost use Rattle.std.specs.Prelude.{◌≡◌, ◌*◌, ◌≤◌, leb, length, Ok, Err};
ghost use Rattle.plan.specs.declared.Refusal.TheVariants.{Room};
ghost use Rattle.plan.specs.Limits.{most_tasks};
ghost use Rattle.figures_cells.specs.Held.{system_of};
ghost use Rattle.listing.specs.Listing.{listing};
ghost use Rattle.listing_lines.specs.Into.{text_answer, text_after};
ghost use Rattle.listing_order.specs.Ordered.{Ordered};
ghost use Rattle.answers_told.specs.Lent.{AnswersOf};

use figures_cells::PlanTables;
use plan::Refusal;

// Has a buffer of `room` bytes room for the listing?
fn has_room(
    t: &PlanTables,
    va: &[u64],
    wa: &[u64],
    ta: &[u64],
    order: &[u64],
    n: usize,
    room: usize,
) -> bool
    requires { AnswersOf t.now va.now wa.now ta.now × Ordered (system_of t.now) t.now.tasks.now order.now t.now.plan.tasks n × (most_tasks ≤ length order.now) }
    ensures { result ≡ leb (length (listing (system_of t.now))) room }
{
    let size = listing_sizes::listing_size(t, va, wa, ta, order, n);
    size <= room
}

fn written(k: usize) -> Result<usize, Refusal>
    ensures { result ≡ Ok k }
{
    Ok(k)
}

fn no_room() -> Result<usize, Refusal>
    ensures { result ≡ Err Room }
{
    Err(Refusal::Room)
}

// Writes the listing of a plan whose answers and order are worked out; the room is tested before the first byte is written.
fn put_answered(
    t: &PlanTables,
    va: &[u64],
    wa: &[u64],
    ta: &[u64],
    order: &[u64],
    n: usize,
    out: &mut [u8],
) -> Result<usize, Refusal>
    requires { AnswersOf t.now va.now wa.now ta.now × Ordered (system_of t.now) t.now.tasks.now order.now t.now.plan.tasks n × (most_tasks ≤ length order.now) }
    ensures value { result ≡ text_answer (listing (system_of t.now)) out.old }
    ensures out_after { out.new ≡ text_after (listing (system_of t.now)) out.old }
{
    let m = out.len();
    if !has_room(t, va, wa, ta, order, n, m) {
        return no_room();
    }
    let k = listing_pages::put_listing(t, va, wa, ta, order, n, out);
    written(k)
}

// Works out the answers and the order of a plan, and writes its listing; tf, rf, wa and ta are scratch, with room for the plan's tasks.
fn listing_with(
    t: &PlanTables,
    tf: &mut [u64],
    rf: &mut [u64],
    wa: &mut [u64],
    ta: &mut [u64],
    out: &mut [u8],
) -> Result<usize, Refusal>
    requires { (t.now.plan.tasks * 5 ≤ length tf.old) × (t.now.plan.tasks * 8 ≤ length rf.old) × (t.now.plan.tasks * 24 ≤ length wa.old) × (t.now.plan.tasks * 3 ≤ length ta.old) }
    ensures value { result ≡ text_answer (listing (system_of t.now)) out.old }
    ensures out_after { out.new ≡ text_after (listing (system_of t.now)) out.old }
{
    let mut va = [0u64; 48];
    let mut order = [0u64; 64];
    answers::fill_answers(t, tf, rf, &mut va, wa, ta);
    let n = listing_order::rising(t, &mut order);
    put_answered(t, &va, wa, ta, &order, n, out)
}

// Writes the listing of a plan in tables of these sizes, which have room for its tasks.
fn listing_in<const F: usize, const R: usize, const W: usize, const A: usize>(
    t: &PlanTables,
    out: &mut [u8],
) -> Result<usize, Refusal>
    requires room { (t.now.plan.tasks * 5 ≤ F) × (t.now.plan.tasks * 8 ≤ R) × (t.now.plan.tasks * 24 ≤ W) × (t.now.plan.tasks * 3 ≤ A) }
    requires small { (F ≤ 1536) × (R ≤ 1536) × (W ≤ 1536) × (A ≤ 1536) }
    ensures value { result ≡ text_answer (listing (system_of t.now)) out.old }
    ensures out_after { out.new ≡ text_after (listing (system_of t.now)) out.old }
{
    let mut tf = [0u64; F];
    let mut rf = [0u64; R];
    let mut wa = [0u64; W];
    let mut ta = [0u64; A];
    listing_with(t, &mut tf, &mut rf, &mut wa, &mut ta, out)
}

// Inner: writes the listing of a plan in tables that are fit for the figures' code, as those that passed the test for 9 are. With too little room 8, and the buffer as it was lent.
// A plan of at most 8 tasks is worked out in tables for 8, so that little is cleared; a larger one in tables for 64.
pub fn listing_into(t: &PlanTables, out: &mut [u8]) -> Result<usize, Refusal>
    ensures value { result ≡ text_answer (listing (system_of t.now)) out.old }
    ensures out_after { out.new ≡ text_after (listing (system_of t.now)) out.old }
{
    let n = t.plan.tasks;
    if n <= 8 {
        listing_in::<40, 64, 192, 24>(t, out)
    } else {
        listing_in::<320, 512, 1536, 192>(t, out)
    }
}
