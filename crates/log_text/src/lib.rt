// The answers to logged events, from a plan in tables that passed the test for 9 into a lent buffer.
#![tactic(auto)]

ghost use Rattle.std.specs.Prelude.{◌≡◌, true, ◌*◌, ◌≤◌, length};
ghost use Rattle.plan_tables.specs.Given.{plan_in, is_given};
ghost use Rattle.plan_tables.specs.Layout.{lent};
ghost use Rattle.figures.specs.System.{system};
ghost use Rattle.board_rules.specs.Facts.{facts_of};
ghost use Rattle.board_rules.specs.PlanViews.{facts};
ghost use Rattle.board_rules.specs.Settle.{Marked};
ghost use Rattle.board_events.specs.Events.{replies_to};
ghost use Rattle.listing_lines.specs.Into.{text_answer, text_after};
ghost use Rattle.listing_lines.specs.IntoLaws.{RoomFor};
ghost use Rattle.desk_rooms.specs.Boarded.{answers_for};

use board_rules::{Board, PlanView};
use figures_cells::PlanTables;
use plan::Refusal;
use plan_tables::PlanRecord;

// Do the answers to the events of src fit into the buffer? It stays as it was lent.
fn answers_fit(b: Board, plan: &PlanView, src: &[u8], out: &mut [u8]) -> bool
    requires { (length src.now ≤ 65536) × (length (replies_to (facts plan.now) b src.now) ≤ 10 * length src.now) × Marked (facts plan.now) b }
    ensures room_for { RoomFor (replies_to (facts plan.now) b src.now) (length out.old) result }
    ensures out_unchanged { out.new ≡ out.old }
{
    if 10 * src.len() <= out.len() {
        return true;
    }
    log_answers::answers(false, b, plan, src, out) <= out.len()
}

// Writes the answers to the events of src from board b on; with too little room 8, and the buffer as it was lent.
fn answers_from(b: Board, plan: &PlanView, src: &[u8], out: &mut [u8]) -> Result<usize, Refusal>
    requires { (length src.now ≤ 65536) × (length (replies_to (facts plan.now) b src.now) ≤ 10 * length src.now) × Marked (facts plan.now) b }
    ensures value { result ≡ text_answer (replies_to (facts plan.now) b src.now) out.old }
    ensures out_after { out.new ≡ text_after (replies_to (facts plan.now) b src.now) out.old }
{
    if answers_fit(b, plan, src, out) {
        let n = log_answers::answers(true, b, plan, src, out);
        return Ok(n);
    }
    Err(Refusal::Room)
}

// Writes the answers to the events of src for the plan in tables that passed the test for 9.
pub fn answers_into(
    r: PlanRecord,
    vt: &[u64],
    mt: &[u64],
    ot: &[u64],
    ts: &[u64],
    src: &[u8],
    out: &mut [u8],
) -> Result<usize, Refusal>
    requires { (is_given r (lent vt.now mt.now ot.now ts.now) ≡ true) × (length src.now ≤ 65536) }
    ensures value { result ≡ text_answer (answers_for (facts_of (system (plan_in r (lent vt.now mt.now ot.now ts.now)))) src.now) out.old }
    ensures out_after { out.new ≡ text_after (answers_for (facts_of (system (plan_in r (lent vt.now mt.now ot.now ts.now)))) src.now) out.old }
{
    let mut view = [0u64; 4320];
    let t = PlanTables {
        plan: r,
        vcpus: vt,
        mutexes: mt,
        tasks: ts,
    };
    board_views::fill_view(&t, &mut view);
    let b = Board::fresh(&view);
    let plan = PlanView {
        policy: r.policy,
        overrun: r.overrun,
        view: &view,
    };
    answers_from(b, &plan, src, out)
}
