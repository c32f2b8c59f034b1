// One line of events on a board: what it says, and what comes of it.
#![tactic(auto)]

ghost use Rattle.std.specs.Prelude.{◌≡◌};
ghost use Rattle.plan.specs.Line.{shape, written, nums_of};
ghost use Rattle.text_lines.specs.Said.{said_item};
ghost use Rattle.board_rules.specs.PlanViews.{facts};
ghost use Rattle.board_rules.specs.Settle.{Marked};
ghost use Rattle.board_events.specs.Events.{event_of, on_item, on_line};
ghost use Rattle.log_lines.specs.Told.{told_of, on_said, on_told};

use board_rules::{Board, Event, Outcome, PlanView};
use plan::{Kind, Refusal};
use text_lines::Said;

// The event of a line's kind and numbers, if it tells one.
#[tactic(auto, unfolding(board_events::specs::Events::event_of, plan::specs::Line::nums_of, plan::specs::Line::size, plan::specs::Line::shape))]
fn event_in(kind: Kind, a: u64, b: u64, c: u64, d: u64, e: u64) -> Option<Event>
    ensures { result ≡ told_of (event_of kind (nums_of kind a b c d e)) }
{
    match kind {
        Kind::AskLine => Some(Event::Ask { v: a, n: b, m: c }),
        Kind::FreeLine => Some(Event::Free { v: a, n: b, m: c }),
        Kind::UseLine => Some(Event::Use { v: a, t: b }),
        Kind::TopLine => Some(Event::Top { v: a }),
        Kind::ShowLine => Some(Event::Show { v: a, n: b }),
        _ => None,
    }
}

// The answer to an event whose line has its numbers written as they should be, or not.
fn on_event(b: Board, plan: &PlanView, ok: bool, e: Event) -> Outcome
    requires { Marked (facts plan.now) b }
    ensures { result ≡ on_said (facts plan.now) b ok e }
{
    if ok {
        b.step_on(plan, e)
    } else {
        b.refuse(Refusal::Number)
    }
}

// The answer to a line that tells an event, or none.
fn on_told(b: Board, plan: &PlanView, ok: bool, t: Option<Event>) -> Outcome
    requires { Marked (facts plan.now) b }
    ensures { result ≡ on_told (facts plan.now) b ok t }
{
    match t {
        Some(e) => on_event(b, plan, ok, e),
        None => b.refuse(Refusal::Shape),
    }
}

// The answer to a line of a kind.
fn on_kind(b: Board, plan: &PlanView, kind: Kind, s: Said) -> Outcome
    requires { Marked (facts plan.now) b }
    ensures { result ≡ on_told (facts plan.now) b (written (shape kind) (nums_of kind s.a s.b s.c s.d s.e)) (told_of (event_of kind (nums_of kind s.a s.b s.c s.d s.e))) }
{
    let ok = text_written::written_of(kind, s.a, s.b, s.c, s.d, s.e);
    let t = event_in(kind, s.a, s.b, s.c, s.d, s.e);
    on_told(b, plan, ok, t)
}

// The answer to what a line says.
fn on_said(b: Board, plan: &PlanView, s: Said) -> Outcome
    requires { Marked (facts plan.now) b }
    ensures { result ≡ on_item (facts plan.now) b (said_item s) }
{
    match s.found {
        Some(k) => on_kind(b, plan, k, s),
        None => b.refuse(Refusal::Shape),
    }
}

// The answer to one event line, and the board after it.
pub fn on_line(b: Board, plan: &PlanView, src: &[u8]) -> Outcome
    requires { Marked (facts plan.now) b }
    ensures { result ≡ on_line (facts plan.now) b src.now }
{
    let s = text_lines::said_of(src);
    on_said(b, plan, s)
}
