// One ask of a core's turn on the clock, on the board's arrays and what is kept beside them. What it is stands in specs/Clock of `clock_rules`, what is said of each function in specs/Asked.
#![tactic(auto)]

ghost use Rattle.std.specs.Prelude.{◌≡◌, ◌<◌, ◌≤◌};
ghost use Rattle.board_seats.specs.Seats.{is_global};
ghost use Rattle.board_rules.specs.PlanViews.{facts};
ghost use Rattle.board_rules.specs.Board.{step};
ghost use Rattle.clock_rules.specs.Clock.{is_wait};
ghost use Rattle.clock_rules.specs.Trace.{event_line};
ghost use Rattle.clock_marks.specs.Marks.{board_of, Sized};
ghost use Rattle.clock_lines.specs.Told.{RoomAt};
ghost use Rattle.clock_takes.specs.Asked.{Took, Kept, MayAsk, AskKept};

use board_rules::{Board, BoardAnswer, Event, PlanView};

// Whether who asked waits; and where the text goes on.
#[derive(Clone, Copy)]
pub struct Answered {
    pub waits: bool,
    pub at: usize,
}

// The answer is `waits`.
fn is_wait(a: BoardAnswer) -> bool
    ensures { result ≡ is_wait a }
{
    match a {
        BoardAnswer::Granted => false,
        BoardAnswer::Waits => true,
        BoardAnswer::Freed(_) => false,
        BoardAnswer::Left { b: _, o: _ } => false,
        BoardAnswer::Shows { task: _, vcpu: _ } => false,
        BoardAnswer::Refused(_) => false,
    }
}

// Task (v, n) has got m.
fn take(view: &[u64], marks: &mut [u64], v: u64, n: u64, m: u64)
    requires { Sized marks.old × (0 < v) × (v ≤ 16) × (0 < n) × (n ≤ 8) }
    ensures { Took marks.old marks.new v n m (is_global view.now m) }
{
    if board_seats::is_global(view, m) {
        clock_puts::put_held(marks, v, n, 33);
        clock_puts::put_in(marks, clock_puts::HOLDING, v, true);
    } else {
        clock_puts::put_held(marks, v, n, m);
    }
}

// Task (v, n) has asked for m, and waits or has got it.
fn keep(view: &[u64], marks: &mut [u64], v: u64, n: u64, m: u64, waits: bool)
    requires { Sized marks.old × (0 < v) × (v ≤ 16) × (0 < n) × (n ≤ 8) }
    ensures { Kept marks.old marks.new v n m (is_global view.now m) waits }
{
    if waits {
        clock_puts::put_ready(marks, v, n, false);
    } else {
        take(view, marks, v, n, m);
    }
}

// Task (v, n) asks for m: the ask is made, told and kept.
pub fn ask(
    on: bool,
    plan: &PlanView,
    left: &[u64],
    over: &[u64],
    stopped: &[bool],
    holder: &mut [u16],
    waits: &mut [u8],
    marks: &mut [u64],
    v: u64,
    n: u64,
    m: u64,
    t: u64,
    out: &mut [u8],
    at: usize,
) -> Answered
    requires may_ask { MayAsk plan.now.policy plan.now.overrun plan.now.view.now left.now over.now stopped.now holder.old waits.old marks.old v n m }
    requires room_at { RoomAt on (event_line t (Event.Ask v n m) (step (facts plan.now) (board_of left.now over.now stopped.now holder.old waits.old) (Event.Ask v n m)).answer) out.old at }
    ensures { AskKept plan.now.policy plan.now.overrun plan.now.view.now left.now over.now stopped.now on t v n m holder.old waits.old marks.old out.old at holder.new waits.new marks.new out.new result.waits result.at }
{
    let may = clock_passes::may_have(plan.view, holder, marks, v, n, m);
    let a = Board::ask_sure(plan, left, over, stopped, holder, waits, v, n, m, may);
    let w = clock_lines::tell(on, out, at, t, Event::Ask { v, n, m }, a);
    let still = is_wait(a);
    keep(plan.view, marks, v, n, m, still);
    Answered {
        waits: still,
        at: w,
    }
}
