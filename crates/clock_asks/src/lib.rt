// The asks of a core's turn on the clock, on the board's arrays and what is kept beside them. What they are stands in specs/Clock of `clock_rules`, what is said of each function in specs/Asked of `clock_takes`.
#![tactic(auto)]

ghost use Rattle.std.specs.Prelude.{◌≤◌};
ghost use Rattle.board_rules.specs.PlanViews.{facts};
ghost use Rattle.clock_rules.specs.Clock.{asks_at};
ghost use Rattle.clock_rules.specs.Trace.{lines_at};
ghost use Rattle.clock_marks.specs.Marks.{board_of, run_in, done_in};
ghost use Rattle.clock_lines.specs.Told.{RoomAt};
ghost use Rattle.clock_going.specs.Lent.{GoingOf, timing};
ghost use Rattle.clock_takes.specs.Asked.{PickIs, KnownPick, Asked};

use board_rules::PlanView;

// Who is picked, nobody where v and n are 0; and the mutex for which it is to ask, 0 for none.
#[derive(Clone, Copy)]
struct Choice {
    v: u64,
    n: u64,
    m: u64,
}

// Who uses the tick, nobody where v and n are 0; and where the text goes on.
#[derive(Clone, Copy)]
pub struct Picked {
    pub v: u64,
    pub n: u64,
    pub at: usize,
}

// Whom core c picks, and the mutex for which it is to ask: (hv, hn), where hv is not 0, is known to be picked.
fn pick(
    plan: &PlanView,
    times: &[u64],
    left: &[u64],
    over: &[u64],
    stopped: &[bool],
    holder: &[u16],
    waits: &[u8],
    marks: &[u64],
    c: u64,
    hv: u64,
    hn: u64,
) -> Choice
    requires going { GoingOf plan.now times.now left.now over.now stopped.now holder.now waits.now marks.now × (c ≤ 3) }
    requires known_pick { KnownPick (timing plan.now times.now) c (board_of left.now over.now stopped.now holder.now waits.now) (done_in marks.now) hv hn }
    ensures { PickIs (timing plan.now times.now) c (board_of left.now over.now stopped.now holder.now waits.now) (done_in marks.now) result.v result.n result.m }
{
    let mut v = hv;
    let mut n = hn;
    if v == 0 {
        v = clock_picks::pick_v(marks, c);
        if v == 0 {
            return Choice { v: 0, n: 0, m: 0 };
        }
        n = clock_picks::pick_n(plan.view, waits, marks, v);
    }
    let m = clock_dues::due(times, holder, marks, v, n);
    Choice { v, n, m }
}

// The asks of core c's turn, and who then uses the tick: (hv, hn), where hv is not 0, is known to be picked first.
pub fn asks(
    on: bool,
    plan: &PlanView,
    times: &[u64],
    left: &[u64],
    over: &[u64],
    stopped: &[bool],
    holder: &mut [u16],
    waits: &mut [u8],
    marks: &mut [u64],
    c: u64,
    hv: u64,
    hn: u64,
    t: u64,
    out: &mut [u8],
    at: usize,
) -> Picked
    requires going { GoingOf plan.now times.now left.now over.now stopped.now holder.old waits.old marks.old × (c ≤ 3) }
    requires room_at { RoomAt on (lines_at (facts plan.now) t (board_of left.now over.now stopped.now holder.old waits.old) (asks_at (timing plan.now times.now) c (run_in left.now over.now stopped.now holder.old waits.old marks.old)).events) out.old at }
    requires known_pick { KnownPick (timing plan.now times.now) c (board_of left.now over.now stopped.now holder.old waits.old) (done_in marks.old) hv hn }
    ensures { Asked plan.now.policy plan.now.overrun plan.now.view.now times.now left.now over.now stopped.now on c t holder.old waits.old marks.old out.old at holder.new waits.new marks.new out.new result.v result.n result.at }
{
    let mut w = at;
    let mut fv = hv;
    for _ in 0u64..129 {
        let p = pick(
            plan, times, left, over, stopped, holder, waits, marks, c, fv, hn,
        );
        let v = p.v;
        let n = p.n;
        let m = p.m;
        if m == 0 {
            return Picked { v, n, at: w };
        }
        let a = clock_takes::ask(
            on, plan, left, over, stopped, holder, waits, marks, v, n, m, t, out, w,
        );
        w = a.at;
        if !a.waits {
            return Picked { v, n, at: w };
        }
        fv = 0;
    }
    Picked { v: 0, n: 0, at: w }
}
