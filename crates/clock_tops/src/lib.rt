// The tops of a tick on the clock that are due. What they are stands in specs/Clock of `clock_rules`, what holds of the lists in specs/Topping here.
#![tactic(auto)]

ghost use Rattle.std.specs.Prelude.{◌≡◌, ◌<◌, ◌≤◌, length};
ghost use Rattle.board_rules.specs.PlanViews.{facts};
ghost use Rattle.board_rules.specs.Settle.{Marked};
ghost use Rattle.board_rules.specs.Board.{step};
ghost use Rattle.clock_rules.specs.Clock.{tops};
ghost use Rattle.clock_rules.specs.Trace.{event_line, lines_at};
ghost use Rattle.clock_marks.specs.Marks.{board_of, Sized};
ghost use Rattle.clock_lines.specs.Told.{RoomAt};
ghost use Rattle.clock_nexts.specs.Nexts.{Nexts};
ghost use Rattle.clock_going.specs.Lent.{GoingOf, timing};
ghost use Rattle.clock_tops.specs.Topping.{tops_to, OneTop, Topped, DueIn, TopsMade};

use board_rules::{Board, Event, PlanView};

// `top v` is made and told.
fn top(
    on: bool,
    plan: &PlanView,
    left: &mut [u64],
    over: &mut [u64],
    stopped: &mut [bool],
    holder: &[u16],
    waits: &[u8],
    marks: &mut [u64],
    v: u64,
    t: u64,
    out: &mut [u8],
    at: usize,
) -> usize
    requires { (length left.old ≡ 16) × (length over.old ≡ 16) × (length stopped.old ≡ 16) × Marked (facts plan.now) (board_of left.old over.old stopped.old holder.now waits.now) × Sized marks.old × (0 < v) × (v ≤ 16) × RoomAt on (event_line t (Event.Top v) (step (facts plan.now) (board_of left.old over.old stopped.old holder.now waits.now) (Event.Top v)).answer) out.old at }
    ensures { OneTop (facts plan.now) plan.now.overrun on t v (board_of left.old over.old stopped.old holder.now waits.now) marks.old out.old at (board_of left.new over.new stopped.new holder.now waits.now) marks.new out.new result }
{
    let a = Board::top_in(plan, left, over, stopped, holder, v);
    clock_supplies::put_supply(plan.overrun, left, over, stopped, marks, v);
    clock_lines::tell(on, out, at, t, Event::Top { v }, a)
}

// The `top` events of tick t.
fn tops(
    on: bool,
    plan: &PlanView,
    times: &[u64],
    left: &mut [u64],
    over: &mut [u64],
    stopped: &mut [bool],
    holder: &[u16],
    waits: &[u8],
    marks: &mut [u64],
    nexts: &[u64],
    all: u64,
    t: u64,
    out: &mut [u8],
    at: usize,
) -> usize
    requires { GoingOf plan.now times.now left.old over.old stopped.old holder.now waits.now marks.old × (length nexts.now ≡ 162) × RoomAt on (lines_at (facts plan.now) t (board_of left.old over.old stopped.old holder.now waits.now) (tops_to nexts.now t 16)) out.old at × DueIn nexts.now t all }
    ensures { Topped (facts plan.now) times.now on t (board_of left.old over.old stopped.old holder.now waits.now) marks.old nexts.now out.old at 16 (board_of left.new over.new stopped.new holder.now waits.now) marks.new out.new result }
{
    let mut w = at;
    let mut rest = all;
    while rest != 0 {
        let v = clock_sets::lowest_in(rest);
        if clock_misses::is_due(nexts, v - 1, t) {
            w = top(
                on, plan, left, over, stopped, holder, waits, marks, v, t, out, w,
            );
        }
        rest = clock_sets::without(rest, v);
    }
    w
}

// Where tops are due at tick t, they are made, and when they recur next is written.
pub fn tops_due(
    on: bool,
    plan: &PlanView,
    times: &[u64],
    left: &mut [u64],
    over: &mut [u64],
    stopped: &mut [bool],
    holder: &[u16],
    waits: &[u8],
    marks: &mut [u64],
    nexts: &mut [u64],
    t: u64,
    out: &mut [u8],
    at: usize,
) -> usize
    requires { GoingOf plan.now times.now left.old over.old stopped.old holder.now waits.now marks.old × Nexts times.now nexts.old t × (t ≤ 1000000) × RoomAt on (lines_at (facts plan.now) t (board_of left.old over.old stopped.old holder.now waits.now) (tops (timing plan.now times.now) t)) out.old at }
    ensures { TopsMade (facts plan.now) times.now on t (board_of left.old over.old stopped.old holder.now waits.now) marks.old nexts.old out.old at (board_of left.new over.new stopped.new holder.now waits.now) marks.new nexts.new out.new result }
{
    if nexts[160] != t {
        return at;
    }
    let all = clock_nexts::recurring(times);
    let w = tops(
        on, plan, times, left, over, stopped, holder, waits, marks, nexts, all, t, out, at,
    );
    clock_renews::renew_tops(times, nexts, all, t);
    w
}
