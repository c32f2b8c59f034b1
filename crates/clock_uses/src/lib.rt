// A tick used of a VCPU's supply, and the idle uses of a core's turn on the clock, on the board's arrays and what is kept beside them. What they are stands in specs/Clock of `clock_rules`.
#![tactic(auto)]

ghost use Rattle.std.specs.Prelude.{◌≡◌, true, [], ◌∷◌, ◌<◌, ◌≤◌};
ghost use Rattle.board_reserves.specs.Supplies.{under_p};
ghost use Rattle.board_rules.specs.PlanViews.{facts};
ghost use Rattle.clock_rules.specs.Clock.{idle_uses};
ghost use Rattle.clock_rules.specs.Trace.{lines_at};
ghost use Rattle.clock_lines.specs.Told.{RoomAt};
ghost use Rattle.clock_marks.specs.Marks.{Sized, board_of, run_in, done_in};
ghost use Rattle.clock_going.specs.Going.{Made};
ghost use Rattle.clock_going.specs.Lent.{GoingOf, timing};
ghost use Rattle.clock_uses.specs.Using.{Uses, AfterUse};

use board_rules::{Board, Event, PlanView};
use plan::OverrunChoice;

// What is kept of the supply of v after a tick of it is used, or a mutex of it freed: nothing changes while budget is left.
pub fn after_use(
    choice: OverrunChoice,
    left: &[u64],
    over: &[u64],
    stopped: &[bool],
    marks: &mut [u64],
    v: u64,
)
    requires { Sized marks.old × (0 < v) × (v ≤ 16) }
    ensures { AfterUse choice left.now over.now stopped.now marks.old marks.new v }
{
    if board_seats::figure(left, v) == 0 {
        clock_supplies::put_supply(choice, left, over, stopped, marks, v);
    }
}

// One tick of v is used, which is not refused: no mutex is walked over.
pub fn use_one(
    on: bool,
    plan: &PlanView,
    times: &[u64],
    left: &mut [u64],
    over: &mut [u64],
    stopped: &mut [bool],
    holder: &[u16],
    waits: &[u8],
    marks: &mut [u64],
    v: u64,
    t: u64,
    out: &mut [u8],
    at: usize,
) -> usize
    requires v_nonzero { (0 < v) × (v ≤ 16) × GoingOf plan.now times.now left.old over.old stopped.old holder.now waits.now marks.old × Uses (facts plan.now) (board_of left.old over.old stopped.old holder.now waits.now) v }
    requires room_at { RoomAt on (lines_at (facts plan.now) t (board_of left.old over.old stopped.old holder.now waits.now) (Event.Use v 1 ∷ [])) out.old at }
    ensures going { GoingOf plan.now times.now left.new over.new stopped.new holder.now waits.now marks.new }
    ensures made { Made (facts plan.now) on t (run_in left.old over.old stopped.old holder.now waits.now marks.old) (run_in left.new over.new stopped.new holder.now waits.now marks.new) (Event.Use v 1 ∷ []) out.old at out.new result }
    ensures marks_unchanged { done_in marks.new ≡ done_in marks.old }
{
    let holds = clock_sets::has(board_seats::at(marks, 3), v);
    let a = board_sures::use_sure(plan, left, over, stopped, holder, v, holds);
    after_use(plan.overrun, left, over, stopped, marks, v);
    clock_lines::tell(on, out, at, t, Event::Use { v, t: 1 }, a)
}

// Each VCPU of core c with budget and no ready task loses a tick.
pub fn idle_uses(
    on: bool,
    plan: &PlanView,
    times: &[u64],
    left: &mut [u64],
    over: &mut [u64],
    stopped: &mut [bool],
    holder: &[u16],
    waits: &[u8],
    marks: &mut [u64],
    c: u64,
    t: u64,
    out: &mut [u8],
    at: usize,
) -> usize
    requires c_bound { (c ≤ 3) × (under_p plan.now.policy ≡ true) × GoingOf plan.now times.now left.old over.old stopped.old holder.now waits.now marks.old }
    requires room_at { RoomAt on (lines_at (facts plan.now) t (board_of left.old over.old stopped.old holder.now waits.now) (idle_uses (timing plan.now times.now) c (board_of left.old over.old stopped.old holder.now waits.now) (done_in marks.old))) out.old at }
    ensures going { GoingOf plan.now times.now left.new over.new stopped.new holder.now waits.now marks.new }
    ensures made { Made (facts plan.now) on t (run_in left.old over.old stopped.old holder.now waits.now marks.old) (run_in left.new over.new stopped.new holder.now waits.now marks.new) (idle_uses (timing plan.now times.now) c (board_of left.old over.old stopped.old holder.now waits.now) (done_in marks.old)) out.old at out.new result }
    ensures marks_unchanged { done_in marks.new ≡ done_in marks.old }
{
    let mut w = at;
    let mut rest = clock_picks::idlers(marks, c);
    while rest != 0 {
        let v = clock_sets::lowest_in(rest);
        if 1 < board_seats::figure(left, v) {
            let a = board_sures::use_within(plan, left, over, stopped, holder, v);
            w = clock_lines::tell(on, out, w, t, Event::Use { v, t: 1 }, a);
        } else {
            w = use_one(
                on, plan, times, left, over, stopped, holder, waits, marks, v, t, out, w,
            );
        }
        rest = clock_sets::without(rest, v);
    }
    w
}
