// A core's turn on the clock, on the board's arrays and what is kept beside them. What it is stands in specs/Clock of `clock_rules`, what is said of each function in specs/Turned.
#![tactic(auto)]

ghost use Rattle.std.specs.Prelude.{◌≡◌, ◌≤◌};
ghost use Rattle.board_reserves.specs.Supplies.{under_p};
ghost use Rattle.board_rules.specs.Board.{next_of};
ghost use Rattle.board_rules.specs.PlanViews.{facts};
ghost use Rattle.board_events.specs.Events.{answers};
ghost use Rattle.clock_rules.specs.Clock as clock;
ghost use Rattle.clock_rules.specs.Trace.{lines_at};
ghost use Rattle.clock_marks.specs.Marks.{board_of, run_in, done_in};
ghost use Rattle.clock_lines.specs.Told.{RoomAt};
ghost use Rattle.clock_steps.specs.Hands.{any_hands_on};
ghost use Rattle.clock_going.specs.Lent.{GoingOf, timing};
ghost use Rattle.clock_asks.specs.Asked.{KnownPick};
ghost use Rattle.clock_turns.specs.Turned.{Uses};
ghost use Rattle.clock_turns.specs.Lent.{TurnedOf, DidOf};

use board_rules::PlanView;
use clock_works::Worked;
use plan::Policy;

// Policy P holds.
fn under_p(policy: Policy) -> bool
    ensures { result ≡ under_p policy }
{
    match policy {
        Policy::Periodic => true,
        Policy::Deferrable => false,
    }
}

// Under P each VCPU of core c with budget and no ready task loses a tick; under D nobody does.
fn lose(
    on: bool,
    plan: &PlanView,
    times: &[u64],
    left: &mut [u64],
    over: &mut [u64],
    stopped: &mut [bool],
    holder: &[u16],
    waits: &[u8],
    marks: &mut [u64],
    c: u64,
    t: u64,
    out: &mut [u8],
    at: usize,
) -> usize
    requires going { GoingOf plan.now times.now left.old over.old stopped.old holder.now waits.now marks.old × (c ≤ 3) }
    requires room_at { RoomAt on (lines_at (facts plan.now) t (board_of left.old over.old stopped.old holder.now waits.now) (clock.idle_uses (timing plan.now times.now) c (board_of left.old over.old stopped.old holder.now waits.now) (done_in marks.old))) out.old at }
    ensures { DidOf plan.now times.now on t (run_in left.old over.old stopped.old holder.now waits.now marks.old) (clock.idle_uses (timing plan.now times.now) c (board_of left.old over.old stopped.old holder.now waits.now) (done_in marks.old)) (done_in marks.old) left.new over.new stopped.new holder.now waits.now marks.new out.old at out.new result }
{
    if under_p(plan.policy) {
        return clock_uses::idle_uses(
            on, plan, times, left, over, stopped, holder, waits, marks, c, t, out, at,
        );
    }
    at
}

// Task (v, n), which was picked, uses one tick; nobody does where v is 0.
fn works(
    on: bool,
    plan: &PlanView,
    times: &[u64],
    left: &mut [u64],
    over: &mut [u64],
    stopped: &mut [bool],
    holder: &mut [u16],
    waits: &mut [u8],
    marks: &mut [u64],
    v: u64,
    n: u64,
    t: u64,
    out: &mut [u8],
    at: usize,
) -> Worked
    requires going { GoingOf plan.now times.now left.old over.old stopped.old holder.old waits.old marks.old × Uses (timing plan.now times.now) (board_of left.old over.old stopped.old holder.old waits.old) (done_in marks.old) v n }
    requires room_at { RoomAt on (lines_at (facts plan.now) t (board_of left.old over.old stopped.old holder.old waits.old) (clock.work (timing plan.now times.now) (done_in marks.old) (next_of v n))) out.old at }
    ensures did { DidOf plan.now times.now on t (run_in left.old over.old stopped.old holder.old waits.old marks.old) (clock.work (timing plan.now times.now) (done_in marks.old) (next_of v n)) (clock.work_done (done_in marks.old) (next_of v n)) left.new over.new stopped.new holder.new waits.new marks.new out.old at out.new result.at }
    ensures handed_value { result.handed ≡ any_hands_on (answers (facts plan.now) (board_of left.old over.old stopped.old holder.old waits.old) (clock.work (timing plan.now times.now) (done_in marks.old) (next_of v n))) }
{
    if v == 0 {
        return Worked { at, handed: false };
    }
    clock_works::work(
        on, plan, times, left, over, stopped, holder, waits, marks, v, n, t, out, at,
    )
}

// Core c's turn, with where the text goes on after it and whether a mutex was handed on in it: (hv, hn), where hv is not 0, is known to be picked first.
pub fn turn(
    on: bool,
    plan: &PlanView,
    times: &[u64],
    left: &mut [u64],
    over: &mut [u64],
    stopped: &mut [bool],
    holder: &mut [u16],
    waits: &mut [u8],
    marks: &mut [u64],
    c: u64,
    hv: u64,
    hn: u64,
    t: u64,
    out: &mut [u8],
    at: usize,
) -> Worked
    requires going { GoingOf plan.now times.now left.old over.old stopped.old holder.old waits.old marks.old × (c ≤ 3) }
    requires room_at { RoomAt on (lines_at (facts plan.now) t (board_of left.old over.old stopped.old holder.old waits.old) (clock.turn (timing plan.now times.now) c (run_in left.old over.old stopped.old holder.old waits.old marks.old))) out.old at }
    requires known_pick { KnownPick (timing plan.now times.now) c (board_of left.old over.old stopped.old holder.old waits.old) (done_in marks.old) hv hn }
    ensures turned { TurnedOf plan.now times.now on t (run_in left.old over.old stopped.old holder.old waits.old marks.old) (clock.after_turn (timing plan.now times.now) c (run_in left.old over.old stopped.old holder.old waits.old marks.old)) (clock.turn (timing plan.now times.now) c (run_in left.old over.old stopped.old holder.old waits.old marks.old)) left.new over.new stopped.new holder.new waits.new marks.new out.old at out.new result.at }
    ensures handed_value { result.handed ≡ any_hands_on (answers (facts plan.now) (board_of left.old over.old stopped.old holder.old waits.old) (clock.turn (timing plan.now times.now) c (run_in left.old over.old stopped.old holder.old waits.old marks.old))) }
{
    let p = clock_asks::asks(
        on, plan, times, left, over, stopped, holder, waits, marks, c, hv, hn, t, out, at,
    );
    let w = lose(
        on, plan, times, left, over, stopped, holder, waits, marks, c, t, out, p.at,
    );
    works(
        on, plan, times, left, over, stopped, holder, waits, marks, p.v, p.n, t, out, w,
    )
}
