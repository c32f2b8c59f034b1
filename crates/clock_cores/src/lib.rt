// The turns of cores 0 to 3 on the clock, on the board's arrays and what is kept beside them. What they are stands in specs/Clock of `clock_rules`.
#![tactic(auto)]

ghost use Rattle.board_rules.specs.PlanViews.{facts};
ghost use Rattle.clock_rules.specs.Clock as clock;
ghost use Rattle.clock_rules.specs.Trace.{lines_at};
ghost use Rattle.clock_marks.specs.Marks.{board_of, run_in};
ghost use Rattle.clock_lines.specs.Told.{RoomAt};
ghost use Rattle.clock_going.specs.Lent.{GoingOf, timing};
ghost use Rattle.clock_turns.specs.Lent.{TurnedOf};

use board_rules::PlanView;

// Cores 0 to 3 take their turns.
pub fn turns(
    on: bool,
    plan: &PlanView,
    times: &[u64],
    left: &mut [u64],
    over: &mut [u64],
    stopped: &mut [bool],
    holder: &mut [u16],
    waits: &mut [u8],
    marks: &mut [u64],
    t: u64,
    out: &mut [u8],
    at: usize,
) -> usize
    requires going { GoingOf plan.now times.now left.old over.old stopped.old holder.old waits.old marks.old }
    requires room_at { RoomAt on (lines_at (facts plan.now) t (board_of left.old over.old stopped.old holder.old waits.old) (clock.turns (timing plan.now times.now) clock.cores (run_in left.old over.old stopped.old holder.old waits.old marks.old))) out.old at }
    ensures { TurnedOf plan.now times.now on t (run_in left.old over.old stopped.old holder.old waits.old marks.old) (clock.after_turns (timing plan.now times.now) clock.cores (run_in left.old over.old stopped.old holder.old waits.old marks.old)) (clock.turns (timing plan.now times.now) clock.cores (run_in left.old over.old stopped.old holder.old waits.old marks.old)) left.new over.new stopped.new holder.new waits.new marks.new out.old at out.new result }
{
    let mut w = at;
    for c in 0u64..4 {
        let r = clock_turns::turn(
            on, plan, times, left, over, stopped, holder, waits, marks, c, 0, 0, t, out, w,
        );
        w = r.at;
    }
    w
}
