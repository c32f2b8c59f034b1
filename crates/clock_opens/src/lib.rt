// How a tick opens on the clock: the tops that are due, then the releases, where no job is missed. What they are stands in specs/Clock of `clock_rules`, what holds of the lists in specs/Opens of `clock_releases`.
#![tactic(auto)]

ghost use Rattle.std.specs.Prelude.{◌≤◌};
ghost use Rattle.board_rules.specs.PlanViews.{facts};
ghost use Rattle.clock_rules.specs.Clock.{tops};
ghost use Rattle.clock_rules.specs.Trace.{lines_at};
ghost use Rattle.clock_marks.specs.Marks.{board_of};
ghost use Rattle.clock_lines.specs.Told.{RoomAt};
ghost use Rattle.clock_nexts.specs.Nexts.{Nexts};
ghost use Rattle.clock_going.specs.Lent.{GoingOf, timing};
ghost use Rattle.clock_releases.specs.Opens.{Opening};

use board_rules::PlanView;
use clock_releases::Opened;

// Tick t opens: its tops, then its releases; where a job is missed, the tops alone. Where nothing is due nothing is written.
pub fn open(
    on: bool,
    plan: &PlanView,
    times: &[u64],
    left: &mut [u64],
    over: &mut [u64],
    stopped: &mut [bool],
    holder: &[u16],
    waits: &[u8],
    marks: &mut [u64],
    nexts: &mut [u64],
    t: u64,
    out: &mut [u8],
    at: usize,
) -> Opened
    requires { GoingOf plan.now times.now left.old over.old stopped.old holder.now waits.now marks.old × Nexts times.now nexts.old t × (t ≤ 1000000) × RoomAt on (lines_at (facts plan.now) t (board_of left.old over.old stopped.old holder.now waits.now) (tops (timing plan.now times.now) t)) out.old at }
    ensures { Opening plan.now.policy plan.now.overrun plan.now.view.now times.now on t left.old over.old stopped.old holder.now waits.now marks.old out.old at left.new over.new stopped.new marks.new nexts.new out.new result.at result.v result.n }
{
    let w = clock_tops::tops_due(
        on, plan, times, left, over, stopped, holder, waits, marks, nexts, t, out, at,
    );
    clock_releases::jobs_due(times, marks, nexts, t, w)
}
