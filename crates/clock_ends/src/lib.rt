// A run to its horizon, on the board's arrays, what is kept beside them and when each recurs next. What it is stands in specs/Clock of `clock_rules`.
#![tactic(auto)]

ghost use Rattle.std.specs.Prelude.{◌≡◌, ◌≤◌};
ghost use Rattle.clock_rules.specs.Clock.{run_from};
ghost use Rattle.clock_marks.specs.Marks.{run_in};
ghost use Rattle.clock_nexts.specs.Nexts.{Nexts};
ghost use Rattle.clock_going.specs.Lent.{GoingOf, timing};

use board_rules::PlanView;
use clock_rules::RunAnswer;

// The run to horizon h, told nowhere.
pub fn run(
    plan: &PlanView,
    times: &[u64],
    left: &mut [u64],
    over: &mut [u64],
    stopped: &mut [bool],
    holder: &mut [u16],
    waits: &mut [u8],
    marks: &mut [u64],
    nexts: &mut [u64],
    h: u64,
) -> RunAnswer
    requires { GoingOf plan.now times.now left.old over.old stopped.old holder.old waits.old marks.old × Nexts times.now nexts.old 0 × (h ≤ 1000000) }
    ensures { result ≡ run_from (timing plan.now times.now) h 0 (run_in left.old over.old stopped.old holder.old waits.old marks.old) }
{
    let mut plain = [0u64; 12];
    let mut t: u64 = 0;
    while t < h {
        let s = clock_skips::stride(
            plan, times, left, over, stopped, holder, waits, marks, nexts, &mut plain, t, h,
        );
        let v = s.v;
        let n = s.n;
        if n != 0 {
            return RunAnswer::Missed { tick: t, v, n };
        }
        if !s.turns {
            t = s.to;
            continue;
        }
        clock_strides::turns_on(
            plan, times, left, over, stopped, holder, waits, marks, &mut plain, t, s.look,
        );
        t = s.to;
    }
    RunAnswer::Ended
}
