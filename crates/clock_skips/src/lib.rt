// A step of the run: a tick is opened, or ticks that no core's turn changes are skipped. What is said of it stands in specs/Skips.
#![tactic(auto)]

ghost use Rattle.std.specs.Prelude.{◌<◌, ◌≤◌};
ghost use Rattle.clock_marks.specs.Marks.{board_of, run_in, done_in};
ghost use Rattle.clock_going.specs.Lent.{GoingOf, timing};
ghost use Rattle.clock_spends.specs.Spends.{Counted};
ghost use Rattle.clock_skips.specs.Skips.{Coming, Stepping};

use board_rules::PlanView;

// What a step of the run leaves: the task whose job is missed, 0 and 0 for none; whether the turns of the cores are still to be made, or, where the tick was opened, looked at; and the tick that it comes to with them.
#[derive(Clone, Copy)]
pub struct Stepped {
    pub v: u64,
    pub n: u64,
    pub turns: bool,
    pub look: bool,
    pub to: u64,
}

// Opens tick t of the run to h where something recurs at it; else spends as many ticks at once as no core's turn changes.
pub fn stride(
    plan: &PlanView,
    times: &[u64],
    left: &mut [u64],
    over: &mut [u64],
    stopped: &mut [bool],
    holder: &mut [u16],
    waits: &mut [u8],
    marks: &mut [u64],
    nexts: &mut [u64],
    plain: &mut [u64],
    t: u64,
    h: u64,
) -> Stepped
    requires { GoingOf plan.now times.now left.old over.old stopped.old holder.old waits.old marks.old × Coming times.now nexts.old t × (t < h) × (h ≤ 1000000) × Counted (timing plan.now times.now) (board_of left.old over.old stopped.old holder.old waits.old) (done_in marks.old) plain.old }
    ensures { Stepping plan.now.policy plan.now.overrun plan.now.view.now times.now h t (run_in left.old over.old stopped.old holder.old waits.old marks.old) nexts.old left.new over.new stopped.new holder.new waits.new marks.new nexts.new plain.new result.v result.n result.to result.turns result.look }
{
    let soon = clock_reaches::sooner(board_seats::at(nexts, 160), board_seats::at(nexts, 161));
    if soon <= t {
        let mut none = [0u8; 1];
        let o = clock_opens::open(
            false, plan, times, left, over, stopped, holder, waits, marks, nexts, t, &mut none, 0,
        );
        let v = o.v;
        let n = o.n;
        if n != 0 {
            return Stepped {
                v,
                n,
                turns: false,
                look: true,
                to: t,
            };
        }
        clock_spends::forget(plain);
        return Stepped {
            v: 0,
            n: 0,
            turns: true,
            look: true,
            to: t,
        };
    }
    let most = clock_reaches::sooner(soon, h);
    let k = clock_reaches::least(plain, board_seats::sub(most, t));
    if k == 0 {
        return Stepped {
            v: 0,
            n: 0,
            turns: true,
            look: false,
            to: t + 1,
        };
    }
    clock_spends::spend_all(plan.policy, left, marks, plain, k);
    Stepped {
        v: 0,
        n: 0,
        turns: false,
        look: false,
        to: t + k,
    }
}
