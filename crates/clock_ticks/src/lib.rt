// A tick of the clock on the board's arrays, what is kept beside them and when each recurs next. What it is stands in specs/Clock and specs/Trace of `clock_rules`, what is said of the function in specs/Ticks.
#![tactic(auto)]

ghost use Rattle.std.specs.Prelude.{◌≤◌};
ghost use Rattle.clock_rules.specs.Trace.{tick_text};
ghost use Rattle.clock_marks.specs.Marks.{run_in};
ghost use Rattle.clock_lines.specs.Told.{RoomAt};
ghost use Rattle.clock_nexts.specs.Nexts.{Nexts};
ghost use Rattle.clock_going.specs.Lent.{GoingOf, timing};
ghost use Rattle.clock_ticks.specs.Ticks.{Ticking};

use board_rules::PlanView;

// What a tick leaves: where its text ends, and the task whose job is missed, 0 and 0 for none.
#[derive(Clone, Copy)]
pub struct Ticked {
    pub at: usize,
    pub v: u64,
    pub n: u64,
}

// Tick t: its tops and releases, then the turns of its cores. Its text stands at the start of the buffer where `on`.
pub fn tick(
    on: bool,
    plan: &PlanView,
    times: &[u64],
    left: &mut [u64],
    over: &mut [u64],
    stopped: &mut [bool],
    holder: &mut [u16],
    waits: &mut [u8],
    marks: &mut [u64],
    nexts: &mut [u64],
    t: u64,
    out: &mut [u8],
) -> Ticked
    requires going { GoingOf plan.now times.now left.old over.old stopped.old holder.old waits.old marks.old × Nexts times.now nexts.old t × (t ≤ 1000000) }
    requires room_at { RoomAt on (tick_text (timing plan.now times.now) t (run_in left.old over.old stopped.old holder.old waits.old marks.old)) out.old 0 }
    ensures { Ticking plan.now.policy plan.now.overrun plan.now.view.now times.now on t (run_in left.old over.old stopped.old holder.old waits.old marks.old) out.old left.new over.new stopped.new holder.new waits.new marks.new nexts.new out.new result.at result.v result.n }
{
    let o = clock_opens::open(
        on, plan, times, left, over, stopped, holder, waits, marks, nexts, t, out, 0,
    );
    let w = o.at;
    let v = o.v;
    let n = o.n;
    if n != 0 {
        return Ticked { at: w, v, n };
    }
    let e = clock_cores::turns(
        on, plan, times, left, over, stopped, holder, waits, marks, t, out, w,
    );
    Ticked { at: e, v: 0, n: 0 }
}
