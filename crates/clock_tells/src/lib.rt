// A tick of the clock told on standard output.
#![tactic(auto)]

ghost use Rattle.std.specs.Prelude.{◌≡◌, true, ◌≤◌, length};
ghost use Rattle.board_rules.specs.PlanViews.{facts};
ghost use Rattle.log_answers.specs.Small.{Small};
ghost use Rattle.clock_nexts.specs.Nexts.{Nexts};
ghost use Rattle.clock_marks.specs.Marks.{run_in};
ghost use Rattle.clock_going.specs.Lent.{GoingOf};
ghost use Rattle.clock_ticks.specs.Ticks.{Over};

use board_rules::PlanView;
use std::io;

// Tells tick t, and the last line where a job is missed; returns whether the run goes on, or the error of a text that cannot be written, which is told.
pub fn tell_tick(
    rt: &(impl Print + Eprint),
    plan: &PlanView,
    times: &[u64],
    left: &mut [u64],
    over: &mut [u64],
    stopped: &mut [bool],
    holder: &mut [u16],
    waits: &mut [u8],
    marks: &mut [u64],
    nexts: &mut [u64],
    t: u64,
    out: &mut [u8],
) -> io::Result<bool>
    requires { GoingOf plan.now times.now left.old over.old stopped.old holder.old waits.old marks.old × Nexts times.now nexts.old t × Small (facts plan.now) × (t ≤ 1000000) × (length out.old ≡ 131072) }
    ensures over { (result ≡ Ok true) → Over plan.now.policy plan.now.overrun plan.now.view.now times.now t (run_in left.old over.old stopped.old holder.old waits.old marks.old) left.new over.new stopped.new holder.new waits.new marks.new nexts.new }
    ensures out_len { (result ≡ Ok true) → length out.new ≡ 131072 }
{
    let k = clock_ticks::tick(
        true, plan, times, left, over, stopped, holder, waits, marks, nexts, t, out,
    );
    let w = k.at;
    let v = k.v;
    let n = k.n;
    program::write(rt, &out[..w])?;
    if n != 0 {
        let e = clock_lines::missed_line(out, t, v, n);
        program::print(rt, &out[..e])?;
        return Ok(false);
    }
    Ok(true)
}
