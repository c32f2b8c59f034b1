// The clock's lists before tick 0: the board at first, every job done, what is kept beside the board to go with that, and that all recur at tick 0.
#![tactic(auto)]

ghost use Rattle.std.specs.Prelude.{◌≡◌, length};
ghost use Rattle.plan.specs.declared.Policy.{Policy};
ghost use Rattle.clock_times.specs.Times.{Paired, Ordered};
ghost use Rattle.clock_paced.specs.Paced.{Paced};
ghost use Rattle.clock_going.specs.Going.{timing_by};
ghost use Rattle.clock_starts.specs.Starts.{Started};

use plan::OverrunChoice;

// Writes the lists of a run before tick 0.
pub fn start(
    choice: OverrunChoice,
    view: &[u64],
    times: &[u64],
    left: &mut [u64],
    over: &mut [u64],
    stopped: &mut [bool],
    holder: &mut [u16],
    waits: &mut [u8],
    marks: &mut [u64],
    nexts: &mut [u64],
)
    requires { (length left.old ≡ 16) × (length over.old ≡ 16) × (length stopped.old ≡ 16) × (length holder.old ≡ 32) × (length waits.old ≡ 128) × (length marks.old ≡ 424) × (length nexts.old ≡ 162) × Paired view.now times.now × Ordered times.now × ((p : Policy) → Paced (timing_by p choice view.now times.now)) }
    ensures { Started choice view.now times.now left.new over.new stopped.new holder.new waits.new marks.new nexts.new }
{
    clock_firsts::put_vcpus(view, left, over, stopped);
    clock_firsts::put_holders(holder);
    clock_firsts::put_waits(waits);
    clock_supplies::clear_marks(times, marks);
    clock_firsts::put_lengths(times, marks);
    clock_firsts::put_supplies(choice, left, over, stopped, marks);
    clock_firsts::put_nexts(times, nexts);
    clock_firsts::put_bounds(nexts);
}
