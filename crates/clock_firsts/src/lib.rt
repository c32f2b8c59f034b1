// The parts of the clock's lists before tick 0: the board at first, every job done, the supplies that go with that, and that all recur at tick 0.
#![tactic(auto)]

ghost use Rattle.std.specs.Prelude.{◌≡◌, false, length};
ghost use Rattle.laws.specs.Range.{list_to};
ghost use Rattle.board_seats.specs.Seats.{budget_of, overrun_of};
ghost use Rattle.clock_marks.specs.Marks.{Sized};
ghost use Rattle.clock_nexts.specs.Nexts.{Wrote};
ghost use Rattle.clock_firsts.specs.Firsts.{first_next, first_nexts, DoneTo, SuppliedTo};

use plan::OverrunChoice;

// Each VCPU has its budget and its overrun, and has not stopped.
pub fn put_vcpus(view: &[u64], left: &mut [u64], over: &mut [u64], stopped: &mut [bool])
    requires { (length left.old ≡ 16) × (length over.old ≡ 16) × (length stopped.old ≡ 16) }
    ensures { (left.new ≡ list_to 16 (λ v. budget_of view.now v)) × (over.new ≡ list_to 16 (λ v. overrun_of view.now v)) × (stopped.new ≡ list_to 16 (λ v. false)) }
{
    for v in 0..16 {
        let name = v as u64 + 1;
        left[v] = board_seats::budget(view, name);
        over[v] = board_seats::overrun(view, name);
    }
    stopped.fill(false);
}

// Nobody holds a mutex.
pub fn put_holders(holder: &mut [u16])
    requires { length holder.old ≡ 32 }
    ensures { holder.new ≡ list_to 32 (λ m. 0) }
{
    holder.fill(0);
}

// Nobody waits.
pub fn put_waits(waits: &mut [u8])
    requires { length waits.old ≡ 128 }
    ensures { waits.new ≡ list_to 128 (λ s. 0) }
{
    waits.fill(0);
}

// Every job has done all its lengths.
pub fn put_lengths(times: &[u64], marks: &mut [u64])
    requires { (length times.now ≡ 3360) × (length marks.old ≡ 424) }
    ensures { DoneTo times.now marks.old marks.new 128 }
{
    marks[164..292].copy_from_slice(&times[160..288]);
}

// Each VCPU stands in the sets of those with budget and with overrun to spare, as the board's arrays say.
pub fn put_supplies(
    choice: OverrunChoice,
    left: &[u64],
    over: &[u64],
    stopped: &[bool],
    marks: &mut [u64],
)
    requires { Sized marks.old }
    ensures { SuppliedTo choice left.now over.now stopped.now marks.old marks.new 17 }
{
    for v in 1..=16 {
        clock_supplies::put_supply(choice, left, over, stopped, marks, v);
    }
}

// The first next of one with period p.
fn first_next(p: u64) -> u64
    ensures { result ≡ first_next p }
{
    if 0 < p { 0 } else { 3000000 }
}

// Each VCPU and task recurs at tick 0.
pub fn put_nexts(times: &[u64], nexts: &mut [u64])
    requires { (length times.now ≡ 3360) × (length nexts.old ≡ 162) }
    ensures { Wrote (first_nexts times.now) nexts.old nexts.new 0 144 }
{
    for i in 0..144 {
        nexts[i] = first_next(times[16 + i]);
    }
}

// No bound of them is above tick 0.
pub fn put_bounds(nexts: &mut [u64])
    requires { length nexts.old ≡ 162 }
    ensures { Wrote (λ j. 0) nexts.old nexts.new 144 162 }
{
    nexts[144..162].fill(0);
}
