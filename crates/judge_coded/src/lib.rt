// What a judge of a plan's items has seen, by value: numbers by place where the rules of `plan` keep rows. What is wrong with an item after it stands in specs/Coded;
// that this agrees with the rules of `plan`, in specs/Agrees.
#![tactic(auto)]

ghost use Rattle.std.specs.Prelude.{◌≡◌};
ghost use Rattle.plan.specs.Rules as rules;
ghost use Rattle.plan.specs.Rules.{vcpu_fits};
ghost use Rattle.judge_coded.specs.Coded as coded;

use plan::{MAX_CORE, MAX_GUEST, MAX_M, MAX_PERIOD, MAX_V, within};

// Places by v, one for each number from 0 to its limit, so that a number is its own place.
pub const VCPUS: usize = MAX_V as usize + 1;

// Places by guest.
pub const GUESTS: usize = MAX_GUEST as usize + 1;

// Places by m.
pub const MUTEXES: usize = MAX_M as usize + 1;

// Places by m and guest, from 1 to their limits.
pub const OPENINGS: usize = MAX_M as usize * MAX_GUEST as usize;

// A place past the last opening.
pub const NOWHERE: u64 = MAX_M * MAX_GUEST;

// The owner of a global mutex, above every v; a local mutex has its v, an undeclared one 0.
pub const GLOBAL: u64 = MAX_V + 1;

// What is seen after some items.
#[derive(Clone, Copy)]
pub struct Seen {
    // By the last line (specs/Rules of `plan`).
    pub phase: u64,
    // By v: the guest of the VCPU, 0 where it is undeclared. The last v.
    pub guests: [u8; VCPUS],
    pub vcpu: u64,
    // By guest: 1 where it has a VCPU.
    pub hosted: [u8; GUESTS],
    // By m: the owner. The last m.
    pub owners: [u8; MUTEXES],
    pub mutex: u64,
    // By m and guest: 1 where it is opened. The last pair.
    pub opens: [u8; OPENINGS],
    pub shared: u64,
    pub sharer: u64,
    // The section's guest, and v and n of its last task.
    pub guest: u64,
    pub v: u64,
    pub n: u64,
    // The tasks of the plan, and the locks of the last task.
    pub tasks: u64,
    pub locks: u64,
}

// Are both in range, from 1 on?
pub fn ranged(x: u64, hi: u64, y: u64, top: u64) -> bool
    ensures { result ≡ coded.ranged x hi y top }
{
    within(x, 1, hi) & within(y, 1, top)
}

// Does the pair (c, d) come after (a, b)?
pub fn rises(a: u64, b: u64, c: u64, d: u64) -> bool
    ensures { result ≡ rules.rises a b c d }
{
    (a < c) | ((a == c) & (b < d))
}

// Where the openings have m and guest; past their end for what is none.
pub fn slot(m: u64, guest: u64) -> u64
    ensures { result ≡ coded.slot m guest }
{
    if ranged(m, MAX_M, guest, MAX_GUEST) {
        (m - 1) * MAX_GUEST + (guest - 1)
    } else {
        NOWHERE
    }
}

// Are the numbers of a VCPU in range, its budget from 1 to its period?
pub fn vcpu_fits(v: u64, guest: u64, core: u64, budget: u64, period: u64) -> bool
    ensures { result ≡ vcpu_fits (record { v = v; guest = guest; core = core; budget = budget; period = period }) }
{
    within(v, 1, MAX_V)
        & (within(guest, 1, MAX_GUEST)
            & (within(core, 0, MAX_CORE)
                & (within(period, 1, MAX_PERIOD) & within(budget, 1, period))))
}
