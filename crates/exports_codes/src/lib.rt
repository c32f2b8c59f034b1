// An answer of a call as one number, for callers outside: the bytes written, or how a run ends, or the refusal's number, negated.
#![tactic(auto)]

ghost use Rattle.std.specs.Prelude.{◌≡◌, ◌≤◌, ◌<◌, ◌^◌, ltb, length};
ghost use Rattle.listing_lines.specs.Into.{bytes_in};
ghost use Rattle.exports_codes.specs.Exported.{negated, exported, run_exported, missed_left};

use clock_rules::RunAnswer;
use plan::Refusal;

// A refusal as a number below 0.
fn negated(r: Refusal) -> i64
    ensures { result ≡ negated r }
{
    match r {
        Refusal::Shape => -1,
        Refusal::Number => -2,
        Refusal::Range => -3,
        Refusal::Order => -4,
        Refusal::Missing => -5,
        Refusal::Outside => -6,
        Refusal::TooMany => -7,
        Refusal::Room => -8,
        Refusal::Foreign => -9,
        Refusal::Unknown => -10,
        Refusal::Unlisted => -11,
        Refusal::Asleep => -12,
        Refusal::Busy => -13,
        Refusal::NotHolder => -14,
        Refusal::Supply => -15,
    }
}

// An answer as one number.
pub fn exported(a: Result<usize, Refusal>) -> i64
    requires { bytes_in a < 2 ^ 63 }
    ensures { result ≡ exported a }
{
    match a {
        Ok(n) => n as i64,
        Err(r) => negated(r),
    }
}

// How a run ends, as one number: 0 before its horizon, 1 at a missed job.
pub fn run_exported(a: RunAnswer) -> i64
    ensures { result ≡ run_exported a }
{
    match a {
        RunAnswer::Ended => 0,
        RunAnswer::Missed {
            tick: _,
            v: _,
            n: _,
        } => 1,
        RunAnswer::NoRun(r) => negated(r),
    }
}

// Are n places too few for the three numbers of a missed job?
pub fn too_few(n: usize) -> bool
    ensures { result ≡ ltb n 3 }
{
    n < 3
}

// Leaves the tick, v and n of a missed job in the first three places.
pub fn leave_missed(a: RunAnswer, missed: &mut [u64])
    requires { 3 ≤ length missed.old }
    ensures { missed.new ≡ missed_left a missed.old }
{
    match a {
        RunAnswer::Ended => {}
        RunAnswer::Missed { tick, v, n } => {
            missed[0] = tick;
            missed[1] = v;
            missed[2] = n;
        }
        RunAnswer::NoRun(_) => {}
    }
}
