// The numbers of one line: how many a line of a kind has, and which of them are not written as they should be. What that means stands in specs/ of `plan`.
#![tactic(auto)]

ghost use Rattle.std.specs.Prelude.{◌≡◌};
ghost use Rattle.plan.specs.Line.{shape, size, written, nums_of};
ghost use Rattle.plan.specs.Fields.{unwritten};
ghost use Rattle.text_written.specs.Code.{spot_of};

use plan::{BAD, Kind};

// How many numbers a line of a kind has.
#[tactic(auto, unfolding(plan::specs::Line::size, plan::specs::Line::shape))]
pub fn size_of(kind: Kind) -> u64
    ensures { result ≡ size (shape kind) }
{
    match kind {
        Kind::PlanLine
        | Kind::PolicyPO
        | Kind::PolicyPN
        | Kind::PolicyDO
        | Kind::PolicyDN
        | Kind::EndLine => 0,
        Kind::MutexG | Kind::GuestLine | Kind::RunLine | Kind::TopLine => 1,
        Kind::MutexL | Kind::OpenLine | Kind::LockLine | Kind::UseLine | Kind::ShowLine => 2,
        Kind::TaskLine | Kind::AskLine | Kind::FreeLine => 3,
        Kind::VcpuLine => 5,
    }
}

// Are the numbers of a line of this kind written as they should be?
pub fn written_of(kind: Kind, a: u64, b: u64, c: u64, d: u64, e: u64) -> bool
    ensures { result ≡ written (shape kind) (nums_of kind a b c d e) }
{
    let n = size_of(kind);
    let last = ((n <= 3) | (d < BAD)) & ((n <= 4) | (e < BAD));
    ((n <= 0) | (a < BAD)) & (((n <= 1) | (b < BAD)) & (((n <= 2) | (c < BAD)) & last))
}

// Where there is a number x: its field where it is not written as it should be, else what follows it.
fn spot(on: bool, x: u64, rest: u64) -> u64
    ensures { result ≡ spot_of on x rest }
{
    if on {
        if x < BAD { rest } else { x - BAD }
    } else {
        0
    }
}

// The field of the first number of a line of this kind that is not written as it should be; 0 where there is none.
pub fn unwritten_of(kind: Kind, a: u64, b: u64, c: u64, d: u64, e: u64) -> u64
    ensures { result ≡ unwritten (nums_of kind a b c d e) }
{
    let n = size_of(kind);
    let later = spot(2 < n, c, spot(3 < n, d, spot(4 < n, e, 0)));
    spot(0 < n, a, spot(1 < n, b, later))
}
