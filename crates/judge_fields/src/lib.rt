// The field for which an item of a plan is refused. What it means stands in specs/Fields of `plan`.
#![tactic(auto)]

ghost use Rattle.std.specs.Prelude.{◌≡◌};
ghost use Rattle.plan.specs.Fields as fields;
ghost use Rattle.judge_coded.specs.Coded.{coded, item};

use judge_coded::Seen;
use judge_faults::is_global;
use judge_ranges::{out, range_of};
use plan::{Kind, Refusal};

// Missing: the VCPU of a local mutex, of `open` the mutex where it is not global, else the guest, and of any other line its first number.
fn missing_of(global: bool, kind: Kind) -> u64
    ensures { result ≡ fields.missing global kind }
{
    match kind {
        Kind::MutexL => 4,
        Kind::OpenLine => out(global, 2, 3),
        _ => 2,
    }
}

// The field for which an item is refused by r; 0 where it is refused whole.
#[tactic(auto, unfolding(plan::specs::Fields::field_of))]
pub fn field_of(t: Seen, kind: Kind, a: u64, b: u64, c: u64, d: u64, e: u64, r: Refusal) -> u64
    ensures { result ≡ coded.field t (item kind a b c d e) r }
{
    match r {
        Refusal::Number => text_written::unwritten_of(kind, a, b, c, d, e),
        Refusal::Range => range_of(kind, a, b, c, d, e),
        Refusal::Missing => missing_of(is_global(t, a), kind),
        Refusal::Outside => 2,
        _ => 0,
    }
}
