// One tick of a VCPU on the board's lent arrays, of a use that is known to have no fault. What an event does stands in specs/Board of `board_rules`.
#![tactic(auto)]

ghost use Rattle.std.specs.Prelude.{◌≡◌, true, List, ℕ, ◌-◌, ◌<◌, length, get_or, Ok};
ghost use Rattle.board_seats.specs.Seats.{has_vcpu};
ghost use Rattle.board_reserves.specs.Supplies.{use_fault_at};
ghost use Rattle.board_walks.specs.Walks.{holds_global};
ghost use Rattle.board_rules.specs.PlanViews.{facts};
ghost use Rattle.board_rules.specs.Settle.{Marked};
ghost use Rattle.board_rules.specs.Lent.{board_of, outcome_of};
ghost use Rattle.board_rules.specs.Board.{step};

use board_rules::{BoardAnswer, Event, PlanView};
use board_seats::sub;

// `use v 1` on lent arrays, of a use that has no fault, where `holds` says whether the tasks of v hold a global mutex: no mutex is walked over.
pub fn use_sure(
    plan: &PlanView,
    left: &mut [u64],
    over: &mut [u64],
    stopped: &mut [bool],
    holder: &[u16],
    v: u64,
    holds: bool,
) -> BoardAnswer
    requires left_len { (length left.old ≡ 16) × (length over.old ≡ 16) × (length stopped.old ≡ 16) × ((ws : List ℕ) → Marked (facts plan.now) (board_of left.old over.old stopped.old holder.now ws)) }
    requires v_value { (use_fault_at plan.now.overrun plan.now.view.now left.old over.old stopped.old holder.now v 1 ≡ Ok tt) × (holds ≡ holds_global plan.now.view.now holder.now v) }
    ensures { (ws : List ℕ) → outcome_of result (board_of left.new over.new stopped.new holder.now ws) ≡ step (facts plan.now) (board_of left.old over.old stopped.old holder.now ws) (Event.Use v 1) }
{
    let i = sub(v, 1) as usize;
    let b = board_reserves::budget_after(left, v, 1);
    let o = board_reserves::overrun_after(left, over, v, 1);
    left[i] = b;
    over[i] = o;
    let mark = board_supply::mark_by(plan.policy, left, stopped, v, holds);
    stopped[i] = mark;
    BoardAnswer::Left { b, o }
}

// `use v 1` on lent arrays, where more than one tick is left of the budget of v: no mark changes then.
pub fn use_within(
    plan: &PlanView,
    left: &mut [u64],
    over: &[u64],
    stopped: &[bool],
    holder: &[u16],
    v: u64,
) -> BoardAnswer
    requires { (length left.old ≡ 16) × (length over.now ≡ 16) × (length stopped.now ≡ 16) × ((ws : List ℕ) → Marked (facts plan.now) (board_of left.old over.now stopped.now holder.now ws)) × (has_vcpu plan.now.view.now v ≡ true) × (1 < get_or left.old (v - 1) 0) }
    ensures { (ws : List ℕ) → outcome_of result (board_of left.new over.now stopped.now holder.now ws) ≡ step (facts plan.now) (board_of left.old over.now stopped.now holder.now ws) (Event.Use v 1) }
{
    let i = sub(v, 1) as usize;
    let b = left[i] - 1;
    let o = over[i];
    left[i] = b;
    BoardAnswer::Left { b, o }
}
