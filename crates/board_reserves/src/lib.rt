// The supply of one VCPU, and what ticks leave of it, on a board's arrays and the view of a plan: left, over and stopped by VCPU, holder by mutex.
#![tactic(auto)]

ghost use Rattle.std.specs.Prelude.{◌≡◌, true, ◌+◌, ◌≤◌, min};
ghost use Rattle.std.specs.Prelude.{if◌then◌else◌};
ghost use Rattle.plan.specs.Limits.{max_ticks};
ghost use Rattle.board_walks.specs.Walks.{holds_global};
ghost use Rattle.board_reserves.specs.Supplies.{reserve, supply_at, budget_after, overrun_after};

use board_seats::sub;
use plan::OverrunChoice;

// a + b, as far as the ticks of an event go.
fn capped(a: u64, b: u64) -> u64
    ensures { result ≡ min (a + b) max_ticks }
{
    a.saturating_add(b).min(1000000)
}

// The overrun that counts while a global mutex is held.
fn reserve(choice: OverrunChoice, stopped: bool, o: u64) -> u64
    ensures { result ≡ reserve choice true stopped o }
{
    match choice {
        OverrunChoice::WithOverrun => if stopped { 0 } else { o },
        OverrunChoice::WithoutOverrun => 0,
    }
}

// o where the tasks of v hold a global mutex, else 0: where o is 0, nobody asks.
fn counted(view: &[u64], holder: &[u16], v: u64, o: u64) -> u64
    requires { v ≤ 16 }
    ensures { result ≡ if holds_global view.now holder.now v then o else 0 }
{
    if o == 0 {
        return 0;
    }
    if board_walks::holds_global(view, holder, v) {
        o
    } else {
        0
    }
}

// The supply of v, as far as the ticks of an event go.
pub fn supply(
    choice: OverrunChoice,
    view: &[u64],
    left: &[u64],
    over: &[u64],
    stopped: &[bool],
    holder: &[u16],
    v: u64,
) -> u64
    requires { v ≤ 16 }
    ensures { result ≡ min (supply_at choice view.now left.now over.now stopped.now holder.now v) max_ticks }
{
    let o = reserve(
        choice,
        board_seats::mark(stopped, v),
        board_seats::figure(over, v),
    );
    let extra = counted(view, holder, v, o);
    capped(board_seats::figure(left, v), extra)
}

// What t ticks leave of the budget and of the overrun of v: the budget goes first.
pub fn budget_after(left: &[u64], v: u64, t: u64) -> u64
    ensures { result ≡ budget_after left.now v t }
{
    sub(board_seats::figure(left, v), t)
}

pub fn overrun_after(left: &[u64], over: &[u64], v: u64, t: u64) -> u64
    ensures { result ≡ overrun_after left.now over.now v t }
{
    let rest = sub(t, board_seats::figure(left, v));
    sub(board_seats::figure(over, v), rest)
}
