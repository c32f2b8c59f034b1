// Is a board in order? Tests of its seats, its holders and its waiters, on its arrays and the view of a plan; and the view's budgets and overruns.
#![tactic(auto)]

ghost use Rattle.std.specs.Prelude.{◌≡◌, ◌≤◌};
ghost use Rattle.laws.specs.Range.{all_to, list_to};
ghost use Rattle.board_seats.specs.Seats.{budget_of, overrun_of};
ghost use Rattle.board_walks.specs.Walks.{hold_good, wait_good, task_good, tasks_good, seat_good};

use board_seats::{both, no, pick};

// The conditions on what task (v, n) holds and waits for.
fn hold_good<'a>(view: &[u64], a: &'a [u16], ws: &'a [u8], v: u64, n: u64, m: u64) -> bool
    requires { (v ≤ 16) × (n ≤ 8) }
    ensures { result ≡ hold_good view.now a.now ws.now v n m }
{
    if board_seats::holds(a, v, n, m) {
        let free = board_seats::wait(ws, v, n) == 0;
        let one = board_walks::last_held(a, v, n) == m;
        return both(board_seats::lists(view, v, n, m), both(free, one));
    }
    true
}

fn holds_good<'a>(view: &[u64], a: &'a [u16], ws: &'a [u8], v: u64, n: u64) -> bool
    requires { (v ≤ 16) × (n ≤ 8) }
    ensures { result ≡ all_to 32 (λ m. hold_good view.now a.now ws.now v n m) }
{
    for m in 1..=32 {
        if !hold_good(view, a, ws, v, n, m) {
            return false;
        }
    }
    true
}

fn wait_good<'a>(view: &[u64], a: &'a [u16], ws: &'a [u8], v: u64, n: u64) -> bool
    requires { (v ≤ 16) × (n ≤ 8) }
    ensures { result ≡ wait_good view.now a.now ws.now v n }
{
    let w = board_seats::wait(ws, v, n);
    if w == 0 {
        return true;
    }
    let other = board_seats::held_by_other(a, v, n, w);
    let fails = no(board_walks::passes(view, a, v, n));
    both(
        board_seats::lists(view, v, n, w),
        pick(board_seats::is_global(view, w), other, fails),
    )
}

fn task_good<'a>(view: &[u64], a: &'a [u16], ws: &'a [u8], v: u64, n: u64) -> bool
    requires { (v ≤ 16) × (n ≤ 8) }
    ensures { result ≡ task_good view.now a.now ws.now v n }
{
    both(wait_good(view, a, ws, v, n), holds_good(view, a, ws, v, n))
}

fn tasks_good<'a>(view: &[u64], a: &'a [u16], ws: &'a [u8], v: u64) -> bool
    requires { v ≤ 16 }
    ensures { result ≡ tasks_good view.now a.now ws.now v }
{
    for n in 1..=8 {
        if !task_good(view, a, ws, v, n) {
            return false;
        }
    }
    true
}

// The conditions on what all tasks hold and wait for.
pub fn all_tasks_good<'a>(view: &[u64], a: &'a [u16], ws: &'a [u8]) -> bool
    ensures { result ≡ all_to 16 (λ v. tasks_good view.now a.now ws.now v) }
{
    for v in 1..=16 {
        if !tasks_good(view, a, ws, v) {
            return false;
        }
    }
    true
}

// Each holder is a seat, or none.
pub fn seats_good(a: &[u16]) -> bool
    ensures { result ≡ all_to 32 (λ m. seat_good a.now m) }
{
    for m in 1..=32 {
        if 128 < board_seats::holder(a, m) {
            return false;
        }
    }
    true
}

// The budgets and the overruns of the view.
pub fn budgets(view: &[u64]) -> [u64; 16]
    ensures { result ≡ list_to 16 (λ v. budget_of view.now v) }
{
    let mut all = [0u64; 16];
    for v in 0..16 {
        all[v] = board_seats::budget(view, v as u64 + 1);
    }
    all
}

pub fn overruns(view: &[u64]) -> [u64; 16]
    ensures { result ≡ list_to 16 (λ v. overrun_of view.now v) }
{
    let mut all = [0u64; 16];
    for v in 0..16 {
        all[v] = board_seats::overrun(view, v as u64 + 1);
    }
    all
}
