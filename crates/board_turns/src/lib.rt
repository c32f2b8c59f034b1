// Whose turn it is, on a board's arrays and the view of a plan: who may have a mutex, who is next, and with which priority. Holder by mutex, waits by seat.
#![tactic(auto)]

ghost use Rattle.std.specs.Prelude.{◌≡◌, ◌≤◌, length};
ghost use Rattle.std.specs.Prelude.{if◌then◌else◌};
ghost use Rattle.board_turns.specs.Turns.{may_have_at, awaited_at, waiter_v, waiter_n, local_next_at, priority_at, vcpu_priority_at};

use plan::larger;

// A global mutex is free; for a local one the task passes the test.
pub fn may_have(view: &[u64], holder: &[u16], v: u64, n: u64, m: u64) -> bool
    requires { (v ≤ 16) × (n ≤ 8) }
    ensures { result ≡ may_have_at view.now holder.now v n m }
{
    if board_seats::is_global(view, m) {
        return board_seats::holder(holder, m) == 0;
    }
    board_walks::passes(view, holder, v, n)
}

fn one(t: bool) -> u8
    ensures { (result ≡ if t then 1 else 0) × (result ≤ 1) }
{
    if t { 1 } else { 0 }
}

// Some task waits for w. All marks are counted, with no way out of the loop, so that many are looked at in one step.
pub fn awaited(waits: &[u8], w: u8) -> bool
    requires { length waits.now ≡ 128 }
    ensures { result ≡ awaited_at waits.now w }
{
    let mut k: u8 = 0;
    for i in 0..128 {
        k += one(waits[i] == w);
    }
    0 < k
}

// The highest VCPU that has a waiter for m, from the rows; 0 for none.
pub fn waiter_v(waits: &[u8], m: u64) -> u64
    requires { m ≤ 32 }
    ensures { (result ≡ waiter_v waits.now m) × (result ≤ 16) }
{
    let rows = board_walks::rows(waits);
    board_walks::row_with(rows, m as u8)
}

// The highest task of v that waits for m, from its row; 0 for none, and where v is 0.
pub fn waiter_n(waits: &[u8], v: u64, m: u64) -> u64
    requires { (v ≤ 16) × (m ≤ 32) }
    ensures { (result ≡ waiter_n waits.now m v) × (result ≤ 8) }
{
    if v == 0 {
        return 0;
    }
    let row = board_walks::row(waits, v);
    board_walks::column(row, m as u8)
}

// The highest local waiter of v, if it passes the test now; else 0.
pub fn next_local(view: &[u64], holder: &[u16], waits: &[u8], v: u64) -> u64
    requires { v ≤ 16 }
    ensures { (result ≡ local_next_at view.now holder.now waits.now v) × (result ≤ 8) }
{
    let n = board_walks::local_under(view, waits, v, 8);
    if n == 0 {
        return 0;
    }
    if board_walks::passes(view, holder, v, n) {
        return n;
    }
    0
}

pub fn task_priority<'a>(view: &[u64], holder: &'a [u16], waits: &'a [u8], v: u64, n: u64) -> u64
    requires { (v ≤ 16) × (n ≤ 8) }
    ensures { result ≡ priority_at view.now holder.now waits.now v n }
{
    if board_walks::held_global(view, holder, v, n) {
        return 8 + n;
    }
    let m = board_walks::held_local(view, holder, v, n);
    if m == 0 {
        return n;
    }
    larger(
        n,
        board_walks::local_under(view, waits, v, board_seats::ceiling(view, m)),
    )
}

pub fn vcpu_priority(view: &[u64], holder: &[u16], v: u64) -> u64
    requires { v ≤ 16 }
    ensures { result ≡ vcpu_priority_at view.now holder.now v }
{
    if board_walks::holds_global(view, holder, v) {
        return 16 + v;
    }
    v
}
