// What an event writes into a board's arrays, one number each: the mark of a VCPU, the holder of a mutex, the mutex that a task waits for.
#![tactic(auto)]

ghost use Rattle.std.specs.Prelude.{◌≡◌, ◌-◌, ◌≤◌, length, set};
ghost use Rattle.board_seats.specs.Seats.{seat};
ghost use Rattle.board_supply.specs.Supplies.{next_mark};

use board_seats::sub;
pub use board_supply as supply;
use plan::Policy;

// The mark of v alone, when an event is complete: where no other mark is due and lacking, the board is settled.
pub fn settle(
    policy: Policy,
    view: &[u64],
    left: &[u64],
    stopped: &mut [bool],
    holder: &[u16],
    v: u64,
)
    requires { (v ≤ 16) × (length stopped.old ≡ 16) }
    ensures { stopped.new ≡ set stopped.old (v - 1) (next_mark policy view.now left.now stopped.old holder.now v) }
{
    let i = sub(v, 1) as usize;
    let mark = board_supply::mark_after(policy, view, left, stopped, holder, v);
    stopped[i] = mark;
}

// The seat h holds m now, none where h is 0.
pub fn put_holder(holder: &mut [u16], m: u64, h: u64)
    requires { h ≤ 128 }
    ensures { holder.new ≡ set holder.old (m - 1) h }
{
    let i = sub(m, 1) as usize;
    if i < holder.len() {
        holder[i] = h as u16;
    }
}

// Task (v, n) waits for w now, for none where w is 0.
pub fn put_wait(waits: &mut [u8], v: u64, n: u64, w: u64)
    requires { (v ≤ 16) × (n ≤ 8) × (w ≤ 32) × (length waits.old ≡ 128) }
    ensures { waits.new ≡ set waits.old (seat v n - 1) w }
{
    let i = sub(board_seats::seat(v, n), 1) as usize;
    waits[i] = w as u8;
}
