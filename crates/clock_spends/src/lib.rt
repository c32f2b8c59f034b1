// Ticks of turns that stay the same, spent at once, and what is known of a core's turn.
#![tactic(auto)]

ghost use Rattle.std.specs.Prelude.{◌≡◌, true, length, ◌+◌, ◌<◌, ◌≤◌};
ghost use Rattle.clock_marks.specs.Marks.{board_of, done_in, done_cell, Sized};
ghost use Rattle.clock_going.specs.Lent.{GoingOf, timing};
ghost use Rattle.clock_plains.specs.PlainMirrors.{kept_after};
ghost use Rattle.clock_reaches.specs.Stretches.{plain_length};
ghost use Rattle.clock_spends.specs.Spends.{Lost, lost_own, Spendable, Spending, PutAt, Put, Forgot};
ghost use Rattle.clock_spends.specs.AllSpending.{AllReady, SpentAll};

use board_rules::PlanView;
use board_seats::{at, seat};
use plan::Policy;

// Each of the set loses k ticks.
fn lose(left: &mut [u64], set: u64, k: u64)
    requires { (length left.old ≡ 16) × (set < 65536) }
    ensures { Lost left.old set k left.new }
{
    let mut rest = set;
    while rest != 0 {
        let v = clock_sets::lowest_in(rest);
        let i = v as usize - 1;
        left[i] = board_seats::sub(left[i], k);
        rest = clock_sets::without(rest, v);
    }
}

// v, which was picked, loses k ticks; nobody was where v is 0.
fn lose_own(left: &mut [u64], v: u64, k: u64)
    requires { (length left.old ≡ 16) × (v ≤ 16) }
    ensures { left.new ≡ lost_own left.old v k }
{
    if v == 0 {
        return;
    }
    let i = v as usize - 1;
    left[i] = board_seats::sub(left[i], k);
}

// The job of (v, n) has k more ticks done; nobody's has where v is 0.
fn put_more(marks: &mut [u64], v: u64, n: u64, k: u64)
    requires { Sized marks.old × (v ≤ 16) × (n ≤ 8) × (0 < v → done_cell marks.old v n + k ≤ 17000000) }
    ensures { marks.new ≡ kept_after marks.old v n k }
{
    if v == 0 {
        return;
    }
    let s = seat(v, n);
    let i = 163 + s as usize;
    marks[i] += k;
}

// k ticks of core c's turn.
pub fn spend(policy: Policy, left: &mut [u64], marks: &mut [u64], plain: &mut [u64], c: u64, k: u64)
    requires { Spendable policy c k left.old marks.old plain.old }
    ensures { Spending policy c k left.old marks.old plain.old left.new marks.new plain.new }
{
    let v = at(plain, 4 + c);
    let n = at(plain, 8 + c);
    let idle = clock_reaches::idling(policy, marks, c);
    lose(left, idle, k);
    lose_own(left, v, k);
    put_more(marks, v, n, k);
    let i = c as usize;
    plain[i] = board_seats::sub(plain[i], k);
}

// What is known of core c's turn.
fn put(plain: &mut [u64], c: u64, k: u64, v: u64, n: u64)
    requires { (length plain.old ≡ plain_length) × (c ≤ 3) }
    ensures { PutAt plain.old c k v n plain.new }
{
    let i = c as usize;
    plain[i] = k;
    plain[4 + i] = v;
    plain[8 + i] = n;
}

// For how many ticks core c's turn stays the same, by whom it picks and who idles.
pub fn put_plain(
    plan: &PlanView,
    times: &[u64],
    left: &[u64],
    over: &[u64],
    stopped: &[bool],
    holder: &[u16],
    waits: &[u8],
    marks: &[u64],
    plain: &mut [u64],
    c: u64,
)
    requires { GoingOf plan.now times.now left.now over.now stopped.now holder.now waits.now marks.now × (length plain.old ≡ plain_length) × (c ≤ 3) }
    ensures { Put (timing plan.now times.now) (board_of left.now over.now stopped.now holder.now waits.now) (done_in marks.now) plain.old c plain.new }
{
    let v = clock_picks::pick_v(marks, c);
    let set = clock_reaches::idling(plan.policy, marks, c);
    if v == 0 {
        let free = clock_reaches::bound(left, set, 3000000);
        put(plain, c, free, 0, 0);
        return;
    }
    let n = clock_picks::pick_n(plan.view, waits, marks, v);
    let most = clock_reaches::reach(times, left, holder, marks, v, n);
    let k = clock_reaches::bound(left, set, most);
    put(plain, c, k, v, n);
}

// Of no core's turn anything is known.
pub fn forget(plain: &mut [u64])
    requires { length plain.old ≡ plain_length }
    ensures { Forgot true plain.old plain.new }
{
    plain[..8].fill(0);
}

// k ticks of every core's turn.
pub fn spend_all(policy: Policy, left: &mut [u64], marks: &mut [u64], plain: &mut [u64], k: u64)
    requires { AllReady policy k left.old marks.old plain.old }
    ensures { SpentAll policy k left.old marks.old plain.old left.new marks.new plain.new }
{
    spend(policy, left, marks, plain, 0, k);
    spend(policy, left, marks, plain, 1, k);
    spend(policy, left, marks, plain, 2, k);
    spend(policy, left, marks, plain, 3, k);
}
