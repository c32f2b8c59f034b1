// Look-ups by the names v, n and m in the view of a plan and in a board's arrays. Each is total.
#![tactic(auto)]

ghost use Rattle.std.specs.Prelude.{◌≡◌, false, ◌&&◌, ◌||◌, not, ◌-◌, ◌≤◌, ◌<◌, get_or};
ghost use Rattle.std.specs.Prelude.{if◌then◌else◌};
ghost use Rattle.laws.specs.Choice.{when};
ghost use Rattle.board_seats.specs.Seats.{is_v, is_n, is_m, seat, owner_at, task_at, lock_at, has_vcpu, budget_of, overrun_of, has_task, lists_it, has_mutex, is_global, is_local, ceiling_of, holds_it, held_by_other, wait_at, local_waiter};

use plan::within;

// a - b, or 0 where b is above a
pub fn sub(a: u64, b: u64) -> u64
    ensures { result ≡ a - b }
{
    a.saturating_sub(b)
}

pub fn both(a: bool, b: bool) -> bool
    ensures { result ≡ a && b }
{
    if a { b } else { false }
}

pub fn either(a: bool, b: bool) -> bool
    ensures { result ≡ a || b }
{
    if a { true } else { b }
}

pub fn no(a: bool) -> bool
    ensures { result ≡ not a }
{
    if a { false } else { true }
}

pub fn pick(c: bool, a: bool, b: bool) -> bool
    ensures { result ≡ if c then a else b }
{
    if c { a } else { b }
}

fn wide8(x: u8) -> u64
    ensures { (result ≡ x) × (result < 256) }
{
    x as u64
}

fn wide16(x: u16) -> u64
    ensures { result ≡ x }
{
    x as u64
}

// What stands at i, 0 past the end.
pub fn at(s: &[u64], i: u64) -> u64
    ensures { result ≡ get_or s.now i 0 }
{
    s.get(i as usize).copied().unwrap_or(0)
}

// The seat of task (v, n), 1 to 128.
pub fn seat(v: u64, n: u64) -> u64
    requires { (v ≤ 16) × (n ≤ 8) }
    ensures { (result ≡ seat v n) × (result ≤ 128) }
{
    sub(v, 1) * 8 + n
}

// What the view says of VCPU v.
pub fn budget(view: &[u64], v: u64) -> u64
    ensures { result ≡ budget_of view.now v }
{
    if within(v, 1, 16) { at(view, v - 1) } else { 0 }
}

pub fn overrun(view: &[u64], v: u64) -> u64
    ensures { result ≡ overrun_of view.now v }
{
    if within(v, 1, 16) {
        at(view, 16 + (v - 1))
    } else {
        0
    }
}

pub fn has_vcpu(view: &[u64], v: u64) -> bool
    ensures { result ≡ has_vcpu view.now v }
{
    0 < budget(view, v)
}

// What it says of mutex m: its owner, 0 out of range, and its ceiling.
fn owner(view: &[u64], m: u64) -> u64
    ensures { result ≡ when (is_m m) (owner_at view.now m) }
{
    if within(m, 1, 32) {
        at(view, 32 + (m - 1))
    } else {
        0
    }
}

pub fn ceiling(view: &[u64], m: u64) -> u64
    ensures { result ≡ ceiling_of view.now m }
{
    if within(m, 1, 32) {
        at(view, 64 + (m - 1))
    } else {
        0
    }
}

pub fn has_mutex(view: &[u64], m: u64) -> bool
    ensures { result ≡ has_mutex view.now m }
{
    0 < owner(view, m)
}

pub fn is_global(view: &[u64], m: u64) -> bool
    ensures { result ≡ is_global view.now m }
{
    owner(view, m) == 17
}

pub fn is_local(view: &[u64], v: u64, m: u64) -> bool
    ensures { result ≡ is_local view.now v m }
{
    both(within(v, 1, 16), owner(view, m) == v)
}

// What it says of task (v, n), 0 out of range.
fn task(view: &[u64], v: u64, n: u64) -> u64
    ensures { result ≡ when (is_v v && is_n n) (task_at view.now v n) }
{
    if both(within(v, 1, 16), within(n, 1, 8)) {
        at(view, 96 + ((v - 1) * 8 + n - 1))
    } else {
        0
    }
}

fn lock(view: &[u64], v: u64, n: u64, m: u64) -> u64
    ensures { result ≡ when ((is_v v && is_n n) && is_m m) (lock_at view.now v n m) }
{
    if both(both(within(v, 1, 16), within(n, 1, 8)), within(m, 1, 32)) {
        at(view, 224 + (((v - 1) * 8 + n - 1) * 32 + (m - 1)))
    } else {
        0
    }
}

pub fn has_task(view: &[u64], v: u64, n: u64) -> bool
    ensures { result ≡ has_task view.now v n }
{
    0 < task(view, v, n)
}

pub fn lists(view: &[u64], v: u64, n: u64, m: u64) -> bool
    ensures { result ≡ lists_it view.now v n m }
{
    0 < lock(view, v, n, m)
}

// A board's arrays, by name.
pub fn figure(a: &[u64], v: u64) -> u64
    ensures { result ≡ get_or a.now (v - 1) 0 }
{
    at(a, sub(v, 1))
}

pub fn mark(a: &[bool], v: u64) -> bool
    ensures { result ≡ get_or a.now (v - 1) false }
{
    a.get(sub(v, 1) as usize).copied().unwrap_or(false)
}

pub fn holder(a: &[u16], m: u64) -> u64
    ensures { result ≡ get_or a.now (m - 1) 0 }
{
    wide16(a.get(sub(m, 1) as usize).copied().unwrap_or(0))
}

// The mutex that task (v, n) waits for, 0 for none, as the board keeps it and as a number.
pub fn kept_wait(a: &[u8], v: u64, n: u64) -> u8
    requires { (v ≤ 16) × (n ≤ 8) }
    ensures { result ≡ wait_at a.now v n }
{
    a.get(sub(seat(v, n), 1) as usize).copied().unwrap_or(0)
}

pub fn wait(a: &[u8], v: u64, n: u64) -> u64
    requires { (v ≤ 16) × (n ≤ 8) }
    ensures { (result ≡ wait_at a.now v n) × (result < 256) }
{
    wide8(kept_wait(a, v, n))
}

pub fn holds(a: &[u16], v: u64, n: u64, m: u64) -> bool
    requires { (v ≤ 16) × (n ≤ 8) }
    ensures { result ≡ holds_it a.now v n m }
{
    holder(a, m) == seat(v, n)
}

pub fn held_by_other(a: &[u16], v: u64, n: u64, m: u64) -> bool
    requires { (v ≤ 16) × (n ≤ 8) }
    ensures { result ≡ held_by_other a.now v n m }
{
    both(no(holder(a, m) == 0), no(holds(a, v, n, m)))
}

pub fn local_waiter(view: &[u64], a: &[u8], v: u64, n: u64) -> bool
    requires { (v ≤ 16) × (n ≤ 8) }
    ensures { result ≡ local_waiter view.now a.now v n }
{
    let w = wait(a, v, n);
    if w == 0 {
        return false;
    }
    is_local(view, v, w)
}
