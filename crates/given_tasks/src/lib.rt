// What the judge asks of the rows of tasks, for 9: the tests of specs/Clear, from what it has seen before the first of them. Nothing that was seen is handed on from line to line.
#![tactic(auto)]

ghost use Rattle.std.specs.Prelude.{◌≡◌, true, cond, ◌≤◌, ◌<◌};
ghost use Rattle.laws.specs.Sums.{all};
ghost use Rattle.laws.specs.Rows.{rows};
ghost use Rattle.plan.specs.Limits.{max_locks};
ghost use Rattle.plan_tables.specs.Layout as layout;
ghost use Rattle.given_tidy.specs.Tests as tests;
ghost use Rattle.given_tasks.specs.Clear as clear;

use given_tidy::{begins_after, cell, host_after, prior};
use judge_coded::{ranged, rises};
use judge_hosts::{at, reached};
use plan::{MAX_GUEST, MAX_LENGTH, MAX_M, MAX_N, MAX_PERIOD, MAX_V, within};
use plan_tables::{FIRST_LOCK, LOCK_WIDTH, TASK_WIDTH};

// `run a`
fn run_clear(a: u64) -> bool
    ensures { result ≡ clear.run_clear a }
{
    within(a, 0, MAX_LENGTH)
}

// `lock m x` and `run a`
fn lock_clear(owners: &[u8], opens: &[u8], guest: u64, v: u64, m: u64, x: u64, a: u64) -> bool
    ensures { result ≡ clear.lock_clear owners.now opens.now guest v m x a }
{
    let owner = at(owners, m);
    let reach = reached(opens, guest, v, owner, m);
    let range = ranged(m, MAX_M, x, MAX_LENGTH);
    let run = run_clear(a);
    (range & ((1 <= owner) & reach)) & run
}

// `guest g` after a section of guest f.
fn guest_clear(hosted: &[u8], f: u64, g: u64) -> bool
    ensures { result ≡ clear.guest_clear hosted.now f g }
{
    let known = at(hosted, g);
    within(g, 1, MAX_GUEST) & ((f < g) & (known == 1))
}

// `task v n p` and `run a` after task (w, k) of the section.
fn head_clear(guests: &[u8], guest: u64, w: u64, k: u64, v: u64, n: u64, p: u64, a: u64) -> bool
    ensures { result ≡ clear.head_clear guests.now guest w k v n p a }
{
    let host = at(guests, v);
    let order = rises(w, k, v, n);
    let range = within(v, 1, MAX_V) & ranged(n, MAX_N, p, MAX_PERIOD);
    let run = run_clear(a);
    (range & (order & ((1 <= host) & (host == guest)))) & run
}

// Lock j of task i, of VCPU v of this guest.
fn lock_at(owners: &[u8], opens: &[u8], t: &[u64], guest: u64, v: u64, i: usize, j: usize) -> bool
    requires { (i ≤ tests.most_rows) × (j < max_locks) }
    ensures { result ≡ clear.lock_at owners.now opens.now t.now guest v i j }
{
    let m = cell(t, TASK_WIDTH, i, FIRST_LOCK + (j * LOCK_WIDTH + 0));
    let x = cell(t, TASK_WIDTH, i, FIRST_LOCK + (j * LOCK_WIDTH + 1));
    let a = cell(t, TASK_WIDTH, i, FIRST_LOCK + (j * LOCK_WIDTH + 2));
    lock_clear(owners, opens, guest, v, m, x, a)
}

// The first c locks of task i.
fn locks_clear(
    owners: &[u8],
    opens: &[u8],
    t: &[u64],
    guest: u64,
    v: u64,
    i: usize,
    c: usize,
) -> bool
    requires { (i ≤ tests.most_rows) × (c ≤ max_locks) }
    ensures { result ≡ all (clear.lock_at owners.now opens.now t.now guest v i) (rows c (λ j. j)) }
{
    for j in 0..c {
        let one = lock_at(owners, opens, t, guest, v, i, j);
        if !one {
            return false;
        }
    }
    true
}

// A number of the task before, 0 where a section begins.
fn of_last(on: bool, x: u64) -> u64
    ensures { result ≡ cond on 0 x }
{
    if on { 0 } else { x }
}

// The first two lines of task i of this guest.
fn head_at(guests: &[u8], t: &[u64], on: bool, guest: u64, i: usize) -> bool
    requires { i ≤ tests.most_rows }
    ensures { result ≡ clear.head_at guests.now t.now on guest i }
{
    let last = prior(i);
    let w = of_last(on, cell(t, TASK_WIDTH, last, 0));
    let k = of_last(on, cell(t, TASK_WIDTH, last, 1));
    let v = cell(t, TASK_WIDTH, i, 0);
    let n = cell(t, TASK_WIDTH, i, 1);
    let p = cell(t, TASK_WIDTH, i, 2);
    let a = cell(t, TASK_WIDTH, i, 3);
    head_clear(guests, guest, w, k, v, n, p, a)
}

// The lines of task i of this guest, after a section of guest f.
fn task_clear(
    guests: &[u8],
    hosted: &[u8],
    owners: &[u8],
    opens: &[u8],
    t: &[u64],
    on: bool,
    f: u64,
    guest: u64,
    i: usize,
) -> bool
    requires { (i ≤ tests.most_rows) × (layout.cell t.now layout.task_width i 4 ≤ max_locks) }
    ensures { result ≡ clear.task_clear guests.now hosted.now owners.now opens.now t.now on f guest i }
{
    let named = guest_clear(hosted, f, guest);
    let head = head_at(guests, t, on, guest, i);
    let v = cell(t, TASK_WIDTH, i, 0);
    let count = cell(t, TASK_WIDTH, i, 4) as usize;
    let locks = locks_clear(owners, opens, t, guest, v, i, count);
    (!on | named) & (head & locks)
}

// The lines of the first m tasks, by what the judge has seen before them: the guests by v, those that have a VCPU, the owners by m, the openings.
pub fn tasks_clear(
    guests: &[u8],
    hosted: &[u8],
    owners: &[u8],
    opens: &[u8],
    vt: &[u64],
    n: usize,
    t: &[u64],
    m: usize,
) -> bool
    requires { (n ≤ tests.most_rows) × (m ≤ tests.most_rows) × (tests.all_tidy t.now m ≡ true) }
    ensures { result ≡ clear.tasks_clear guests.now hosted.now owners.now opens.now t.now (rows n (layout.vcpu_row vt.now)) m }
{
    let mut last = 0;
    for i in 0..m {
        let guest = host_after(vt, n, t, i, last);
        let on = begins_after(i, guest, last);
        let one = task_clear(guests, hosted, owners, opens, t, on, last, guest, i);
        if !one {
            return false;
        }
        last = guest;
    }
    true
}
