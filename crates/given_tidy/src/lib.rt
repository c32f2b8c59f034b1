// The tests of lent tables that judge no item, for 9: the counts within a plan's, zeros where a task has no lock, and the guest of a task. (specs/Tests has the tests, specs/Hosts the guests.)
#![tactic(auto)]

ghost use Rattle.std.specs.Prelude.{◌≡◌, ◌||◌, not, eqb, ◌-◌, ◌≤◌};
ghost use Rattle.laws.specs.Rows.{rows};
ghost use Rattle.plan_tables.specs.Layout as layout;
ghost use Rattle.plan_tables.specs.Given as tables;
ghost use Rattle.given_tidy.specs.Hosts as hosts;
ghost use Rattle.given_tidy.specs.Tests as tests;

use plan::{MAX_LOCKS, MAX_M, MAX_V, MOST_TASKS};
use plan_tables::{FIRST_LOCK, LOCK_WIDTH, MOST, PlanRecord, TASK_WIDTH, VCPU_WIDTH, at};

// No plan has more VCPUs, and no more mutexes.
const MAX_VCPUS: usize = MAX_V as usize;

const MAX_MUTEXES: usize = MAX_M as usize;

// Place j of row i, in rows of w numbers.
pub fn cell(t: &[u64], w: usize, i: usize, j: usize) -> u64
    requires { (i ≤ tests.most_rows) × (w ≤ layout.task_width) × (j ≤ layout.task_width) }
    ensures { result ≡ layout.cell t.now w i j }
{
    at(t, i * w + j)
}

// The guest of VCPU v: that of the first of n rows that has it, 0 where none has.
fn guest_in(t: &[u64], n: usize, v: u64) -> u64
    requires { n ≤ tests.most_rows }
    ensures { result ≡ tables.guest_for (rows n (layout.vcpu_row t.now)) v }
{
    for i in 0..n {
        let guest = cell(t, VCPU_WIDTH, i, 1);
        if cell(t, VCPU_WIDTH, i, 0) == v {
            return guest;
        }
    }
    0
}

// The number before i, 0 before 0.
pub fn prior(i: usize) -> usize
    ensures { result ≡ i - 1 }
{
    i.saturating_sub(1)
}

// The guest of task i, where `last` is that of the task before it, 0 before the first: the VCPUs are searched only for another one than the task before has.
pub fn host_after(vt: &[u64], n: usize, t: &[u64], i: usize, last: u64) -> u64
    requires { (n ≤ tests.most_rows) × (i ≤ tests.most_rows) × (last ≡ hosts.last_at (rows n (layout.vcpu_row vt.now)) t.now i) }
    ensures { result ≡ hosts.host_of (rows n (layout.vcpu_row vt.now)) t.now i }
{
    let v = cell(t, TASK_WIDTH, i, 0);
    let before = cell(t, TASK_WIDTH, prior(i), 0);
    if (1 <= i) & (v == before) {
        last
    } else {
        guest_in(vt, n, v)
    }
}

// Does task i begin a section, where `guest` is its guest and `last` that of the task before it?
pub fn begins_after(i: usize, guest: u64, last: u64) -> bool
    ensures { result ≡ (eqb i 0 || not (eqb guest last)) }
{
    (i == 0) | !(guest == last)
}

// Are the places of task i from c on zero?
fn zero_from(t: &[u64], i: usize, c: usize) -> bool
    requires { (i ≤ tests.most_rows) × (c ≤ layout.task_width) }
    ensures { result ≡ tables.zero_from t.now i c }
{
    let n = TASK_WIDTH - c;
    for j in 0..n {
        let zero = cell(t, TASK_WIDTH, i, c + j) == 0;
        if !zero {
            return false;
        }
    }
    true
}

// Has task i few locks, and zeros in the places of those that it does not have?
fn tidy(t: &[u64], i: usize) -> bool
    requires { i ≤ tests.most_rows }
    ensures { result ≡ tests.tidy t.now i }
{
    let count = cell(t, TASK_WIDTH, i, 4);
    if count <= MAX_LOCKS {
        zero_from(t, i, FIRST_LOCK + count as usize * LOCK_WIDTH)
    } else {
        false
    }
}

// The same of each of n tasks.
pub fn all_tidy(t: &[u64], n: usize) -> bool
    requires { n ≤ tests.most_rows }
    ensures { result ≡ tests.all_tidy t.now n }
{
    for i in 0..n {
        let one = tidy(t, i);
        if !one {
            return false;
        }
    }
    true
}

// Are there no more rows than a plan can have, and no more tasks than there are places for?
pub fn few(r: PlanRecord) -> bool
    ensures { result ≡ tests.few r }
{
    (r.vcpus <= MAX_VCPUS)
        & ((r.mutexes <= MAX_MUTEXES) & ((r.opens <= MOST) & (r.tasks <= MOST_TASKS)))
}
