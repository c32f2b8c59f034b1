// The lines of a plan's rows, told one behind another: written where `on`, else only counted. Which lines a row has stands in specs/Feed of `given_test`.
#![tactic(auto)]

ghost use Rattle.std.specs.Prelude.{◌≡◌, true, [], ◌≤◌, ◌<◌};
ghost use Rattle.laws.specs.Rows.{rows};
ghost use Rattle.plan.specs.Limits.{max_locks};
ghost use Rattle.plan.specs.Text.{text_of};
ghost use Rattle.plan_tables.specs.Layout as layout;
ghost use Rattle.given_tidy.specs.Tests.{most_rows, all_tidy};
ghost use Rattle.given_test.specs.Feed.{lined, lock_lines, guest_line, head_lines, task_lines};
ghost use Rattle.text_told.specs.Told.{Space, Told};
ghost use Rattle.write_rows.specs.Rows.{row_lines, task_told};

use given_tidy::{begins_after, cell, host_after};
use plan_tables::{FIRST_LOCK, LOCK_WIDTH, MUTEX_WIDTH, OPEN_WIDTH, TASK_WIDTH, VCPU_WIDTH};

// The tables whose rows have one line each.
#[derive(Clone, Copy)]
pub enum Rows {
    Vcpus,
    Mutexes,
    Opens,
}

// Tells the line of row i.
fn row(on: bool, out: &mut [u8], n: usize, what: Rows, t: &[u64], i: usize) -> usize
    requires { (i ≤ most_rows) × Space on (text_of (row_lines what t.now i)) out.old n }
    ensures { Told on (text_of (row_lines what t.now i)) out.old out.new n result }
{
    match what {
        Rows::Vcpus => {
            let v = cell(t, VCPU_WIDTH, i, 0);
            let guest = cell(t, VCPU_WIDTH, i, 1);
            let core = cell(t, VCPU_WIDTH, i, 2);
            let budget = cell(t, VCPU_WIDTH, i, 3);
            let period = cell(t, VCPU_WIDTH, i, 4);
            write_lines::line_five(on, out, n, b"vcpu", v, guest, core, budget, period)
        }
        Rows::Mutexes => {
            let m = cell(t, MUTEX_WIDTH, i, 0);
            let owner = cell(t, MUTEX_WIDTH, i, 1);
            write_lines::mutex_line(on, out, n, m, owner)
        }
        Rows::Opens => {
            let m = cell(t, OPEN_WIDTH, i, 0);
            let guest = cell(t, OPEN_WIDTH, i, 1);
            write_lines::line_two(on, out, n, b"open", m, guest)
        }
    }
}

// Tells the lines of the first c rows.
pub fn rows_told(on: bool, out: &mut [u8], n: usize, what: Rows, t: &[u64], c: usize) -> usize
    requires { (c ≤ most_rows) × Space on (text_of (lined c (row_lines what t.now))) out.old n }
    ensures { Told on (text_of (lined c (row_lines what t.now))) out.old out.new n result }
{
    let mut k = n;
    for i in 0..c {
        k = row(on, out, k, what, t, i);
    }
    k
}

// Tells the lines of lock j of task i, and of the run after it.
fn lock(on: bool, out: &mut [u8], n: usize, t: &[u64], i: usize, j: usize) -> usize
    requires { (i ≤ most_rows) × (j < max_locks) × Space on (text_of (lock_lines t.now i j)) out.old n }
    ensures { Told on (text_of (lock_lines t.now i j)) out.old out.new n result }
{
    let m = cell(t, TASK_WIDTH, i, FIRST_LOCK + (j * LOCK_WIDTH + 0));
    let ticks = cell(t, TASK_WIDTH, i, FIRST_LOCK + (j * LOCK_WIDTH + 1));
    let after = cell(t, TASK_WIDTH, i, FIRST_LOCK + (j * LOCK_WIDTH + 2));
    let k = write_lines::line_two(on, out, n, b"lock", m, ticks);
    write_lines::line_one(on, out, k, b"run", after)
}

// Tells the lines of the first c locks of task i.
fn locks(on: bool, out: &mut [u8], n: usize, t: &[u64], i: usize, c: usize) -> usize
    requires { (i ≤ most_rows) × (c ≤ max_locks) × Space on (text_of (lined c (lock_lines t.now i))) out.old n }
    ensures { Told on (text_of (lined c (lock_lines t.now i))) out.old out.new n result }
{
    let mut k = n;
    for j in 0..c {
        k = lock(on, out, k, t, i, j);
    }
    k
}

// Tells a guest's line, if there is one.
fn guest_told(on: bool, out: &mut [u8], n: usize, begins: bool, guest: u64) -> usize
    requires { Space on (text_of (guest_line begins guest [])) out.old n }
    ensures { Told on (text_of (guest_line begins guest [])) out.old out.new n result }
{
    if begins {
        return write_lines::line_one(on, out, n, b"guest", guest);
    }
    n
}

// Tells the first two lines of task i.
fn head(on: bool, out: &mut [u8], n: usize, t: &[u64], i: usize) -> usize
    requires { (i ≤ most_rows) × Space on (text_of (head_lines t.now i [])) out.old n }
    ensures { Told on (text_of (head_lines t.now i [])) out.old out.new n result }
{
    let v = cell(t, TASK_WIDTH, i, 0);
    let place = cell(t, TASK_WIDTH, i, 1);
    let period = cell(t, TASK_WIDTH, i, 2);
    let first = cell(t, TASK_WIDTH, i, 3);
    let k = write_lines::line_three(on, out, n, b"task", v, place, period);
    write_lines::line_one(on, out, k, b"run", first)
}

// Tells the lines of task i, after its guest's where it begins a section.
fn task(on: bool, out: &mut [u8], n: usize, begins: bool, guest: u64, t: &[u64], i: usize) -> usize
    requires { (i ≤ most_rows) × (layout.cell t.now layout.task_width i 4 ≤ max_locks) × Space on (text_of (task_told begins guest t.now i)) out.old n }
    ensures { Told on (text_of (task_told begins guest t.now i)) out.old out.new n result }
{
    let count = cell(t, TASK_WIDTH, i, 4) as usize;
    let k = guest_told(on, out, n, begins, guest);
    let l = head(on, out, k, t, i);
    locks(on, out, l, t, i, count)
}

// Tells the lines of the first m tasks.
pub fn tasks_told(
    on: bool,
    out: &mut [u8],
    n: usize,
    vt: &[u64],
    c: usize,
    t: &[u64],
    m: usize,
) -> usize
    requires { (c ≤ most_rows) × (m ≤ most_rows) × (all_tidy t.now m ≡ true)
        × Space on (text_of (lined m (task_lines (rows c (layout.vcpu_row vt.now)) t.now))) out.old n }
    ensures { Told on (text_of (lined m (task_lines (rows c (layout.vcpu_row vt.now)) t.now))) out.old out.new n result }
{
    let mut k = n;
    let mut last = 0;
    for i in 0..m {
        let guest = host_after(vt, c, t, i, last);
        let first = begins_after(i, guest, last);
        k = task(on, out, k, first, guest, t, i);
        last = guest;
    }
    k
}
