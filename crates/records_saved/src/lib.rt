// Rows of numbers as records: written over a lent slice of them, or kept in a table of eight and copied back. What a row's record is stands in specs/Sheet of `records`.
#![tactic(auto)]

ghost use Rattle.std.specs.Prelude.{◌≡◌, ◌*◌, ◌<◌, ◌≤◌, length};
ghost use Rattle.plan.specs.Limits.{most_tasks};
ghost use Rattle.plan_tables.specs.Layout.{task_width, lock_row};
ghost use Rattle.records.specs.Blank.{no_tasks};
ghost use Rattle.records.specs.Sheet.{task_of, saved};

use plan::Lock;
use plan_tables::{FIRST_LOCK, LOCK_WIDTH, TASK_WIDTH};
use records::Task;

// Lock j of row i.
fn lock_of(rows: &[u64], i: usize, j: usize) -> Lock
    requires { (i < most_tasks) × (j < 8) }
    ensures { result ≡ lock_row rows.now i j }
{
    let k = i * TASK_WIDTH + (FIRST_LOCK + j * LOCK_WIDTH);
    Lock {
        m: plan_tables::at(rows, k),
        ticks: plan_tables::at(rows, k + 1),
        after: plan_tables::at(rows, k + 2),
    }
}

// The record of row i.
fn task_of(rows: &[u64], i: usize) -> Task
    requires { i < most_tasks }
    ensures { result ≡ task_of rows.now i }
{
    let ls = [
        lock_of(rows, i, 0),
        lock_of(rows, i, 1),
        lock_of(rows, i, 2),
        lock_of(rows, i, 3),
        lock_of(rows, i, 4),
        lock_of(rows, i, 5),
        lock_of(rows, i, 6),
        lock_of(rows, i, 7),
    ];
    let k = i * TASK_WIDTH;
    Task {
        v: plan_tables::at(rows, k),
        n: plan_tables::at(rows, k + 1),
        period: plan_tables::at(rows, k + 2),
        first: plan_tables::at(rows, k + 3),
        count: plan_tables::at(rows, k + 4),
        locks: ls,
    }
}

// Writes the first n rows of numbers as records.
pub fn save(tasks: &mut [Task], rows: &[u64], n: usize)
    requires { (n ≤ most_tasks) × (n ≤ length tasks.old) }
    ensures { tasks.new ≡ saved tasks.old rows.now n }
{
    for i in 0..n {
        let t = task_of(rows, i);
        tasks[i] = t;
    }
}

// A table of eight blank records.
fn no_tasks() -> [Task; 8]
    ensures { result ≡ no_tasks }
{
    let l = Lock {
        m: 0,
        ticks: 0,
        after: 0,
    };
    let ls = [l; 8];
    let t = Task {
        v: 0,
        n: 0,
        period: 0,
        first: 0,
        count: 0,
        locks: ls,
    };
    [t; 8]
}

// Keeps the tasks of the first n rows of numbers as records, in a table of eight, and copies their numbers back: the rows are as they were.
fn kept(rows: &mut [u64], n: usize)
    requires { (n ≤ 8) × (n * task_width ≤ length rows.old) }
    ensures { rows.new ≡ rows.old }
{
    let mut tasks = no_tasks();
    save(&mut tasks, rows, n);
    records::load(&tasks, rows, n);
}

// The same for n rows, eight at a time, so that little is cleared for a small plan.
pub fn all_kept(rows: &mut [u64], n: usize)
    requires { (n ≤ most_tasks) × (n * task_width ≤ length rows.old) }
    ensures { rows.new ≡ rows.old }
{
    for i in (0..n).step_by(8) {
        kept(&mut rows[i * TASK_WIDTH..], records::few_of(8, n - i));
    }
}
