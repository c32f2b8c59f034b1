// The tables with tasks as a lent slice of records: thin functions copy the records out, one after the other, and the covered functions over numbers do the work (`records_saved` copies them in). What a record's numbers are stands in specs/Sheet.
#![tactic(auto)]

ghost use Rattle.std.specs.Prelude.{◌≡◌, [], ◌∷◌, ◌+◌, ◌*◌, ◌<◌, ◌≤◌, min, length, get_or};
ghost use Rattle.std.proofs.lemmas.List.Edits.{sets};
ghost use Rattle.plan.specs.Limits.{most_tasks};
ghost use Rattle.plan_tables.specs.Layout.{task_width, over};
ghost use Rattle.records.specs.Sheet.{blank_task, task_nums, sheet_rows, cut_to, no_rows};

use plan::{Lock, MOST_TASKS};
use plan_tables::{FIRST_LOCK, LOCK_WIDTH, TASK_WIDTH};

// The numbers of as many records as there are places for.
const ROWS: usize = MOST_TASKS * TASK_WIDTH;

// A task: its VCPU, its number, its period, its first run, how many locks it has, and its locks.
#[derive(Clone, Copy)]
pub struct Task {
    pub v: u64,
    pub n: u64,
    pub period: u64,
    pub first: u64,
    pub count: u64,
    pub locks: [Lock; 8],
}

// Room for the numbers of as many records as there are places for, all 0.
pub fn no_rows() -> [u64; ROWS]
    ensures { result ≡ no_rows }
{
    [0u64; ROWS]
}

// The least of n and the places that there are.
pub fn few(n: usize) -> usize
    ensures { result ≡ min n most_tasks }
{
    n.min(MOST_TASKS)
}

// The least of a, n and the places that there are.
pub fn few_of(a: usize, n: usize) -> usize
    ensures { result ≡ min a (min n most_tasks) }
{
    a.min(few(n))
}

// How many numbers n records have.
pub fn width(n: usize) -> usize
    requires { n ≤ most_tasks }
    ensures { result ≡ n * task_width }
{
    n * TASK_WIDTH
}

// Writes three numbers from k on.
fn put_three(d: &mut [u64], k: usize, a: u64, b: u64, c: u64)
    requires { k + 3 ≤ length d.old }
    ensures { d.new ≡ sets d.old k (a ∷ b ∷ c ∷ []) }
{
    d[k] = a;
    d[k + 1] = b;
    d[k + 2] = c;
}

// Writes five numbers from k on.
fn put_five(d: &mut [u64], k: usize, a: u64, b: u64, c: u64, e: u64, f: u64)
    requires { k + 5 ≤ length d.old }
    ensures { d.new ≡ sets d.old k (a ∷ b ∷ c ∷ e ∷ f ∷ []) }
{
    d[k] = a;
    d[k + 1] = b;
    d[k + 2] = c;
    d[k + 3] = e;
    d[k + 4] = f;
}

// Writes the numbers of a record as row i.
fn put_row(d: &mut [u64], i: usize, t: Task)
    requires { (i < most_tasks) × (i * task_width + task_width ≤ length d.old) }
    ensures { d.new ≡ sets d.old (i * task_width) (task_nums t) }
{
    let k = i * TASK_WIDTH;
    put_five(d, k, t.v, t.n, t.period, t.first, t.count);
    for j in 0..8 {
        let l = t.locks[j];
        put_three(d, k + FIRST_LOCK + j * LOCK_WIDTH, l.m, l.ticks, l.after);
    }
}

// The record at i.
fn task_at(tasks: &[Task], i: usize) -> Task
    requires { i < length tasks.now }
    ensures { result ≡ get_or tasks.now i blank_task }
{
    tasks[i]
}

// Copies the first n records, and no more than there are places for, into rows of numbers, and returns how many numbers they have.
pub fn load(tasks: &[Task], rows: &mut [u64], n: usize) -> usize
    requires { min n most_tasks * task_width ≤ length rows.old }
    ensures { (result ≡ length (sheet_rows (cut_to (min n most_tasks) tasks.now))) × (rows.new ≡ over (sheet_rows (cut_to (min n most_tasks) tasks.now)) rows.old) }
{
    let k = few_of(tasks.len(), n);
    for i in 0..k {
        put_row(rows, i, task_at(tasks, i));
    }
    width(k)
}
