// The answer of a task, in a lent slice. What stands where is said in specs/Store of `figures_slices`.
#![tactic(auto)]

ghost use Rattle.std.specs.Prelude.{◌≡◌, ◌+◌, ◌*◌, ◌≤◌, length};
ghost use Rattle.search.specs.Row.{pushed};
ghost use Rattle.figures.specs.Kinds.{task_kind, task_ticks, task_rounds};
ghost use Rattle.figures_slices.specs.Filled.{task_answer_row};

use figures::TaskAnswer;

// What a task's answer is: 0 late, 1 fits, 2 nowait, 3 held.
fn task_kind(a: TaskAnswer) -> u64
    ensures { result ≡ task_kind a }
{
    match a {
        TaskAnswer::Searched(b) => answers_waits::kind_of(b),
        TaskAnswer::NoWait => 2,
        TaskAnswer::Held => 3,
    }
}

// The window of a task's answer, 0 where it is lacking.
fn task_ticks(a: TaskAnswer) -> u64
    ensures { result ≡ task_ticks a }
{
    match a {
        TaskAnswer::Searched(b) => answers_waits::ticks_of(b),
        TaskAnswer::NoWait => 0,
        TaskAnswer::Held => 0,
    }
}

// The rounds of a task's answer, 0 where there was no search.
fn task_rounds(a: TaskAnswer) -> u64
    ensures { result ≡ task_rounds a }
{
    match a {
        TaskAnswer::Searched(b) => answers_waits::rounds_of(b),
        TaskAnswer::NoWait => 0,
        TaskAnswer::Held => 0,
    }
}

// Writes task answer n.
pub fn put_task(xs: &mut [u64], n: usize, a: TaskAnswer)
    requires { n * 3 + 3 ≤ length xs.old }
    ensures { xs.new ≡ pushed xs.old n (task_answer_row a) }
{
    let x = task_kind(a);
    let y = task_ticks(a);
    let z = task_rounds(a);
    search_rows::push_row(xs, n, x, y, z);
}
