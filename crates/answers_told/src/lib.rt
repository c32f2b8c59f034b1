// A plan's answers, each read back from the slices that hold them.
#![tactic(auto)]

ghost use Rattle.std.specs.Prelude.{◌≡◌, ◌+◌, ◌*◌, ◌≤◌, length};
ghost use Rattle.laws.specs.Sums.{all};
ghost use Rattle.laws.specs.Rows.{rows};
ghost use Rattle.figures_cells.specs.Held.{system_of};
ghost use Rattle.figures.specs.Answers.{all_fit};
ghost use Rattle.figures.specs.Kinds.{answer_of, task_answer_of};
ghost use Rattle.answers_told.specs.Read.{answer_in, task_answer_in, fits_in};
ghost use Rattle.answers_told.specs.Lent.{VcpuAnswersOf, TaskAnswersOf};

use figures::TaskAnswer;
use figures_cells::PlanTables;
use search::Answer;

fn answer_of(k: u64, w: u64, n: u64) -> Answer
    ensures { result ≡ answer_of k w n }
{
    if k == 1 {
        Answer::Fits { w, rounds: n }
    } else {
        Answer::Late { rounds: n }
    }
}

fn task_answer_of(k: u64, w: u64, n: u64) -> TaskAnswer
    ensures { result ≡ task_answer_of k w n }
{
    if k == 2 {
        return TaskAnswer::NoWait;
    }
    if k == 3 {
        return TaskAnswer::Held;
    }
    let a = answer_of(k, w, n);
    TaskAnswer::Searched(a)
}

// The answer at place k.
pub fn answer_at(xs: &[u64], k: usize) -> Answer
    requires { k * 3 + 3 ≤ length xs.now }
    ensures { result ≡ answer_in xs.now k }
{
    let x = xs[k * 3];
    let y = xs[k * 3 + 1];
    let z = xs[k * 3 + 2];
    answer_of(x, y, z)
}

// The task's answer at place k.
pub fn task_answer_at(xs: &[u64], k: usize) -> TaskAnswer
    requires { k * 3 + 3 ≤ length xs.now }
    ensures { result ≡ task_answer_in xs.now k }
{
    let x = xs[k * 3];
    let y = xs[k * 3 + 1];
    let z = xs[k * 3 + 2];
    task_answer_of(x, y, z)
}

// Are the first n answers all fits?
fn rows_fit(xs: &[u64], n: usize) -> bool
    requires { n * 3 ≤ length xs.now }
    ensures { result ≡ all (fits_in xs.now) (rows n (λ k. k)) }
{
    for k in 0..n {
        let b = xs[k * 3] == 1;
        if !b {
            return false;
        }
    }
    true
}

// Do all VCPUs and tasks fit?
pub fn all_fit(t: &PlanTables, va: &[u64], ta: &[u64]) -> bool
    requires { VcpuAnswersOf t.now va.now × TaskAnswersOf t.now ta.now }
    ensures { result ≡ all_fit (system_of t.now) }
{
    rows_fit(va, t.plan.vcpus) & rows_fit(ta, t.plan.tasks)
}
