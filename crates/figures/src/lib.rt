// The answer of a task's row. What the figures of a plan mean stands in specs/Figures, and its answers in specs/Answers.
#![tactic(auto)]

use search::Answer;

// A task's search is answered; or one of its own waits has no answer; or a higher task of its VCPU has such a wait.
#[derive(Clone, Copy)]
pub enum TaskAnswer {
    Searched(Answer),
    NoWait,
    Held,
}
