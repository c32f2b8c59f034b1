// How a run of a plan on a clock ends. What a run is stands in specs/Clock.
#![tactic(auto)]

use plan::Refusal;

// Ended before the tick of its horizon; missed, at the first job unfinished when its next is released; or refused.
#[derive(Clone, Copy)]
pub enum RunAnswer {
    Ended,
    Missed { tick: u64, v: u64, n: u64 },
    NoRun(Refusal),
}
