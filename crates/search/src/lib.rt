// The answer to a search over a demand. What it means stands in specs/Search, and the rows that a demand is the sum of in specs/Row.
#![tactic(auto)]

// The smallest number whose demand is not above it, or that there is none up to the limit; and the rounds.
#[derive(Clone, Copy)]
pub enum Answer {
    Fits { w: u64, rounds: u64 },
    Late { rounds: u64 },
}
