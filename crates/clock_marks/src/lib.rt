// What the clock keeps beside the board's arrays, in one list of numbers: this crate has definitions and proofs only, in specs/.
#![tactic(auto)]
