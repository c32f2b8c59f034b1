// A run of the plan on the clock keeps in step with the board: this crate has definitions and proofs only, in specs/.
#![tactic(auto)]
