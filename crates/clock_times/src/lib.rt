// Where the clock's code finds the times of a plan: this crate has definitions and proofs only, in specs/.
#![tactic(auto)]
