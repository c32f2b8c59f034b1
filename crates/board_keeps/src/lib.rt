// Theorems on the board's events: this crate has proofs only, in specs/ and proofs/.
#![tactic(auto)]
