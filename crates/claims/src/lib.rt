// Theorems over several floors: this crate has proofs only, in specs/ and proofs/.
#![tactic(auto)]
