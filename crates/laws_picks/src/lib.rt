// The lowest and the topmost of the numbers from 1 to n that pass a test: this crate has definitions and proofs only, in specs/.
#![tactic(auto)]
