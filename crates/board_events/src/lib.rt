// Events as lines in, answers as lines out: this crate has definitions and proofs only, in specs/ and proofs/.
#![tactic(auto)]
