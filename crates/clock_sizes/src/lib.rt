// The text of one tick fits into 131,072 bytes: this crate has definitions and proofs only, in specs/.
#![tactic(auto)]
