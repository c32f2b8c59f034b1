// The field of a plan's refusal, in other words, and that its number and line are those of before: this crate has definitions and proofs only, in specs/ and proofs/.
#![tactic(auto)]
