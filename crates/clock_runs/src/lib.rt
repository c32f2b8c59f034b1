// What holds of every run of a plan on a clock: this crate has definitions and proofs only, in specs/.
#![tactic(auto)]
