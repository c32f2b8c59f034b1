// What the timing of an accepted plan satisfies: this crate has definitions and proofs only, in specs/.
#![tactic(auto)]
