// Stretches of ticks in which a core's turn stays the same: this crate has definitions and proofs only, in specs/.
#![tactic(auto)]
