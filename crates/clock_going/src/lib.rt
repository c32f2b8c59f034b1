// What holds of the clock's lists between the parts of a tick: this crate has definitions and proofs only, in specs/.
#![tactic(auto)]
