// Two plans run on a clock, computed from the definitions, and a plan that fits and misses: this crate has definitions and proofs only, in specs/.
#![tactic(auto)]
