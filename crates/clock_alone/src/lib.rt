// The turn of one core, beside another core that is plain: this crate has definitions and proofs only, in specs/.
#![tactic(auto)]
