// How the run of a plan in bytes ends, and that code over the tables that its reading left answers so: this crate has definitions and proofs only, in specs/.
#![tactic(auto)]
