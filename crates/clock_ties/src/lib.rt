// No two ready tasks of a VCPU and no two VCPUs tie, so that a pick is the one highest: this crate has definitions and proofs only, in specs/.
#![tactic(auto)]
