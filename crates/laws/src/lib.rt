// Laws without a word of the domain: this crate has definitions and proofs only, in specs/ and proofs/.
#![tactic(auto)]
