// What `verdict` printed before a ceiling equal to the task counted, and that no row that failed then fits now: this crate has definitions and proofs only, in specs/ and proofs/.
#![tactic(auto)]
