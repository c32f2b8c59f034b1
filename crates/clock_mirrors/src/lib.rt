// What the list that the clock keeps tells of the board, event by event: this crate has definitions and proofs only, in specs/.
#![tactic(auto)]
