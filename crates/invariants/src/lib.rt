// What every accepted request keeps stands in proofs/; this crate has no code.
#![tactic(auto)]
