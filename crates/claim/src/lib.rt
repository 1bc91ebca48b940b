// The sequence theorem (demand 3) stands in proofs/; this crate has no code.
#![tactic(auto)]
