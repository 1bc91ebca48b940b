// Laws of the rules' definitions stand in proofs/; this crate has no code.
#![tactic(auto)]
