// What the exported calls are good for, call after call, stands in specs/ and is proved in proofs/; this crate has no code.
#![tactic(auto)]
