// Document 01's rules stand in specs/ as definitions; this crate has no code.
#![tactic(auto)]
