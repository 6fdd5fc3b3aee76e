// The laws are theorems about the rules: they stand in proofs/, and this crate has no code.

#![tactic(auto)]
