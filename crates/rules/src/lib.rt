// The rules of 01 are definitions: they stand in specs/, and this crate has no code.

#![tactic(auto)]
