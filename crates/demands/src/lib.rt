// The demands are statements and theorems: they stand in specs/ and proofs/, and this crate has no code.

#![tactic(auto)]
