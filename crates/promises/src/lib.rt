// What the public calls promise are definitions: they stand in specs/, and this crate has no code.

#![tactic(auto)]
