// The round and its places: neighbours, legs, recount.

#![tactic(auto)]

pub mod places;
pub mod round;
pub mod times;
