// The moves on a round: the flip, the exchange of two segments, and the moves of two or three legs made of them.

#![tactic(auto)]

pub mod cuts;
pub mod entries;
pub mod flips;
pub mod moves;
pub mod or_moves;
