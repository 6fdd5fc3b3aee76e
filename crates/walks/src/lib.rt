// The whole search, over memory that passed the checks: its first descent, its turns, and the best round loaded.

#![tactic(auto)]

pub mod rounds;
pub mod tallies;
pub mod turns;
