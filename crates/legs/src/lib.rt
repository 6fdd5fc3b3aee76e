// Stops, places, and the leg between two stops.

#![tactic(auto)]

pub mod lists;
pub mod matrix;
pub mod plan;

// A stop's number.
#[derive(Clone, Copy, PartialEq, Eq)]
pub struct Stop(pub u32);

// A place in the round.
#[derive(Clone, Copy, PartialEq, Eq)]
pub struct Place(pub u32);
