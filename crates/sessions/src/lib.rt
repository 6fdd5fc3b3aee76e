// Sequences of calls: each record sets up what is lent, damages it, or makes a call, which is compared with what the oracle answered.

#![tactic(auto)]

pub mod calls;
pub mod records;
#[cfg(test)]
mod tests;
