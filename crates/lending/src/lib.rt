// What is lent to a sequence of calls: set up, damaged and compared as records say. A record that asks for more memory than there is gets
// what there is, and then differs.

#![tactic(auto)]

pub mod compare;
pub mod damage;
pub mod memory;
pub mod plan;
pub mod range;
pub mod reader;
pub mod session;
pub mod told;
