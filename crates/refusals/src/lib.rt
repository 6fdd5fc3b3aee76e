// The answer numbers 1 to 8: what every call checks of what it is lent, the lowest first. Nothing is written.

#![tactic(auto)]

pub use crate::asked::{kick_good, step_good};
pub use crate::even::symmetric;
pub use crate::lists::list_good;
pub use crate::parts::lent_number;

pub mod asked;
pub mod even;
pub mod lent;
pub mod lists;
pub mod parts;
pub mod sizes;
