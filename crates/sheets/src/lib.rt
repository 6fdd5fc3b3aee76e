// 01, "Sheets": the input sheet, its header and its refusals.

#![tactic(auto)]

pub mod ends;
pub mod header;
pub mod lists;
pub mod sheet;
pub mod sizes;
