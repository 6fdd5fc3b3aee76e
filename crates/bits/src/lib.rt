// 01, "Sheets": "Bit-packed, most significant first": fields of bits read from bytes, and written into them.

#![tactic(auto)]

pub mod read;
pub mod write;
