// Two columns of equal length, byte by byte: the first field that differs, the rows that a byte names, and how many bytes and rows there are.
#![tactic(auto)]

pub mod counting;
pub mod fields;
pub mod owners;
