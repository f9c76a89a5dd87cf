// Reading behind the entry points: a row, and a chunk of rows. The table is not looked into here: each function takes the block that it needs.
#![tactic(auto)]

pub mod reader;
