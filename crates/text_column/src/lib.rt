// A column within a program's limits, read without a block table: opening it, its rows one by one or a chunk at a time in ascending order, out of the blocks in its own footer.
#![tactic(auto)]

pub mod held;
pub mod opening;
pub mod own;
