// The text of a blame, below its entry points: its lines, and what is said of an offset.
#![tactic(auto)]

pub mod lines;
pub mod rows;
