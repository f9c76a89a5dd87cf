// Choosing the codec of a column, and writing the column that it makes.
#![tactic(auto)]

pub mod choice;
pub mod writer;
