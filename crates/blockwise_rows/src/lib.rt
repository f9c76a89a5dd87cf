// The rows of a Blockwise column, each by its block.
#![tactic(auto)]

pub mod reader;
