// Blockwise: lines trained on blocks of 512 values, each block's residuals packed at a width of its own.
#![tactic(auto)]

pub mod passing;
pub mod reader;
pub mod short;
