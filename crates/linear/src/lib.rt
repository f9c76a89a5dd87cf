// Linear: one line trained on the first values, each value's residual over it packed at one width.
#![tactic(auto)]

pub mod reader;
