// Where two opened columns differ, behind the entry point: the first row from a given one on whose answers differ, with both answers. `equal` compares the rows of a chunk, `walking` goes from
// chunk to chunk. Who has the columns' blocks hands each turn its own.
#![tactic(auto)]

pub mod equal;
pub mod walking;

use format::Refusal;

// A row whose answers differ, with both.
#[derive(Clone, Copy)]
pub struct Difference {
    pub row: u32,
    pub left: Result<u64, Refusal>,
    pub right: Result<u64, Refusal>,
}
