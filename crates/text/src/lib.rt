// What the libraries above have in common that say something of a column as text: numbers, answers and lines written into a lent buffer, and what a bufferful of
// rows' text is.
#![tactic(auto)]

pub mod lines;
pub mod put;

// What a chunk took: how many rows, and how many bytes their text is.
#[derive(Clone, Copy)]
pub struct Filled {
    pub rows: u32,
    pub bytes: usize,
}
