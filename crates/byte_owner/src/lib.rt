// Which rows own a bit of a byte: a search, block after block. The blocks are fetched by whoever searches; here a block comes by value.
#![tactic(auto)]

ghost use Rattle.std.specs.Prelude.{◌≡◌, List, ◌+◌, ◌-◌, ◌*◌, ◌^◌, ◌<◌, min};
ghost use Rattle.format.specs.Packing.{legal};
ghost use Rattle.format.specs.Reading.{block_at};
ghost use Rattle.format.specs.Parts.{run_owners};
ghost use Rattle.byte_owner.specs.Bytes.{rows_of};
ghost use Rattle.byte_owner.specs.Search.{ended, area_search, searched, Searching};

use format::{Block, Codec, Column, Refusal};

// A search for the rows of a byte of the area: the next block to ask, how many are left, and the answer if none of them has rows there.
#[derive(Clone, Copy)]
pub struct Search {
    pub next: usize,
    pub left: u32,
    pub byte: u64,
    pub answer: Result<Option<(u32, u32)>, Refusal>,
}

// Whether a width is legal.
fn is_legal(bits: u64) -> bool
    ensures { result ≡ legal bits }
{
    if bits <= 56 {
        return true;
    }
    bits == 64
}

// Internal: asks that the run's rows can be counted. The first and the last row of a run that own a bit of byte `j` of the area: `rows` numbers
// of `bits` bits, the first that of row `first`, from byte `start` of the area on.
fn run_owners(start: u64, bits: u64, first: u32, rows: u32, j: u64) -> Option<(u32, u32)>
    requires { first + rows < 2 ^ 32 }
    ensures { result ≡ run_owners (record { start = start; bits = bits; first = first; rows = rows }) j }
{
    if !is_legal(bits) {
        return None;
    }
    if j < start {
        return None;
    }
    let end = (rows as u64) * bits;
    let byte = j - start;
    if end <= byte {
        return None;
    }
    let bit = 8 * byte;
    if end <= bit {
        return None;
    }
    let last = word::lesser((bit + 7) / bits, rows as u64 - 1);
    Some((first + (bit / bits) as u32, first + last as u32))
}

// The rows of a block with so many rows from it on: 512, in the last perhaps fewer.
fn block_rows(left: u32) -> u32
    ensures { result ≡ min left 512 }
{
    if left < 512 { left } else { 512 }
}

// Internal: asks for a block that has rows. The same of block `k`, of so many rows in all.
fn block_run(block: Block, rows: u32, k: usize, j: u64) -> Option<(u32, u32)>
    requires { 512 * k < rows }
    ensures { result ≡ run_owners (record { start = block.start; bits = block.bits; first = 512 * k; rows = min (rows - 512 * k) 512 }) j }
{
    let first = 512 * (k as u32);
    let here = block_rows(rows - first);
    run_owners(block.start, block.bits, first, here, j)
}

// A search that is over, with its answer.
fn over(answer: Result<Option<(u32, u32)>, Refusal>) -> Search
    ensures { result ≡ ended answer }
{
    Search {
        next: 0,
        left: 0,
        byte: 0,
        answer,
    }
}

// By the codec, for a byte of the area: one run is all that Bitpacked and Linear have, so their search is over at once.
#[tactic(auto, unfolding(crate::specs::Search::area_search))]
fn begin_at(column: Column, byte: u64) -> Search
    ensures { result ≡ area_search column.codec column.count column.rows byte }
{
    match column.codec {
        Codec::Bitpacked => {
            let bits = word::wide(bitpacker::compute_num_bits(column.count));
            over(Ok(run_owners(0, bits, 0, column.rows, byte)))
        }
        Codec::Linear(_, bits) => {
            let bits = word::wide(bits);
            over(Ok(run_owners(0, bits, 0, column.rows, byte)))
        }
        Codec::Blockwise => Search {
            next: 0,
            left: byte_part::naming::block_count(column.rows),
            byte,
            answer: Ok(None),
        },
    }
}

// How a search begins: before the area no row has a bit.
pub fn begin(column: Column, bytes: &[u8], offset: usize) -> Search
    ensures { Searching column.rows result × ((table : List Block) → searched table column.rows result ≡ rows_of bytes.now column table offset) }
{
    if !byte_part::fits_at(column, bytes, offset) {
        return over(Err(Refusal::Unfit));
    }
    if offset < column.start {
        return over(Ok(None));
    }
    begin_at(column, (offset - column.start) as u64)
}

// Internal: asks for a search that is not over. The next block is asked: one that has rows there decides.
pub fn step(column: Column, block: Block, search: Search) -> Search
    requires { Searching column.rows search × (0 < search.left) }
    ensures searching { Searching column.rows result × ((table : List Block) → block ≡ block_at table search.next → searched table column.rows result ≡ searched table column.rows search) }
    ensures left_lt_left { result.left < search.left }
{
    let owners = block_run(block, column.rows, search.next, search.byte);
    if owners.is_some() {
        return over(Ok(owners));
    }
    Search {
        next: search.next + 1,
        left: search.left - 1,
        byte: search.byte,
        answer: Ok(owners),
    }
}
