// A pass over the blocks that stops at one, and goes on from there: whoever reads rows in ascending order takes each block out of the footer, and needs no
// table.
ghost use Rattle.std.specs.Prelude.{◌≡◌, ◌+◌, min, ◌^◌, ◌<◌};
ghost use Rattle.format.specs.Bodies.{block_count};
ghost use Rattle.blockwise_linear.specs.Reader.{step_in, blocks_from, first_cursor, Small, Good};
ghost use Rattle.blockwise_linear.specs.Passing.{onward, passed, Passing};

use crate::reader::Cursor;
use format::Block;

// How many blocks were passed, the last of them, and the place behind it.
#[derive(Clone, Copy)]
pub struct Pass {
    pub count: usize,
    pub block: Block,
    pub next: Cursor,
}

// The pass over the blocks of so many rows, before the first.
#[tactic(auto, unfolding(crate::specs::Passing::passed))]
pub fn begin(bytes: &[u8], rows: u32) -> Pass
    ensures { result ≡ passed bytes.now rows 0 }
{
    let next = crate::reader::first(bytes, rows);
    Pass {
        count: 0,
        block: Block::default(),
        next,
    }
}

// Internal: asks for a block behind, that was checked. A block further.
fn further(bytes: &[u8], pass: Pass) -> Pass
    requires count_bound { pass.count + 1 < 2 ^ 64 }
    requires small { Small pass.next }
    requires good { Good (step_in bytes.now pass.next) }
    ensures { result ≡ onward pass (step_in bytes.now pass.next) }
{
    let step = crate::reader::next_block(bytes, pass.next);
    let block = step.block;
    let next = step.next;
    Pass {
        count: pass.count + 1,
        block,
        next,
    }
}

// Internal: asks for blocks that were checked, and a pass over them. The pass at block `k`, or at the last: from where it stands, or from the start again where it stands behind that block.
pub fn pass_to(bytes: &[u8], rows: u32, pass: Pass, k: usize) -> Pass
    requires good { Good (blocks_from bytes.now (first_cursor bytes.now rows)) }
    requires passing { Passing bytes.now rows pass }
    ensures { result ≡ passed bytes.now rows (min (k + 1) (block_count rows)) }
{
    let blocks = format::block_count(rows);
    let end = if k < blocks { k + 1 } else { blocks };
    let mut p = pass;
    if end < p.count {
        p = begin(bytes, rows);
    }
    for _ in p.count..end {
        p = further(bytes, p);
    }
    p
}
