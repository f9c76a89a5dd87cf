// How many rows from one on have equal answers, within a chunk of both columns: by the values of all its rows, where both columns decode it as a whole, and row by row where one does not.
ghost use Rattle.std.specs.Prelude.{◌≡◌, ◌+◌, ◌^◌, ◌≤◌, length};
ghost use Rattle.format.specs.Comparing.{equal_answers};
ghost use Rattle.read_row.specs.Chunks.{Chunk};
ghost use Rattle.compare_walk.specs.Equal.{side_row, list_row, EqualFor, shared_size, LookedAt};
ghost use Rattle.format.specs.Refusals.{answered_by};

use format::{Block, Column, Refusal, WindowRow, equal_answers};
use read_chunk::{chunk_size, cut};
use read_row::reader::{column_row, decode, row_in};

// One side of a comparison: a column, with a block out of its table of so many.
#[derive(Clone, Copy)]
pub struct Side {
    pub column: Column,
    pub blocks: usize,
    pub block: Block,
}

// So many rows were looked at, and the first of them have equal answers: all, or those before the first that differs.
#[derive(Clone, Copy)]
pub struct Looked {
    pub size: usize,
    pub equal: usize,
}

// A row of a side's window.
pub(crate) fn row_of(side: Side, bytes: &[u8], row: u32) -> Result<u64, Refusal>
    ensures { answered_by result ≡ side_row side bytes.now row }
{
    row_in(side.column, side.blocks, side.block, bytes, WindowRow(row))
}

// Whether the answers at a row are equal.
fn equal_at(left: Side, lbytes: &[u8], right: Side, rbytes: &[u8], row: u32) -> bool
    ensures { result ≡ equal_answers (side_row left lbytes.now row) (side_row right rbytes.now row) }
{
    equal_answers(row_of(left, lbytes, row), row_of(right, rbytes, row))
}

// Internal: asks for rows below 2^32. How many have equal answers, row by row.
fn equal_rows(
    left: Side,
    lbytes: &[u8],
    right: Side,
    rbytes: &[u8],
    first: u32,
    size: usize,
) -> usize
    requires { first + size ≤ 2 ^ 32 }
    ensures { EqualFor (side_row left lbytes.now) (side_row right rbytes.now) first size result }
{
    for i in 0..size {
        if !equal_at(left, lbytes, right, rbytes, first + i as u32) {
            return i;
        }
    }
    size
}

// Internal: asks for lists of one length. How many values are equal.
fn equal_values(left: &[u64], right: &[u64]) -> usize
    requires { length left.now ≡ length right.now }
    ensures { EqualFor (list_row left.now) (list_row right.now) 0 (length left.now) result }
{
    left.iter()
        .zip(right)
        .position(|(l, r)| l != r)
        .unwrap_or(left.len())
}

// Internal: asks for a chunk of both columns, and two lists of its size. How many of its rows have equal answers.
fn equal_chunk(
    left: Side,
    lbytes: &[u8],
    right: Side,
    rbytes: &[u8],
    first: u32,
    lvalues: &mut [u64],
    rvalues: &mut [u64],
) -> usize
    requires { Chunk left.column.window.rows left.column.window.first first (length lvalues.old) × Chunk right.column.window.rows right.column.window.first first (length rvalues.old) × (length lvalues.old ≡ length rvalues.old) × (first + length lvalues.old ≤ 2 ^ 32) }
    ensures { EqualFor (side_row left lbytes.now) (side_row right rbytes.now) first (length lvalues.old) result }
{
    let size = lvalues.len();
    let decoded = decode(
        left.column,
        left.blocks,
        left.block,
        lbytes,
        WindowRow(first),
        lvalues,
    );
    if let Err(_) = decoded {
        return equal_rows(left, lbytes, right, rbytes, first, size);
    }
    let also = decode(
        right.column,
        right.blocks,
        right.block,
        rbytes,
        WindowRow(first),
        rvalues,
    );
    if let Err(_) = also {
        return equal_rows(left, lbytes, right, rbytes, first, size);
    }
    equal_values(lvalues, rvalues)
}

// The rows from one on that lie in one block of each column and in both windows; none where a window has ended.
fn shared_size(left: Column, right: Column, first: u32) -> usize
    ensures value { result ≡ shared_size left right first }
    ensures result_bound { first + result ≤ 2 ^ 32 }
{
    let rows = cut(left.window.rows, right.window.rows);
    if rows <= first {
        return 0;
    }
    let n = chunk_size(
        column_row(left.window.first, WindowRow(first)),
        rows - first,
    );
    let m = chunk_size(
        column_row(right.window.first, WindowRow(first)),
        rows - first,
    );
    if n < m { n } else { m }
}

// Looks at the rows from it on that one chunk of both columns has; at that row alone where only one window has it.
pub(crate) fn look(left: Side, lbytes: &[u8], right: Side, rbytes: &[u8], first: u32) -> Looked
    ensures { LookedAt left lbytes.now right rbytes.now first result }
{
    let size = shared_size(left.column, right.column, first);
    if size == 0 {
        let equal = equal_rows(left, lbytes, right, rbytes, first, 1);
        return Looked { size: 1, equal };
    }
    let mut lbuffer = [0u64; 512];
    let mut rbuffer = [0u64; 512];
    let equal = equal_chunk(
        left,
        lbytes,
        right,
        rbytes,
        first,
        &mut lbuffer[..size],
        &mut rbuffer[..size],
    );
    Looked { size, equal }
}
