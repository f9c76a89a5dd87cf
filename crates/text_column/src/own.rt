// A column that a program opened, seen through its window and read with the bytes that it was opened from: these fit together at every row, so no row is tested for that; and
// rows in ascending order take their blocks out of the footer, so there is no table.
ghost use Rattle.std.specs.Prelude.{◌≡◌, ◌-◌, length};
ghost use Rattle.format.specs.Bodies.{block_count};
ghost use Rattle.format.specs.Reading.{column_row};
ghost use Rattle.read_row.specs.Chunks.{chunk_size};
ghost use Rattle.text_column.specs.Holding.{Values};
ghost use Rattle.text_column.specs.Own.{own_row, block_rows, own_first, block_of, pass_at, own_at, Owned, AtRow};
ghost use Rattle.text_column.specs.Calls.{NarrowsAs};
ghost use Rattle.format.specs.Refusals.{answered_by};

use blockwise_linear::passing::Pass;
use format::{Block, Codec, Column, Refusal, WindowRow};
use read_row::reader::block_of;

// The column, and a pass over its blocks.
#[derive(Clone, Copy)]
pub struct Own {
    pub column: Column,
    pub pass: Pass,
}

// The rows of a column that have blocks: those of a Blockwise one.
fn block_rows(column: Column) -> u32
    ensures { result ≡ block_rows column }
{
    match column.codec {
        Codec::Bitpacked | Codec::Linear(_, _) => 0,
        Codec::Blockwise => column.rows,
    }
}

// How many blocks a column has.
pub fn block_count(column: Column) -> usize
    ensures { result ≡ block_count (block_rows column) }
{
    let rows = block_rows(column);
    format::block_count(rows)
}

// A column of these bytes, before its first block.
pub fn begin(bytes: &[u8], column: Column) -> Own
    ensures { result ≡ own_first bytes.now column }
{
    let rows = block_rows(column);
    let pass = blockwise_linear::passing::begin(bytes, rows);
    Own { column, pass }
}

// Narrows a column's window to `count` rows from its row `first` on; a refusal returns it as it was. The pass is over the column's blocks, and stays.
pub fn narrow(own: Own, first: WindowRow, count: u32) -> Result<Own, (Refusal, Own)>
    ensures { NarrowsAs own.column own.pass first.0 count result }
{
    let pass = own.pass;
    match open_column::narrow(own.column, first.0, count) {
        Ok(column) => Ok(Own { column, pass }),
        Err((refusal, column)) => Err((refusal, Own { column, pass })),
    }
}

// Internal: asks for a column that was opened of these bytes, seen through a window that lies in it, and a pass over its blocks. The pass at a block.
#[tactic(auto, using(crate::proofs::Owns::own_checked))]
pub(crate) fn pass_at(column: Column, bytes: &[u8], pass: Pass, block: usize) -> Pass
    requires { Owned bytes.now column pass }
    ensures { result ≡ pass_at bytes.now column block }
{
    let rows = block_rows(column);
    blockwise_linear::passing::pass_to(bytes, rows, pass, block)
}

// Internal: asks for the same. The column at a block.
pub fn reach_block(own: Own, bytes: &[u8], block: usize) -> Own
    requires { Owned bytes.now own.column own.pass }
    ensures { result ≡ own_at bytes.now own.column block }
{
    let column = own.column;
    let pass = pass_at(column, bytes, own.pass, block);
    Own { column, pass }
}

// Internal: asks for the same. The column at the block of a row.
pub fn reach(own: Own, bytes: &[u8], row: WindowRow) -> Own
    requires { Owned bytes.now own.column own.pass }
    ensures { result ≡ own_at bytes.now own.column (block_of own.column row.0) }
{
    let block = block_of(own.column, row);
    reach_block(own, bytes, block)
}

// Internal: asks for a row of the window, and its block. The value of the row.
#[tactic(auto, using(crate::proofs::Owns::own_answers))]
pub(crate) fn row(
    column: Column,
    block: Block,
    bytes: &[u8],
    row: WindowRow,
) -> Result<u64, Refusal>
    requires { AtRow bytes.now column block row.0 }
    ensures { answered_by result ≡ own_row column bytes.now row.0 }
{
    read_row::reader::row_fitting(column, block, bytes, row)
}

// Internal: asks for a column that was opened of these bytes, seen through a window that lies in it, and a pass over its blocks. The value of a row; one that the window lacks is refused.
#[tactic(auto, using(crate::proofs::Rows::own_lacking, crate::proofs::Owns::own_row_block))]
pub fn answer(own: Own, bytes: &[u8], row: WindowRow) -> Result<u64, Refusal>
    requires { Owned bytes.now own.column own.pass }
    ensures { answered_by result ≡ own_row own.column bytes.now row.0 }
{
    let column = own.column;
    if column.window.rows <= row.0 {
        return Err(Refusal::NoSuchRow);
    }
    let number = block_of(column, row);
    let pass = pass_at(column, bytes, own.pass, number);
    let block = pass.block;
    crate::own::row(column, block, bytes, row)
}

// Internal: asks for a row of the window, its block, the size of the chunk that begins with it, and a list of 512 entries. The values of the chunk's rows, into the front of the list: how many, or none where a row is refused.
pub(crate) fn values(
    column: Column,
    block: Block,
    bytes: &[u8],
    row: WindowRow,
    size: usize,
    out: &mut [u64],
) -> usize
    requires at_row { AtRow bytes.now column block row.0 }
    requires size_value { size ≡ chunk_size (column_row column row.0) (column.window.rows - row.0) }
    requires out_len { length out.old ≡ 512 }
    ensures { Values (own_row column bytes.now) row.0 result out.new }
{
    let at = read_row::reader::column_row(column.window.first, row);
    let n = read_row::reader::decode_fitting(column, block, bytes, at, &mut out[..size]);
    if n < size {
        return 0;
    }
    size
}
