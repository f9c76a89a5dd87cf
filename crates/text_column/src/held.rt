// Rows in ascending order, a chunk at a time: a list holds the values of the chunk at hand, with the column's block there. A row that it does not hold, be it that reading
// refuses a row of the chunk, or that there is no such row, is read by itself; so a chunk is decoded once, however many of its rows are refused.
ghost use Rattle.std.specs.Prelude.{◌≡◌, ◌≤◌};
ghost use Rattle.text_column.specs.Holding.{Holds, HoldsAt};
ghost use Rattle.text_column.specs.Own.{own_row};
ghost use Rattle.format.specs.Refusals.{answered_by};

use crate::own;
use blockwise_linear::passing::Pass;
use format::{Column, Refusal, WindowRow};
use read_row::reader::block_of;

// What a list holds: the values of the first `count` of the rows from `first` up to `end`, which are of the block that the pass stands at.
#[derive(Clone, Copy)]
pub struct Held {
    pub pass: Pass,
    pub first: WindowRow,
    pub end: WindowRow,
    pub count: usize,
}

// No row.
pub fn nothing(pass: Pass) -> Held
    ensures { (result.pass ≡ pass) × (result.first.0 ≡ 0) × (result.end.0 ≡ 0) × (result.count ≡ 0) }
{
    Held {
        pass,
        first: WindowRow(0),
        end: WindowRow(0),
        count: 0,
    }
}

// Internal: asks for a list that holds what is said, from the row on or before it. Goes on to a row: where it is one of the window's, the list holds the chunk from that row on.
pub fn hold(
    column: Column,
    bytes: &[u8],
    row: WindowRow,
    held: Held,
    values: &mut [u64; 512],
) -> Held
    requires holds { Holds bytes.now column held values.old }
    requires first_le_row { held.first.0 ≤ row.0 }
    ensures { HoldsAt bytes.now column row.0 result values.new }
{
    if column.window.rows <= row.0 {
        return held;
    }
    let number = block_of(column, row);
    let pass = own::pass_at(column, bytes, held.pass, number);
    let block = pass.block;
    let at = read_row::reader::column_row(column.window.first, row);
    let size = read_chunk::chunk_size(at, column.window.rows - row.0);
    let count = own::values(column, block, bytes, row, size, values);
    Held {
        pass,
        first: row,
        end: WindowRow(row.0 + size as u32),
        count,
    }
}

// Internal: asks for a list that holds what is said, of the row's block. The value of a row, out of the list where that holds it.
#[tactic(auto, using(crate::proofs::Rows::own_lacking))]
pub fn answer(
    column: Column,
    bytes: &[u8],
    row: WindowRow,
    held: Held,
    values: &[u64; 512],
) -> Result<u64, Refusal>
    requires { HoldsAt bytes.now column row.0 held values.now }
    ensures { answered_by result ≡ own_row column bytes.now row.0 }
{
    let place = (row.0 - held.first.0) as usize;
    if place < held.count {
        return Ok(values[place]);
    }
    if column.window.rows <= row.0 {
        return Err(Refusal::NoSuchRow);
    }
    let block = held.pass.block;
    own::row(column, block, bytes, row)
}
