// A chunk of rows for callers that take refused rows one by one: how many values it has, or how many before the first row that reading refuses, and that refusal.
ghost use Rattle.std.specs.Prelude.{◌≡◌, ◌+◌, ◌-◌, ◌^◌, ◌≤◌, length};
ghost use Rattle.format.specs.Reading.{column_row, row_in};
ghost use Rattle.read_row.specs.Chunks.{Chunk, chunk_size};
ghost use Rattle.read_chunk.specs.Stretch.{StretchAs, counted};

use format::{Block, Column, Refusal, WindowRow};

// How many values a chunk has before its end, or before its first refused row.
pub fn values_of(stretch: Result<usize, (usize, Refusal)>) -> usize
    ensures { result ≡ counted stretch }
{
    match stretch {
        Ok(n) => n,
        Err((n, _)) => n,
    }
}

// Internal: asks for rows below 2^32 for which the list has room. The rows one by one, up to the first refused one.
fn store_rows(
    column: Column,
    blocks: usize,
    block: Block,
    bytes: &[u8],
    first: u32,
    size: usize,
    out: &mut [u64],
) -> Result<usize, (usize, Refusal)>
    requires { (first + size ≤ 2 ^ 32) × (size ≤ length out.old) }
    ensures { StretchAs (row_in column blocks block bytes.now) first size result out.old out.new }
{
    for (i, value) in out[..size].iter_mut().enumerate() {
        *value = match read_row::reader::row_in(
            column,
            blocks,
            block,
            bytes,
            WindowRow(first + i as u32),
        ) {
            Ok(v) => v,
            Err(why) => return Err((i, why)),
        };
    }
    Ok(size)
}

// Internal: asks for a chunk that a buffer has the size of, and a list with room for it. A chunk that decodes as a whole is copied; another goes row by row, up to its first refused one.
fn take_through(
    column: Column,
    blocks: usize,
    block: Block,
    bytes: &[u8],
    first: u32,
    values: &mut [u64],
    out: &mut [u64],
) -> Result<usize, (usize, Refusal)>
    requires { Chunk column.window.rows column.window.first first (length values.old) × (length values.old ≤ length out.old) }
    ensures { StretchAs (row_in column blocks block bytes.now) first (length values.old) result out.old out.new }
{
    let size = values.len();
    let answer = read_row::reader::decode(column, blocks, block, bytes, WindowRow(first), values);
    match answer {
        Ok(()) => {
            crate::copy(values, out, 0);
            Ok(values.len())
        }
        Err(_) => store_rows(column, blocks, block, bytes, first, size, out),
    }
}

// The chunk that begins with a row of the window, with its block out of a table of so many, into the front of a list of 512 entries.
pub fn take(
    column: Column,
    blocks: usize,
    block: Block,
    bytes: &[u8],
    first: u32,
    out: &mut [u64; 512],
) -> Result<usize, (usize, Refusal)>
    ensures { StretchAs (row_in column blocks block bytes.now) first (chunk_size (column_row column first) (column.window.rows - first)) result out.old out.new }
{
    if column.window.rows <= first {
        return Ok(0);
    }
    let mut buffer = [0u64; 512];
    let at = read_row::reader::column_row(column.window.first, WindowRow(first));
    let size = crate::chunk_size(at, column.window.rows - first);
    take_through(
        column,
        blocks,
        block,
        bytes,
        first,
        &mut buffer[..size],
        out,
    )
}
