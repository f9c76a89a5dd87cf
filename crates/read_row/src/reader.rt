// Reading a row, with its block out of the table.
ghost use Rattle.std.specs.Prelude.{◌≡◌, true, ◌||◌, ◌+◌, ◌*◌, ◌/◌, ◌%◌, ◌^◌, ◌≤◌, ◌<◌, leb, eqb, length};
ghost use Rattle.format.specs.Packing.{legal};
ghost use Rattle.format.specs.Reading.{column_row, has_block, window_fits, place_of, column_fits, row_fits, fits, value_at, asked_as, row_in};
ghost use Rattle.format.specs.Runs.{read_run};
ghost use Rattle.read_row.specs.Chunks.{DecodedAs, FilledAs, Chunk, Fitting};
ghost use Rattle.format.specs.Refusals.{answered_by};

use format::{Block, Codec, Column, ColumnRow, Place, Refusal, WindowRow};

// The place of a row's number, by the codec.
fn place_of(column: Column, block: Block, row: ColumnRow) -> Place
    ensures { result ≡ place_of column block row.0 }
{
    let codec = column.codec;
    match codec {
        Codec::Bitpacked => Place {
            start: 0,
            row: row.0,
            bits: word::wide(bitpacker::compute_num_bits(column.count)),
        },
        Codec::Linear(_, bits) => Place {
            start: 0,
            row: row.0,
            bits: word::wide(bits),
        },
        Codec::Blockwise => Place {
            start: block.start,
            row: blockwise_rows::reader::split(row).row.0,
            bits: block.bits,
        },
    }
}

// Whether a table of so many blocks has the row's: only Blockwise has blocks.
fn has_block(codec: Codec, blocks: usize, row: ColumnRow) -> bool
    ensures { result ≡ has_block codec blocks row.0 }
{
    match codec {
        Codec::Bitpacked => true,
        Codec::Linear(_, _) => true,
        Codec::Blockwise => blockwise_rows::reader::split(row).block < blocks,
    }
}

// Whether a width is legal.
fn is_legal(bits: u64) -> bool
    ensures { result ≡ legal bits }
{
    if bits <= 56 {
        return true;
    }
    bits == 64
}

// Whether a row's number, of a legal width, ends within an area of `size` bytes. One of no bits is nowhere, and so does. The row's end is
// counted in bytes from the run's start, so that no number leaves its range however large the start is.
fn ends_inside(size: usize, place: Place) -> bool
    requires { legal place.bits ≡ true }
    ensures { result ≡ (eqb place.bits 0 || leb (8 * place.start + (place.row + 1) * place.bits) (8 * size)) }
{
    if place.bits == 0 {
        return true;
    }
    let area = size as u64;
    if area < place.start {
        return false;
    }
    let end = (place.row as u64 + 1) * place.bits;
    (end + 7) / 8 <= area - place.start
}

// A row of a window, as the column counts it, whose row `first` is the window's first; modulo 2^32, which shows only where the window leaves the column.
pub fn column_row(first: u32, row: WindowRow) -> ColumnRow
    ensures { result.0 ≡ (first + row.0) % 2 ^ 32 }
{
    let at = first as u64 + row.0 as u64;
    ColumnRow((at % 0x1_0000_0000) as u32)
}

// The block that has a row of a window, as the column counts the row, modulo 2^32.
pub fn block_of(column: Column, row: WindowRow) -> usize
    ensures { result ≡ column_row column row.0 % 2 ^ 32 / 512 }
{
    blockwise_rows::reader::split(column_row(column.window.first, row)).block
}

// Whether the window lies in the column.
pub fn window_fits(column: Column) -> bool
    ensures { result ≡ window_fits column }
{
    column.window.first as u64 + column.window.rows as u64 <= column.rows as u64
}

// Whether column and bytes fit together, whatever the row.
fn column_fits(column: Column, bytes: &[u8]) -> bool
    ensures { result ≡ column_fits column bytes.now }
{
    if !window_fits(column) {
        return false;
    }
    if column.gcd == 0 {
        return false;
    }
    if !stats::bounds_fit(column.minimum, column.count, column.gcd) {
        return false;
    }
    word::ends_within(column.start, column.size, bytes.len())
}

// Whether column and table fit together at a row.
fn row_fits(column: Column, blocks: usize, block: Block, row: ColumnRow) -> bool
    ensures { result ≡ row_fits column blocks block row.0 }
{
    let codec = column.codec;
    if !has_block(codec, blocks, row) {
        return false;
    }
    let place = place_of(column, block, row);
    if !is_legal(place.bits) {
        return false;
    }
    ends_inside(column.size, place)
}

// Whether column, table and bytes fit together at a row.
fn fits(column: Column, blocks: usize, block: Block, bytes: &[u8], row: ColumnRow) -> bool
    ensures { result ≡ fits column blocks block bytes.now row.0 }
{
    if !column_fits(column, bytes) {
        return false;
    }
    row_fits(column, blocks, block, row)
}

// Internal: asks for a row at which all fits together. Its value, by the codec.
fn value_of(column: Column, block: Block, bytes: &[u8], row: ColumnRow) -> Result<u64, Refusal>
    requires { Fitting column (place_of column block row.0) bytes.now }
    ensures { answered_by result ≡ value_at column block bytes.now row.0 }
{
    let codec = column.codec;
    match codec {
        Codec::Bitpacked => bitpacked::reader::get_val(column, bytes, row),
        Codec::Linear(line, bits) => linear::reader::get_val(column, line, bits, bytes, row),
        Codec::Blockwise => blockwise_rows::reader::get_val(column, block, bytes, row),
    }
}

// Internal: asks for a row below 2^32 at which all fits together. Its value, with no test but that of the bounds; a row out of bounds is named as it was asked for.
pub fn row_fitting(
    column: Column,
    block: Block,
    bytes: &[u8],
    row: WindowRow,
) -> Result<u64, Refusal>
    requires row_bound { column_row column row.0 < 2 ^ 32 }
    requires fitting { Fitting column (place_of column block (column_row column row.0)) bytes.now }
    ensures { answered_by result ≡ asked_as row.0 (value_at column block bytes.now (column_row column row.0)) }
{
    let at = column_row(column.window.first, row);
    match value_of(column, block, bytes, at) {
        Ok(v) => Ok(v),
        Err(_) => Err(Refusal::OutOfBounds { row: row.0 }),
    }
}

// A row of the column's window, with its block out of a table of so many: whether there is such a row, whether column, table and
// bytes fit together there, and its value.
pub fn row_in(
    column: Column,
    blocks: usize,
    block: Block,
    bytes: &[u8],
    row: WindowRow,
) -> Result<u64, Refusal>
    ensures { answered_by result ≡ row_in column blocks block bytes.now row.0 }
{
    if column.window.rows <= row.0 {
        return Err(Refusal::NoSuchRow);
    }
    let at = column_row(column.window.first, row);
    if !fits(column, blocks, block, bytes, at) {
        return Err(Refusal::Unfit);
    }
    row_fitting(column, block, bytes, row)
}

// Internal: asks for rows below 2^32. The rows one by one, each with all its tests: the way of a chunk that does not fit as a whole.
fn decode_rows(
    column: Column,
    blocks: usize,
    block: Block,
    bytes: &[u8],
    first: WindowRow,
    out: &mut [u64],
) -> Result<(), Refusal>
    requires { first.0 + length out.old ≤ 2 ^ 32 }
    ensures { DecodedAs (read_run (row_in column blocks block bytes.now) first.0 (length out.old)) result out.new }
{
    for (i, value) in out.iter_mut().enumerate() {
        *value = row_in(column, blocks, block, bytes, WindowRow(first.0 + i as u32))?;
    }
    Ok(())
}

// Internal: asks for rows of the column, in one block, that fit as a whole. Their values with no test but that of the bounds; returns how many rows stand in the list.
pub fn decode_fitting(
    column: Column,
    block: Block,
    bytes: &[u8],
    first: ColumnRow,
    out: &mut [u64],
) -> usize
    requires chunk { Chunk column.rows 0 first.0 (length out.old) }
    requires fitting { Fitting column (place_of column block first.0) bytes.now }
    ensures { FilledAs (read_run (value_at column block bytes.now) first.0 (length out.old)) result first.0 out.new }
{
    let codec = column.codec;
    match codec {
        Codec::Bitpacked => bitpacked::reader::get_range(column, bytes, first, out),
        Codec::Linear(line, bits) => {
            linear::reader::get_range(column, line, bits, bytes, first, out)
        }
        Codec::Blockwise => blockwise_rows::reader::get_range(column, block, bytes, first, out),
    }
}

// Internal: asks for a chunk: rows of the window, at least one, that lie in one block. Their values, with the block out of a table of so many. What fits at the last row fits at all of
// them, so that one test serves the chunk. Either the list is filled, or the first refused row decides.
pub fn decode(
    column: Column,
    blocks: usize,
    block: Block,
    bytes: &[u8],
    first: WindowRow,
    out: &mut [u64],
) -> Result<(), Refusal>
    requires { Chunk column.window.rows column.window.first first.0 (length out.old) }
    ensures { DecodedAs (read_run (row_in column blocks block bytes.now) first.0 (length out.old)) result out.new }
{
    let last = column_row(
        column.window.first,
        WindowRow(first.0 + (out.len() - 1) as u32),
    );
    if !fits(column, blocks, block, bytes, last) {
        return decode_rows(column, blocks, block, bytes, first, out);
    }
    let at = column_row(column.window.first, first);
    let n = decode_fitting(column, block, bytes, at, out);
    if n < out.len() {
        return Err(Refusal::OutOfBounds {
            row: first.0 + n as u32,
        });
    }
    Ok(())
}
