// Looking at a chunk whose values are not asked for: where no number of a row's width can bring a value out of bounds, the bits are not read at all.
#![tactic(auto)]

ghost use Rattle.std.specs.Prelude.{◌≡◌, true, ◌+◌, ◌*◌, ◌%◌, ◌^◌, ◌≤◌, ◌<◌, Ok};
ghost use Rattle.format.specs.Packing.{width};
ghost use Rattle.format.specs.Reading.{place_of, row_in};
ghost use Rattle.format.specs.Runs.{read_run};
ghost use Rattle.read_row.specs.Chunks.{Chunk, Fitting};
ghost use Rattle.read_bounds.specs.Looks.{LookedAs, Sure, Stands, Gentle, Near, Counted, multiples_of};

use format::{Block, Codec, Column, ColumnRow, Line, Refusal, WindowRow};

// Internal: asks for at most 56 bits. Two to the power of so many.
fn power(bits: u64) -> u64
    requires { bits ≤ 56 }
    ensures { (result ≡ 2 ^ bits) × (result ≤ 2 ^ 56) }
{
    1 << bits
}

// Whether a count is the greatest number of its width.
fn is_full(count: u64) -> bool
    ensures { result ≡ true → 2 ^ width count ≤ count + 1 }
{
    let bits = word::wide(bitpacker::compute_num_bits(count));
    if 56 < bits {
        return false;
    }
    power(bits) - 1 <= count
}

// Internal: asks for a place below 2^32. Whether a line of this slope goes one way up to that place: it rises, or falls, by a product below 2^63.
fn is_gentle(slope: u64, to: u64) -> bool
    requires { to < 2 ^ 32 }
    ensures { result ≡ true → Gentle slope to }
{
    word::lesser(slope, word::sub(0, slope)) <= 0x7fff_ffff_ffff_ffff / (to + 1)
}

// Internal: asks for places in order, below 2^32. Whether a line, with any number of so many bits, lies from one place to another no more than `span` above `low`: by its two ends, where it goes one way
// between them and starts and ends above `low`.
fn is_near(line: Line, bits: u64, from: u64, to: u64, low: u64, span: u64) -> bool
    requires { (from ≤ to) × (to < 2 ^ 32) }
    ensures { result ≡ true → Near line bits from to low span }
{
    if 56 < bits {
        return false;
    }
    if !is_gentle(line.slope, to) {
        return false;
    }
    let start = word::sub(line::eval(line, from), low);
    let end = word::sub(line::eval(line, to), low);
    let top = word::larger(start, end);
    if 0x4000_0000_0000_0000 <= top {
        return false;
    }
    top + (power(bits) - 1) <= span
}

// Internal: asks for rows of a column, in one block, whose maximum has 64 bits. Whether each of the rows has a value, whatever its bits are, by the codec.
fn is_sure(column: Column, block: Block, first: u32, size: u32) -> bool
    requires { (column.minimum + column.count * column.gcd < 2 ^ 64) × (0 < size) × (first + size ≤ 2 ^ 32) × (first % 512 + size ≤ 512) }
    ensures { result ≡ true → Sure column block first size }
{
    let codec = column.codec;
    match codec {
        Codec::Bitpacked => is_full(column.count),
        Codec::Linear(line, bits) => is_near(
            line,
            word::wide(bits),
            first as u64,
            (first + (size - 1)) as u64,
            column.minimum,
            column.gcd * column.count,
        ),
        Codec::Blockwise => is_near(
            block.line,
            block.bits,
            (first % 512) as u64,
            (first % 512 + (size - 1)) as u64,
            0,
            column.count,
        ),
    }
}

// Whether a column of this codec has a value wherever a multiple is up to the count.
fn is_counted(codec: Codec) -> bool
    ensures { result ≡ true → Counted codec }
{
    match codec {
        Codec::Bitpacked => true,
        Codec::Linear(_, _) => false,
        Codec::Blockwise => true,
    }
}

// The column whose values are another's multiples.
fn multiples(column: Column) -> Column
    ensures { result ≡ multiples_of column }
{
    let window = column.window;
    let codec = column.codec;
    Column {
        minimum: 0,
        gcd: 1,
        count: column.count,
        rows: column.rows,
        start: column.start,
        size: column.size,
        window,
        codec,
    }
}

// Internal: asks for rows of one block that fit as a whole. Whether each has a value, as its multiple tells, where that is less work than its value: true only if so.
fn is_within(column: Column, block: Block, bytes: &[u8], first: ColumnRow, size: usize) -> bool
    requires chunk { Chunk column.rows 0 first.0 size }
    requires fitting { Fitting column (place_of column block first.0) bytes.now }
    ensures { result ≡ true → Stands column block bytes.now first.0 size }
{
    if column.gcd <= 1 {
        return false;
    }
    let codec = column.codec;
    if !is_counted(codec) {
        return false;
    }
    let mut buffer = [0u64; 512];
    let n = read_row::reader::decode_fitting(
        multiples(column),
        block,
        bytes,
        first,
        &mut buffer[..size],
    );
    n == size
}

// Internal: asks for a chunk. Whether all of its rows have values: as its last row and the column alone tell, or their multiples.
fn is_whole(
    column: Column,
    blocks: usize,
    block: Block,
    bytes: &[u8],
    first: u32,
    size: u32,
) -> bool
    requires { Chunk column.window.rows column.window.first first size }
    ensures { result ≡ true → LookedAs (read_run (row_in column blocks block bytes.now) first size) size (Ok tt) }
{
    let last = WindowRow(first + (size - 1));
    match read_row::reader::row_in(column, blocks, block, bytes, last) {
        Ok(_) => {
            let at = read_row::reader::column_row(column.window.first, WindowRow(first));
            if is_sure(column, block, at.0, size) {
                return true;
            }
            is_within(column, block, bytes, at, size as usize)
        }
        Err(_) => false,
    }
}

// Internal: asks for a chunk. What decoding it would find.
pub fn look(
    column: Column,
    blocks: usize,
    block: Block,
    bytes: &[u8],
    first: u32,
    size: usize,
) -> Result<(), Refusal>
    requires { Chunk column.window.rows column.window.first first size }
    ensures { LookedAs (read_run (row_in column blocks block bytes.now) first size) size result }
{
    if is_whole(column, blocks, block, bytes, first, size as u32) {
        return Ok(());
    }
    let mut buffer = [0u64; 512];
    read_row::reader::decode(
        column,
        blocks,
        block,
        bytes,
        WindowRow(first),
        &mut buffer[..size],
    )
}
