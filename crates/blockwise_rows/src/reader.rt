// Reading: a row of an opened column, and rows of one block. A row takes its block by value.
ghost use Rattle.std.specs.Prelude.{◌≡◌, true, ℕ, ◌+◌, ◌*◌, ◌/◌, ◌%◌, ◌^◌, ◌≤◌, ◌<◌, length, drop};
ghost use Rattle.format.specs.Word.{mod_add};
ghost use Rattle.format.specs.Packing.{legal, unpack};
ghost use Rattle.format.specs.Line.{line_at};
ghost use Rattle.format.specs.Reading.{packed_of, scaled, value_in, value_at};
ghost use Rattle.format.specs.Runs.{read_run, filled_to};
ghost use Rattle.blockwise_rows.specs.Reader.{Readable, numbers_start};
ghost use Rattle.format.specs.Refusals.{answered_by};

use format::{Block, BlockRow, Column, ColumnRow, Line, Refusal};

// A row of the column by its block: the block's number, and the row's within it.
#[derive(Clone, Copy)]
pub struct InBlock {
    pub block: usize,
    pub row: BlockRow,
}

// The only passage from a row of the column to a row of a block.
pub fn split(row: ColumnRow) -> InBlock
    ensures { (result.block ≡ row.0 / 512) × (result.row.0 ≡ row.0 % 512) }
{
    InBlock {
        block: (row.0 / 512) as usize,
        row: BlockRow(row.0 % 512),
    }
}

// The byte where a block's numbers are read from, in so many bytes: their place behind the head. Only a block of no bits may have a place that is
// not there, in a made-up table, where the sum may wrap; the end stands in for it, so that there is a part to hand on.
fn numbers_start(column: Column, block: Block, len: usize) -> usize
    ensures { result ≡ numbers_start column block len }
{
    word::lesser(word::add(column.start as u64, block.start), len as u64) as usize
}

// The packed number of a row of a block.
fn residual(column: Column, block: Block, bytes: &[u8], row: BlockRow) -> u64
    requires { Readable column block bytes.now }
    ensures { result ≡ unpack block.bits (drop (column.start + block.start) bytes.now) row.0 }
{
    let start = numbers_start(column, block, bytes.len());
    bitpacker::get(&bytes[start..], block.bits as u8, row.0)
}

// Internal: asks for a Blockwise column whose maximum has 64 bits, and a block of a legal width that starts within the bytes if it has bits at all. The value of a row, with the row's block.
pub fn get_val(column: Column, block: Block, bytes: &[u8], row: ColumnRow) -> Result<u64, Refusal>
    requires { Readable column block bytes.now }
    ensures { answered_by result ≡ value_in column.codec column block row.0 (packed_of column block bytes.now row.0) }
{
    let within = split(row).row;
    let number = residual(column, block, bytes, within);
    let multiple = word::add(line::eval(block.line, within.0 as u64), number);
    stats::scaled(column, row, multiple)
}

// The rows of one block from `first` on, by the line of that block and the numbers that stand at a width in an area, each scaled, up to the first above the count.
fn line_run(area: &[u8], line: Line, bits: u8, column: Column, first: u32, out: &mut [u64]) -> usize
    requires bits_value { legal bits ≡ true }
    requires gcd_bound { column.minimum + column.count * column.gcd < 2 ^ 64 }
    requires out_bound { first % 512 + length out.old ≤ 512 }
    ensures { filled_to result first out.new ≡ read_run (λ (r : ℕ). scaled column r (mod_add (line_at line (r % 512)) (unpack bits area.now (r % 512)))) first (length out.old) }
{
    let from = split(ColumnRow(first)).row.0;
    bitpacker::get_run(area, bits, from, out);
    if column.gcd == 1 {
        return raising::raise_by_line(out, line, from as u64, 0, column.minimum, column.count);
    }
    raising::scale_by_line(out, line, from as u64, column)
}

// Internal: asks for the same, and for rows of one block. The values of the rows of a block from `first` on, as many as the list has room for, up to the first that is out of bounds: returns how many.
pub fn get_range(
    column: Column,
    block: Block,
    bytes: &[u8],
    first: ColumnRow,
    out: &mut [u64],
) -> usize
    requires readable { Readable column block bytes.now }
    requires out_bound { first.0 % 512 + length out.old ≤ 512 }
    ensures { filled_to result first.0 out.new ≡ read_run (value_at column block bytes.now) first.0 (length out.old) }
{
    let start = numbers_start(column, block, bytes.len());
    line_run(
        &bytes[start..],
        block.line,
        block.bits as u8,
        column,
        first.0,
        out,
    )
}
