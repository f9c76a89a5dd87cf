// Reading: what is left to open once the head is read, and a row of an opened column.
ghost use Rattle.std.specs.Prelude.{◌≡◌, true, ℕ, ◌+◌, ◌^◌, ◌≤◌, length};
ghost use Rattle.format.specs.Opening.{open_linear, column_in};
ghost use Rattle.format.specs.Word.{mod_add};
ghost use Rattle.format.specs.Packing.{legal, unpack};
ghost use Rattle.format.specs.Line.{line_at};
ghost use Rattle.format.specs.Reading.{packed_of, value_in, value_at};
ghost use Rattle.format.specs.Runs.{read_run, filled_to};
ghost use Rattle.format.specs.declared.Block.{Block};
ghost use Rattle.linear.specs.Reader.{Readable, bounded};
ghost use Rattle.format.specs.Refusals.{answered_by};

use format::{Codec, Column, ColumnRow, Head, Line, Refusal};

// The column of a head: the line and the width come behind it, and then the area.
#[tactic(auto, unfolding(format::specs::Opening::open_linear))]
pub fn load(bytes: &[u8], head: Head) -> Result<(Column, Option<usize>), Refusal>
    ensures { answered_by result ≡ column_in (open_linear bytes.now head) }
{
    let fields = line::fields_read(bytes, head.next)?;
    let size = bitpacker::packed_len(head.rows as usize, fields.bits);
    if !word::ends_within(fields.next, size, bytes.len()) {
        return Err(Refusal::AreaShort);
    }
    let codec = Codec::Linear(fields.line, fields.bits);
    Ok((
        head.column(fields.next, size, codec),
        head.longer.or(fields.longer),
    ))
}

// Internal: asks for a Linear column of this line and this legal width, whose maximum has 64 bits and whose area starts within the bytes. The value of a row, which no block has a part in.
pub fn get_val(
    column: Column,
    line: Line,
    bits: u8,
    bytes: &[u8],
    row: ColumnRow,
) -> Result<u64, Refusal>
    requires { Readable column line bits bytes.now }
    ensures { (block : Block) → answered_by result ≡ value_in column.codec column block row.0 (packed_of column block bytes.now row.0) }
{
    let start = column.start;
    let number = bitpacker::get(&bytes[start..], bits, row.0);
    let value = word::add(line::eval(line, row.0 as u64), number);
    if value < column.minimum {
        return Err(Refusal::OutOfBounds { row: row.0 });
    }
    if column.minimum + column.gcd * column.count < value {
        return Err(Refusal::OutOfBounds { row: row.0 });
    }
    Ok(value)
}

// Internal: asks for bounds in order. The values of the rows from `first` on, by a line and the numbers that stand at a width in an area, up to the first that lies outside the bounds.
fn line_run(
    area: &[u8],
    line: Line,
    bits: u8,
    minimum: u64,
    maximum: u64,
    first: u32,
    out: &mut [u64],
) -> usize
    requires bits_value { (legal bits ≡ true) × (minimum ≤ maximum) }
    requires out_bound { first + length out.old ≤ 2 ^ 32 }
    ensures { filled_to result first out.new ≡ read_run (λ (r : ℕ). bounded minimum maximum r (mod_add (line_at line r) (unpack bits area.now r))) first (length out.old) }
{
    bitpacker::get_run(area, bits, first, out);
    raising::raise_by_line(out, line, first as u64, minimum, minimum, maximum - minimum)
}

// Internal: asks for the same, and for rows below 2^32. The values of the rows from `first` on, as many as the list has room for, up to the first that is out of bounds: returns how many.
pub fn get_range(
    column: Column,
    line: Line,
    bits: u8,
    bytes: &[u8],
    first: ColumnRow,
    out: &mut [u64],
) -> usize
    requires readable { Readable column line bits bytes.now }
    requires out_bound { first.0 + length out.old ≤ 2 ^ 32 }
    ensures { (block : Block) → filled_to result first.0 out.new ≡ read_run (value_at column block bytes.now) first.0 (length out.old) }
{
    let start = column.start;
    let maximum = column.minimum + column.gcd * column.count;
    line_run(
        &bytes[start..],
        line,
        bits,
        column.minimum,
        maximum,
        first.0,
        out,
    )
}
