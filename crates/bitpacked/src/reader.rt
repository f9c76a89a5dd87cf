// Reading: what is left to open once the head is read, and a row of an opened column.
ghost use Rattle.std.specs.Prelude.{◌≡◌, ℕ, ◌+◌, ◌*◌, ◌^◌, ◌≤◌, ◌<◌, length, true};
ghost use Rattle.format.specs.Opening.{open_bitpacked, column_in};
ghost use Rattle.format.specs.Packing.{legal, unpack};
ghost use Rattle.format.specs.Reading.{packed_of, value_in, value_at, scaled};
ghost use Rattle.format.specs.Runs.{read_run, filled_to};
ghost use Rattle.format.specs.declared.Block.{Block};
ghost use Rattle.bitpacked.specs.Reader.{Readable};
ghost use Rattle.format.specs.Refusals.{answered_by};

use format::{Codec, Column, ColumnRow, Head, Refusal};

// The column of a head: its area comes behind it, at the width of the count.
pub fn load(bytes: &[u8], head: Head) -> Result<(Column, Option<usize>), Refusal>
    ensures { answered_by result ≡ column_in (open_bitpacked bytes.now head) }
{
    let width = bitpacker::compute_num_bits(head.count);
    let size = bitpacker::packed_len(head.rows as usize, width);
    if !word::ends_within(head.next, size, bytes.len()) {
        return Err(Refusal::AreaShort);
    }
    let column = head.column(head.next, size, Codec::Bitpacked);
    Ok((column, head.longer))
}

// Internal: asks for a Bitpacked column whose maximum has 64 bits and whose area starts within the bytes. The value of a row, which no block has a part in.
pub fn get_val(column: Column, bytes: &[u8], row: ColumnRow) -> Result<u64, Refusal>
    requires { Readable column bytes.now }
    ensures { (block : Block) → answered_by result ≡ value_in column.codec column block row.0 (packed_of column block bytes.now row.0) }
{
    let start = column.start;
    let width = bitpacker::compute_num_bits(column.count);
    let multiple = bitpacker::get(&bytes[start..], width, row.0);
    stats::scaled(column, row, multiple)
}

// Whether a column's values are its numbers above the minimum. Of 64 bits they are taken as multiples: most such numbers have the top bit, by which a whole chunk is tested.
fn is_plain(gcd: u64, width: u8) -> bool
    ensures { result ≡ true → gcd ≡ 1 }
{
    if gcd != 1 {
        return false;
    }
    width < 64
}

// The rows from `first` on whose numbers stand at a width in an area, each scaled, up to the first above the count.
fn scale_run(area: &[u8], width: u8, column: Column, first: u32, out: &mut [u64]) -> usize
    requires width_value { legal width ≡ true }
    requires gcd_bound { column.minimum + column.count * column.gcd < 2 ^ 64 }
    requires out_bound { first + length out.old ≤ 2 ^ 32 }
    ensures { filled_to result first out.new ≡ read_run (λ (r : ℕ). scaled column r (unpack width area.now r)) first (length out.old) }
{
    bitpacker::get_run(area, width, first, out);
    if is_plain(column.gcd, width) {
        return raising::raise(out, column.minimum, column.count);
    }
    raising::scale(out, column)
}

// Internal: asks for the same, and for rows below 2^32. The values of the rows from `first` on, as many as the list has room for, up to the first that is out of bounds: returns how many.
pub fn get_range(column: Column, bytes: &[u8], first: ColumnRow, out: &mut [u64]) -> usize
    requires readable { Readable column bytes.now }
    requires out_bound { first.0 + length out.old ≤ 2 ^ 32 }
    ensures { (block : Block) → filled_to result first.0 out.new ≡ read_run (value_at column block bytes.now) first.0 (length out.old) }
{
    let start = column.start;
    let width = bitpacker::compute_num_bits(column.count);
    scale_run(&bytes[start..], width, column, first.0, out)
}
