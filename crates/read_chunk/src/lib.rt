// Rows a chunk at a time, behind the entry points: a chunk's size, what is done with its values, and `taking`, a chunk up to its first refused row. The table is not looked into here: a chunk
// comes with its block.
#![tactic(auto)]

ghost use Rattle.std.specs.Prelude.{◌≡◌, ◌+◌, ◌≤◌, min, length};
ghost use Rattle.std.proofs.lemmas.List.Edits.{sets};
ghost use Rattle.format.specs.Lookup.{within};
ghost use Rattle.read_row.specs.Chunks.{chunk_size};

pub mod taking;

use format::ColumnRow;

// The rows of the chunk that begins with a row of the column, where so many are left: those, or up to the next multiple of 512.
pub fn chunk_size(at: ColumnRow, left: u32) -> usize
    ensures { result ≡ chunk_size at.0 left }
{
    let whole = 512 - at.0 % 512;
    if left < whole {
        left as usize
    } else {
        whole as usize
    }
}

// The end row, cut to so many rows.
pub fn cut(end: u32, rows: u32) -> u32
    ensures { result ≡ min end rows }
{
    if end < rows { end } else { rows }
}

// Whether a value lies from low to high.
pub fn within(low: u64, high: u64, value: u64) -> bool
    ensures { result ≡ within low high value }
{
    if value < low {
        return false;
    }
    value <= high
}

// Internal: asks for room. Copies values into a list from an entry on.
pub fn copy(values: &[u64], out: &mut [u64], at: usize)
    requires { at + length values.now ≤ length out.old }
    ensures { out.new ≡ sets out.old at values.now }
{
    out[at..at + values.len()].copy_from_slice(values);
}
