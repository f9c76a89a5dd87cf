// Opening within a program's limits. It decides on the bytes alone: a program reads by the footer, and needs no table.
ghost use Rattle.text_column.specs.Calls.{OpensHereAs};

use format::{Column, Refusal};

// The most bytes and rows that a program takes, and the blocks of so many rows.
const BYTES_MAX: usize = 65536;

const ROWS_MAX: u32 = 1048576;

const BLOCKS_MAX: usize = 2048;

// Opens a column of at most 65,536 bytes and 1,048,576 rows. A Blockwise column of more rows has more blocks than are taken.
#[tactic(auto, using(crate::proofs::Limits::over_bytes, crate::proofs::Limits::over_rows, crate::proofs::Limits::over_blocks, crate::proofs::Limits::kept_column, crate::proofs::Limits::kept_refusal))]
pub fn open_plain(bytes: &[u8]) -> Result<(Column, Option<usize>), Refusal>
    ensures { OpensHereAs bytes.now result }
{
    if BYTES_MAX < bytes.len() {
        return Err(Refusal::OverLimit);
    }
    match open_column::open_plain(bytes, BLOCKS_MAX) {
        Ok((column, _)) if ROWS_MAX < column.rows => Err(Refusal::OverLimit),
        Err(Refusal::TableShort { .. }) => Err(Refusal::OverLimit),
        opened => opened,
    }
}
