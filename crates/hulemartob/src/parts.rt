// What each byte is, and the rows that it names.
ghost use Rattle.hulemartob.specs.Exports.{PartAtPromise, PartsPromise, RowsAtPromise};

use byte_part::naming::{block_of, which_part};
use c_numbers::parts::rows_told;
use c_numbers::{ACCEPTED, column_from, column_of, told};
use format::Block;

// The part that holds the byte at an offset.
#[unsafe(no_mangle)]
pub extern "C" fn hulemartob_part_at(
    column: &[u64; 12],
    bytes: &[u8],
    offset: usize,
    part: &mut [u64; 5],
    refusal: &mut [u64; 2],
)
    ensures { PartAtPromise column.now bytes.now offset refusal.new part.old part.new }
{
    let opened = match column_from(column) {
        Ok(opened) => opened,
        Err(q) => {
            *refusal = told(q);
            return;
        }
    };
    match byte_part::part_at(opened, bytes, offset) {
        Ok(found) => {
            let name = found.name;
            let which = which_part(name);
            let block = block_of(name) as u64;
            *part = [
                which,
                block,
                found.first as u64,
                found.bytes as u64,
                found.value,
            ];
            *refusal = ACCEPTED;
        }
        Err(q) => {
            *refusal = told(q);
        }
    }
}

// The parts from the place of a cursor on, five numbers each, as many as the list has room for; the cursor's place is then behind them.
// Returns how many there are, 0 on refusal.
#[unsafe(no_mangle)]
pub extern "C" fn hulemartob_parts(
    column: &[u64; 12],
    bytes: &[u8],
    cursor: &mut [u64; 2],
    list: &mut [u64],
    refusal: &mut [u64; 2],
) -> usize
    ensures { PartsPromise column.now bytes.now result refusal.new cursor.old cursor.new list.old list.new }
{
    c_parts::list_parts(column, bytes, cursor, list, refusal)
}

// The rows that own a bit of the byte at an offset.
#[unsafe(no_mangle)]
pub extern "C" fn hulemartob_rows_at(
    column: &[u64; 12],
    table: &[Block],
    bytes: &[u8],
    offset: usize,
    rows: &mut [u64; 2],
    refusal: &mut [u64; 2],
)
    ensures { RowsAtPromise column.now table.now bytes.now offset refusal.new rows.old rows.new }
{
    let made = column_from(column);
    let opened = column_of(made);
    let answer = table_asked::rows_at(opened, table, bytes, offset);
    rows_told(made, answer, rows, refusal);
}
