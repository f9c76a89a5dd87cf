// Opening a column, and the window of one that is open: the entry points that need no block table. No argument makes a call fail but by a numbered refusal, and each
// contract says what a call answers. Those with a table stand in `table`.
#![tactic(auto)]

pub mod opening;

ghost use Rattle.open_column.specs.Calls.{PlainAs, PlainUnderAs, NarrowedAs};

use format::{Column, Refusal, Window};

// Opens a column, for a table with room for so many blocks. All of opening's decisions fall here, on the bytes and the room
// alone; the table itself is not needed for them. Beside the column stands the offset of the first number that is spelled longer than need be, if there is one.
#[tactic(auto, using(crate::proofs::Opens::opened_none, crate::proofs::Opens::opened_unknown))]
pub fn open_plain(bytes: &[u8], room: usize) -> Result<(Column, Option<usize>), Refusal>
    ensures { PlainAs bytes.now room result }
{
    if bytes.len() == 0 {
        return Err(Refusal::NotAColumn);
    }
    let code = bytes[0];
    if 2 < code {
        return Err(Refusal::NotAColumn);
    }
    let head = stats::head_read(bytes)?;
    opening::load(code, bytes, head, room)
}

// Opens a column under an acceptance sheet that the caller names, for a table with room for so many blocks: sheet 1 is opening as it stands, and
// sheet 2, once that has passed, refuses the first byte that offends it. As above, all decisions fall here.
pub fn open_plain_under(
    sheet: u32,
    bytes: &[u8],
    room: usize,
) -> Result<(Column, Option<usize>), Refusal>
    ensures { PlainUnderAs sheet bytes.now room result }
{
    let answer = open_plain(bytes, room);
    open_sheet::under(sheet, answer, bytes)
}

// Narrows a column's window to `count` rows from its row `first` on. A refusal returns the column as it was.
#[tactic(auto, unfolding(format::specs::Windows::narrowed))]
pub fn narrow(column: Column, first: u32, count: u32) -> Result<Column, (Refusal, Column)>
    ensures { NarrowedAs column first count result }
{
    if (column.window.rows as u64) < first as u64 + count as u64 {
        return Err((Refusal::NoSuchRow, column));
    }
    if !read_row::reader::window_fits(column) {
        return Err((Refusal::Unfit, column));
    }
    let window = Window {
        first: column.window.first + first,
        rows: count,
    };
    Ok(Column { window, ..column })
}
