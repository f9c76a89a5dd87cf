// A column as text: the first line, the rows' lines, as many at a time as a lent buffer has room for, and the last line. What is
// refused is a line of its own. No argument makes a call fail, and each contract says what every lent entry holds afterwards.
#![tactic(auto)]

mod lines;
pub mod way;

ghost use Rattle.format.specs.Listing.{opened_here};
ghost use Rattle.text_list.specs.Beginning.{BegunAs};
ghost use Rattle.text_list.specs.Chunk.{FilledAs, EndedAs};
ghost use Rattle.text_column.specs.Own.{Owned};

use format::{Column, WindowRow};
use text::Filled;
use text::lines::{named_line, refusal_number};
use text_column::own::Own;

// The longest line of a row.
const LINE_MAX: usize = 32;

// Begins a listing: opens the column, and writes the first line at the start of the lent one. A refusal's line is the only one. Beside the column, or the
// refusal's number, stands the line's length.
pub fn begin(bytes: &[u8], line: &mut [u8; 128]) -> Result<(Own, usize), (u8, usize)>
    ensures { BegunAs bytes.now (opened_here bytes.now) result line.old line.new }
{
    let opened = text_column::opening::open_plain(bytes);
    let Ok((column, _)) = opened else {
        let number = refusal_number(opened);
        return Err((number, lines::refused_line(number, line)));
    };
    let own = text_column::own::begin(bytes, column);
    Ok((own, lines::column_line(column, line)))
}

// Internal: asks for a column that was opened of these bytes, seen through a window that lies in it, and a pass over its blocks. Writes the lines of the rows from `from` on at the start of a buffer, while a longest
// line has room. A row that is refused has a line that says so.
pub fn fill_lines(own: Own, bytes: &[u8], from: WindowRow, out: &mut [u8]) -> Filled
    requires { Owned bytes.now own.column own.pass }
    ensures { FilledAs own.column bytes.now from.0 result out.old out.new }
{
    let column = own.column;
    let mut values = [0u64; 512];
    let mut held = text_column::held::nothing(own.pass);
    let mut filled = Filled { rows: 0, bytes: 0 };
    for r in from.0..column.rows {
        if out.len() - filled.bytes < LINE_MAX {
            break;
        }
        let row = WindowRow(r);
        if held.end.0 <= r {
            held = text_column::held::hold(column, bytes, row, held, &mut values);
        }
        let answer = text_column::held::answer(column, bytes, row, held, &values);
        filled.bytes = lines::put_row(out, filled.bytes, r, answer);
        filled.rows += 1;
    }
    filled
}

// Writes the last line at the start of the lent one, and returns its length. Refused rows count.
pub fn end_line(column: Column, line: &mut [u8; 128]) -> usize
    ensures { EndedAs column result line.old line.new }
{
    named_line(b"end ", column.rows as u64, line)
}
