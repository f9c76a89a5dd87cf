// Two columns compared, as text: a line for each row whose answers differ, as many at a time as a lent buffer has room for, and the count of
// lines. A side that does not open is a line of its own. Both sides begin as whole columns; to compare windows, narrow them (`text_column::own::narrow`) before the first chunk. No argument makes a call
// fail, and each contract says what every lent entry holds afterwards.
#![tactic(auto)]

mod lines;
pub mod way;

ghost use Rattle.format.specs.Listing.{opened_here};
ghost use Rattle.text_compare.specs.Beginning.{BegunAs, BegunOn};
ghost use Rattle.text_compare.specs.Chunk.{CountedAs, ComparedAs, EndedAs};
ghost use Rattle.text_column.specs.Own.{Owned};

use format::{Column, WindowRow};
use lines::Done;
use text::lines::{named_line, refused_line};
use text_column::opening;
use text_column::own::Own;

// The longest line of a row.
const LINE_MAX: usize = 53;

// What a chunk took: how many rows were looked at, how many lines they have, and how many bytes the lines are.
#[derive(Clone, Copy)]
pub struct Compared {
    pub rows: u32,
    pub lines: u32,
    pub bytes: usize,
}

// Goes on with the right side, where the left one opened.
fn begin_right(
    column: Column,
    left: &[u8],
    right: &[u8],
    line: &mut [u8; 128],
) -> Result<(Own, Own), usize>
    ensures { BegunOn left.now right.now column (opened_here right.now) result line.old line.new }
{
    let opened = opening::open_plain(right);
    let Ok((against, _)) = opened else {
        return Err(refused_line(b"right refused ", opened, line));
    };
    let own = text_column::own::begin(left, column);
    let its = text_column::own::begin(right, against);
    Ok((own, its))
}

// Begins a comparison: opens both sides within a program's limits. Where a side is refused, the left one before the right, the line that says so, the only one then, is written at
// the start of the lent one, and its length is the error.
pub fn begin(left: &[u8], right: &[u8], line: &mut [u8; 128]) -> Result<(Own, Own), usize>
    ensures { BegunAs left.now right.now (opened_here left.now) (opened_here right.now) result line.old line.new }
{
    let opened = opening::open_plain(left);
    let Ok((column, _)) = opened else {
        return Err(refused_line(b"left refused ", opened, line));
    };
    begin_right(column, left, right, line)
}

// The rows that a comparison looks at: those of the window that has more.
pub fn row_count(left: Column, right: Column) -> u32
    ensures { CountedAs left right result }
{
    left.window.rows.max(right.window.rows)
}

// Internal: asks for two columns, each opened of its bytes and seen through a window that lies in it, and a pass over the blocks of each. Writes the lines of the rows from `from` on,
// counted from the windows' starts, whose answers differ, at the start of a buffer, while a longest line has room. Rows with equal answers take none, so a call that meets no other looks at all that are left.
pub fn fill_lines(
    left: Own,
    lbytes: &[u8],
    right: Own,
    rbytes: &[u8],
    from: WindowRow,
    out: &mut [u8],
) -> Compared
    requires owned { Owned lbytes.now left.column left.pass }
    requires owned_2 { Owned rbytes.now right.column right.pass }
    ensures { ComparedAs left.column lbytes.now right.column rbytes.now from.0 result out.old out.new }
{
    let column = left.column;
    let against = right.column;
    let rows = row_count(column, against);
    let mut lvalues = [0u64; 512];
    let mut rvalues = [0u64; 512];
    let mut lheld = text_column::held::nothing(left.pass);
    let mut rheld = text_column::held::nothing(right.pass);
    let mut looked = 0;
    let mut done = Done { lines: 0, bytes: 0 };
    for r in from.0..rows {
        if out.len() - done.bytes < LINE_MAX {
            break;
        }
        let row = WindowRow(r);
        if lheld.end.0 <= r {
            lheld = text_column::held::hold(column, lbytes, row, lheld, &mut lvalues);
        }
        if rheld.end.0 <= r {
            rheld = text_column::held::hold(against, rbytes, row, rheld, &mut rvalues);
        }
        let a = text_column::held::answer(column, lbytes, row, lheld, &lvalues);
        let b = text_column::held::answer(against, rbytes, row, rheld, &rvalues);
        done = lines::put_row(out, done, r, a, b);
        looked += 1;
    }
    Compared {
        rows: looked,
        lines: done.lines,
        bytes: done.bytes,
    }
}

// Writes the last line, with the count of lines before it, at the start of the lent one, and returns its length.
pub fn end_line(lines: u32, line: &mut [u8; 128]) -> usize
    ensures { EndedAs lines result line.old line.new }
{
    named_line(b"lines ", lines as u64, line)
}
