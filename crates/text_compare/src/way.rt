// The way through a comparison: a value that says what is still to be written, and hands it out chunk by chunk. A program begins, or goes
// over two columns that it has, and writes what it is handed while there is more.
ghost use Rattle.std.specs.Prelude.{◌≡◌, ◌≤◌, length};
ghost use Rattle.text.specs.Way.{HandedAs};
ghost use Rattle.text_compare.specs.Beginning.{line_length};
ghost use Rattle.text_compare.specs.Way.{Stands, hand_max, is_more, rows_of, at_first, way_of, comparison_walk};

use format::WindowRow;
use text::put::put_text;
use text_column::own::Own;

// Room for the longest line.
const HAND_MAX: usize = 128;

// Two columns, the next row, and how many lines stand before it.
#[derive(Clone, Copy)]
pub struct At {
    pub left: Own,
    pub right: Own,
    pub from: WindowRow,
    pub lines: u32,
}

// Before the first line; before the line of a row, or before the last line where there is no such row; at the end.
#[derive(Clone, Copy)]
pub enum Way {
    Open,
    Rows(At),
    Done,
}

// A chunk: its length, and the way from there on.
#[derive(Clone, Copy)]
pub struct Handed {
    pub bytes: usize,
    pub way: Way,
}

// The way before the first line.
pub fn begin() -> Way
    ensures { result ≡ Way.Open }
{
    Way::Open
}

// The way over two columns from their windows' starts.
pub fn over(left: Own, right: Own) -> Way
    ensures { result ≡ Way.Rows (at_first left right) }
{
    Way::Rows(At {
        left,
        right,
        from: WindowRow(0),
        lines: 0,
    })
}

// Whether something is left to be written.
pub fn more(way: Way) -> bool
    ensures { result ≡ is_more way }
{
    match way {
        Way::Open => true,
        Way::Rows(_) => true,
        Way::Done => false,
    }
}

// The length of the line that a comparison begins with; none where both sides open.
fn line_of(begun: Result<(Own, Own), usize>) -> usize
    ensures { result ≡ line_length begun }
{
    match begun {
        Ok(_) => 0,
        Err(n) => n,
    }
}

// The way behind it: before the first row, or at the end where the line is the only one.
fn way_of(begun: Result<(Own, Own), usize>) -> Way
    ensures { result ≡ way_of begun }
{
    match begun {
        Ok((left, right)) => over(left, right),
        Err(_) => Way::Done,
    }
}

// Internal: asks for room for the longest line. Hands out the line of a side that does not open, if one does not.
fn hand_first(left: &[u8], right: &[u8], out: &mut [u8]) -> Handed
    requires { hand_max ≤ length out.old }
    ensures { HandedAs (comparison_walk left.now right.now) Way.Open result.bytes result.way out.old out.new }
{
    let mut line = [0u8; 128];
    let begun = crate::begin(left, right, &mut line);
    let n = line_of(begun);
    let end = put_text(out, 0, &line[..n]);
    Handed {
        bytes: end,
        way: way_of(begun),
    }
}

// Internal: asks for the same, and for two columns that were opened of these bytes. Hands out the last line, behind their rows.
fn hand_last(at: At, left: &[u8], right: &[u8], out: &mut [u8]) -> Handed
    requires stands { Stands left.now right.now (Way.Rows at) }
    requires at_bound { rows_of at ≤ at.from.0 }
    requires hand_max_in_bounds { hand_max ≤ length out.old }
    ensures { HandedAs (comparison_walk left.now right.now) (Way.Rows at) result.bytes result.way out.old out.new }
{
    let mut line = [0u8; 128];
    let n = crate::end_line(at.lines, &mut line);
    let end = put_text(out, 0, &line[..n]);
    Handed {
        bytes: end,
        way: Way::Done,
    }
}

// Internal: asks for the same. Hands out as many rows' lines as have room, or the last line behind them.
fn hand_rows(at: At, left: &[u8], right: &[u8], out: &mut [u8]) -> Handed
    requires stands { Stands left.now right.now (Way.Rows at) }
    requires hand_max_in_bounds { hand_max ≤ length out.old }
    ensures { HandedAs (comparison_walk left.now right.now) (Way.Rows at) result.bytes result.way out.old out.new }
{
    let from = at.from;
    if crate::row_count(at.left.column, at.right.column) <= from.0 {
        return hand_last(at, left, right, out);
    }
    let own = text_column::own::reach(at.left, left, from);
    let its = text_column::own::reach(at.right, right, from);
    let took = crate::fill_lines(own, left, its, right, from, out);
    Handed {
        bytes: took.bytes,
        way: Way::Rows(At {
            left: own,
            right: its,
            from: WindowRow(from.0 + took.rows),
            lines: at.lines + took.lines,
        }),
    }
}

// Internal: asks for a way that `begin`, `over` or this call handed out for the same bytes. Writes the next chunk at the start of a buffer;
// nothing, where that has no room for the longest line. What a way has left is the chunk and then what the way behind it has left.
pub fn fill(way: Way, left: &[u8], right: &[u8], out: &mut [u8]) -> Handed
    requires { Stands left.now right.now way }
    ensures { HandedAs (comparison_walk left.now right.now) way result.bytes result.way out.old out.new }
{
    if out.len() < HAND_MAX {
        return Handed { bytes: 0, way };
    }
    match way {
        Way::Open => hand_first(left, right, out),
        Way::Rows(at) => hand_rows(at, left, right, out),
        Way::Done => Handed {
            bytes: 0,
            way: Way::Done,
        },
    }
}
