// The way through a listing: a value that says what is still to be written, and hands it out chunk by chunk. A program begins, and writes
// what it is handed while there is more.
ghost use Rattle.std.specs.Prelude.{◌≡◌, ◌≤◌, length};
ghost use Rattle.text_list.specs.Beginning.{line_length};
ghost use Rattle.text.specs.Way.{HandedAs};
ghost use Rattle.text_list.specs.Way.{Stands, hand_max, is_more, way_of, listing_walk};

use format::WindowRow;
use text::put::put_text;
use text_column::own::Own;

// Room for the longest line.
const HAND_MAX: usize = 128;

// Before the first line; before the line of a row, or before the last line where there is no such row; at the end.
#[derive(Clone, Copy)]
pub enum Way {
    Open,
    Rows(Own, WindowRow),
    Done,
}

// A chunk: its length, and the way from there on.
#[derive(Clone, Copy)]
pub struct Handed {
    pub bytes: usize,
    pub way: Way,
}

// The way before the first line.
pub fn begin() -> Way
    ensures { result ≡ Way.Open }
{
    Way::Open
}

// Whether something is left to be written.
pub fn more(way: Way) -> bool
    ensures { result ≡ is_more way }
{
    match way {
        Way::Open => true,
        Way::Rows(_, _) => true,
        Way::Done => false,
    }
}

// The length of the line that a listing begins with.
fn line_of(begun: Result<(Own, usize), (u8, usize)>) -> usize
    ensures { result ≡ line_length begun }
{
    match begun {
        Ok((_, n)) | Err((_, n)) => n,
    }
}

// The way behind it: before the first row, or at the end where the line is the only one.
fn way_of(begun: Result<(Own, usize), (u8, usize)>) -> Way
    ensures { result ≡ way_of begun }
{
    match begun {
        Ok((own, _)) => Way::Rows(own, WindowRow(0)),
        Err(_) => Way::Done,
    }
}

// Internal: asks for room for the longest line. Hands out the first one.
fn hand_first(bytes: &[u8], out: &mut [u8]) -> Handed
    requires { hand_max ≤ length out.old }
    ensures { HandedAs (listing_walk bytes.now) Way.Open result.bytes result.way out.old out.new }
{
    let mut line = [0u8; 128];
    let begun = crate::begin(bytes, &mut line);
    let n = line_of(begun);
    let end = put_text(out, 0, &line[..n]);
    Handed {
        bytes: end,
        way: way_of(begun),
    }
}

// Internal: asks for the same, and for a column that was opened of these bytes. Hands out the last line, behind its rows.
fn hand_last(own: Own, bytes: &[u8], from: WindowRow, out: &mut [u8]) -> Handed
    requires stands { Stands bytes.now (Way.Rows own from) }
    requires rows_le_from { own.column.rows ≤ from.0 }
    requires hand_max_in_bounds { hand_max ≤ length out.old }
    ensures { HandedAs (listing_walk bytes.now) (Way.Rows own from) result.bytes result.way out.old out.new }
{
    let mut line = [0u8; 128];
    let n = crate::end_line(own.column, &mut line);
    let end = put_text(out, 0, &line[..n]);
    Handed {
        bytes: end,
        way: Way::Done,
    }
}

// Internal: asks for the same. Hands out as many rows' lines as have room, or the last line behind them.
fn hand_rows(own: Own, bytes: &[u8], from: WindowRow, out: &mut [u8]) -> Handed
    requires stands { Stands bytes.now (Way.Rows own from) }
    requires hand_max_in_bounds { hand_max ≤ length out.old }
    ensures { HandedAs (listing_walk bytes.now) (Way.Rows own from) result.bytes result.way out.old out.new }
{
    if own.column.rows <= from.0 {
        return hand_last(own, bytes, from, out);
    }
    let at = text_column::own::reach(own, bytes, from);
    let took = crate::fill_lines(at, bytes, from, out);
    Handed {
        bytes: took.bytes,
        way: Way::Rows(at, WindowRow(from.0 + took.rows)),
    }
}

// Internal: asks for a way that `begin` or this call handed out for the same bytes. Writes the next chunk at the start of a buffer;
// nothing, where that has no room for the longest line. What a way has left is the chunk and then what the way behind it has left.
pub fn fill(way: Way, bytes: &[u8], out: &mut [u8]) -> Handed
    requires { Stands bytes.now way }
    ensures { HandedAs (listing_walk bytes.now) way result.bytes result.way out.old out.new }
{
    if out.len() < HAND_MAX {
        return Handed { bytes: 0, way };
    }
    match way {
        Way::Open => hand_first(bytes, out),
        Way::Rows(own, from) => hand_rows(own, bytes, from, out),
        Way::Done => Handed {
            bytes: 0,
            way: Way::Done,
        },
    }
}
