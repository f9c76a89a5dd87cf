// The way through a blame: a value that says what is still to be written, and hands it out chunk by chunk. A program begins, and writes
// what it is handed while there is more.
ghost use Rattle.std.specs.Prelude.{◌≡◌, ◌≤◌, length};
ghost use Rattle.text.specs.Way.{HandedAs};
ghost use Rattle.text_blame.specs.Beginning.{line_length};
ghost use Rattle.text_blame.specs.Way.{Stands, hand_max, is_more, way_of, blame_walk};

use format::Column;
use text::put::put_text;

// Room for the longest text of a byte, and so for any line.
const HAND_MAX: usize = 512;

// Two columns, and the next offset.
#[derive(Clone, Copy)]
pub struct At {
    pub left: Column,
    pub right: Column,
    pub from: usize,
}

// Before the first line; before the text of an offset, or before the last line where there is no such offset; at the end.
#[derive(Clone, Copy)]
pub enum Way {
    Open,
    Bytes(At),
    Done,
}

// A chunk: its length, and the way from there on.
#[derive(Clone, Copy)]
pub struct Handed {
    pub bytes: usize,
    pub way: Way,
}

// The way before the first line.
pub fn begin() -> Way
    ensures { result ≡ Way.Open }
{
    Way::Open
}

// Whether something is left to be written.
pub fn more(way: Way) -> bool
    ensures { result ≡ is_more way }
{
    match way {
        Way::Open | Way::Bytes(_) => true,
        Way::Done => false,
    }
}

// The length of the line that a blame begins with; none where it begins with two columns.
fn line_of(begun: Result<(Column, Column), usize>) -> usize
    ensures { result ≡ line_length begun }
{
    match begun {
        Ok(_) => 0,
        Err(n) => n,
    }
}

// The way behind it: before the first offset, or at the end where the line is the only one.
fn way_of(begun: Result<(Column, Column), usize>) -> Way
    ensures { result ≡ way_of begun }
{
    match begun {
        Ok((left, right)) => Way::Bytes(At {
            left,
            right,
            from: 0,
        }),
        Err(_) => Way::Done,
    }
}

// Internal: asks for room for the longest text. Hands out the only line, if there is but one.
fn hand_first(left: &[u8], right: &[u8], out: &mut [u8]) -> Handed
    requires { hand_max ≤ length out.old }
    ensures { HandedAs (blame_walk left.now right.now) Way.Open result.bytes result.way out.old out.new }
{
    let mut line = [0u8; 128];
    let begun = crate::begin(left, right, &mut line);
    let n = line_of(begun);
    let end = put_text(out, 0, &line[..n]);
    Handed {
        bytes: end,
        way: way_of(begun),
    }
}

// Internal: asks for the same, and for two columns that were opened of these bytes. Hands out the last line, behind all offsets' text.
fn hand_last(at: At, left: &[u8], right: &[u8], out: &mut [u8]) -> Handed
    requires stands { Stands left.now right.now (Way.Bytes at) }
    requires left_len_bound { length left.now ≤ at.from }
    requires hand_max_in_bounds { hand_max ≤ length out.old }
    ensures { HandedAs (blame_walk left.now right.now) (Way.Bytes at) result.bytes result.way out.old out.new }
{
    let mut line = [0u8; 128];
    let n = crate::end_line(at.left, left, right, &mut line);
    let end = put_text(out, 0, &line[..n]);
    Handed {
        bytes: end,
        way: Way::Done,
    }
}

// Internal: asks for the same. Hands out the text of as many offsets as have room, or the last line behind them.
fn hand_bytes(at: At, left: &[u8], right: &[u8], out: &mut [u8]) -> Handed
    requires stands { Stands left.now right.now (Way.Bytes at) }
    requires hand_max_in_bounds { hand_max ≤ length out.old }
    ensures { HandedAs (blame_walk left.now right.now) (Way.Bytes at) result.bytes result.way out.old out.new }
{
    if left.len() <= at.from {
        return hand_last(at, left, right, out);
    }
    let took = crate::fill_lines(at.left, left, at.right, right, at.from, out);
    Handed {
        bytes: took.bytes,
        way: Way::Bytes(At {
            from: at.from + took.offsets,
            ..at
        }),
    }
}

// Internal: asks for a way that `begin` or this call handed out for the same bytes. Writes the next chunk at the start of a buffer;
// nothing, where that has no room for the longest text. What a way has left is the chunk and then what the way behind it has left.
#[tactic(auto, using(text::proofs::Ways::handed_nothing, crate::proofs::Ways::handed_done))]
pub fn fill(way: Way, left: &[u8], right: &[u8], out: &mut [u8]) -> Handed
    requires { Stands left.now right.now way }
    ensures { HandedAs (blame_walk left.now right.now) way result.bytes result.way out.old out.new }
{
    if out.len() < HAND_MAX {
        return Handed { bytes: 0, way };
    }
    match way {
        Way::Open => hand_first(left, right, out),
        Way::Bytes(at) => hand_bytes(at, left, right, out),
        Way::Done => Handed {
            bytes: 0,
            way: Way::Done,
        },
    }
}
