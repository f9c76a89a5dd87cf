// The way through an explanation: a value that says what is still to be written, and hands it out chunk by chunk. A program begins, and
// writes what it is handed while there is more.
ghost use Rattle.std.specs.Prelude.{◌≡◌, ◌≤◌, length};
ghost use Rattle.text.specs.Way.{HandedAs};
ghost use Rattle.text_explain.specs.Chunk.{line_length};
ghost use Rattle.text_explain.specs.Way.{hand_max, is_more, way_of, explanation_walk};

use format::Column;
use text::put::put_text;

// Room for the longest line.
const HAND_MAX: usize = 128;

// Before the first line; before the line of a part, by its number; at the end.
#[derive(Clone, Copy)]
pub enum Way {
    Open,
    Parts(Column, usize),
    Done,
}

// A chunk: its length, and the way from there on.
#[derive(Clone, Copy)]
pub struct Handed {
    pub bytes: usize,
    pub way: Way,
}

// The way before the first line.
pub fn begin() -> Way
    ensures { result ≡ Way.Open }
{
    Way::Open
}

// Whether something may be left to be written.
pub fn more(way: Way) -> bool
    ensures { result ≡ is_more way }
{
    match way {
        Way::Open | Way::Parts(_, _) => true,
        Way::Done => false,
    }
}

// The length of the line that an explanation begins with; none where the column opens.
fn line_of(begun: Result<Column, usize>) -> usize
    ensures { result ≡ line_length begun }
{
    match begun {
        Ok(_) => 0,
        Err(n) => n,
    }
}

// The way behind it: before the first part, or at the end where the line is the only one.
fn way_of(begun: Result<Column, usize>) -> Way
    ensures { result ≡ way_of begun }
{
    match begun {
        Ok(column) => Way::Parts(column, 0),
        Err(_) => Way::Done,
    }
}

// Internal: asks for room for the longest line. Hands out the line of a column that does not open, if it does not.
fn hand_first(bytes: &[u8], out: &mut [u8]) -> Handed
    requires { hand_max ≤ length out.old }
    ensures { HandedAs (explanation_walk bytes.now) Way.Open result.bytes result.way out.old out.new }
{
    let mut line = [0u8; 128];
    let begun = crate::begin(bytes, &mut line);
    let n = line_of(begun);
    let end = put_text(out, 0, &line[..n]);
    Handed {
        bytes: end,
        way: way_of(begun),
    }
}

// Internal: asks for the same. Hands out as many parts' lines as have room. Where no part is left, the way ends.
fn hand_parts(column: Column, bytes: &[u8], from: usize, out: &mut [u8]) -> Handed
    requires { hand_max ≤ length out.old }
    ensures { HandedAs (explanation_walk bytes.now) (Way.Parts column from) result.bytes result.way out.old out.new }
{
    let told = crate::fill_lines(column, bytes, from, out);
    if told.parts == 0 {
        return Handed {
            bytes: told.bytes,
            way: Way::Done,
        };
    }
    Handed {
        bytes: told.bytes,
        way: Way::Parts(column, from + told.parts),
    }
}

// Writes the next chunk at the start of a buffer; nothing, where that has no room for the longest line. What a way has left is the chunk
// and then what the way behind it has left.
#[tactic(auto, using(text::proofs::Ways::handed_nothing, crate::proofs::Ways::handed_done))]
pub fn fill(way: Way, bytes: &[u8], out: &mut [u8]) -> Handed
    ensures { HandedAs (explanation_walk bytes.now) way result.bytes result.way out.old out.new }
{
    if out.len() < HAND_MAX {
        return Handed { bytes: 0, way };
    }
    match way {
        Way::Open => hand_first(bytes, out),
        Way::Parts(column, from) => hand_parts(column, bytes, from, out),
        Way::Done => Handed {
            bytes: 0,
            way: Way::Done,
        },
    }
}
