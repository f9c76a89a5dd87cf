// A column's parts as text: a line for each part that has bytes, as many at a time as a lent buffer has room for. What does not open is a line of its
// own. No argument makes a call fail, and each contract says what every lent entry holds afterwards.
#![tactic(auto)]

mod lines;
pub mod way;
pub mod words;

ghost use Rattle.format.specs.Listing.{opened_here};
ghost use Rattle.text_explain.specs.Chunk.{BegunAs, Placed, ToldAs};

use byte_part::Cursor;
use format::Column;
use text::lines::named_line;

// The longest line of a part.
const LINE_MAX: usize = 90;

// What a chunk took: how many parts, and how many bytes their lines are.
#[derive(Clone, Copy)]
pub struct Told {
    pub parts: usize,
    pub bytes: usize,
}

// Begins an explanation: opens the column within a program's limits. A refusal's line, the only one then, is written at the start of the lent one, and its length is the error.
#[tactic(auto, using(crate::proofs::Beginnings::begun_refused, crate::proofs::Beginnings::begun_column))]
pub fn begin(bytes: &[u8], line: &mut [u8; 128]) -> Result<Column, usize>
    ensures { BegunAs (opened_here bytes.now) result line.old line.new }
{
    match text_column::opening::open_plain(bytes) {
        Ok((column, _)) => Ok(column),
        Err(refusal) => Err(named_line(b"refused ", refusal.number() as u64, line)),
    }
}

// The place of a part by its number; behind the last part where there are fewer.
fn place_of(column: Column, bytes: &[u8], number: usize) -> Cursor
    ensures { Placed bytes.now column number result }
{
    let mut place = Cursor { number: 0, at: 0 };
    for _ in 0..number {
        let Some((_, next)) = byte_part::next_part(column, bytes, place) else {
            return place;
        };
        place = next;
    }
    place
}

// Writes the lines of the parts from number `from` on at the start of a buffer, while a longest line has room. A part of no bytes has no line. A call that
// takes no part, though a longest line has room, finds none left.
pub fn fill_lines(column: Column, bytes: &[u8], from: usize, out: &mut [u8]) -> Told
    ensures { ToldAs column bytes.now from result out.old out.new }
{
    let mut place = place_of(column, bytes, from);
    let mut told = Told { parts: 0, bytes: 0 };
    // No range: that no part is left shows only where the next one is asked for.
    while LINE_MAX <= out.len() - told.bytes {
        let Some((part, next)) = byte_part::next_part(column, bytes, place) else {
            break;
        };
        told.bytes = lines::put_part(out, told.bytes, column, part);
        told.parts += 1;
        place = next;
    }
    told
}
