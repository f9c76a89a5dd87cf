// What each byte of a column is: the parts one after another, and the part of an offset. The calls take an opened column with its bytes, and ask nothing of
// them: what does not fit together at an offset is refused.
#![tactic(auto)]

mod measuring;
pub mod naming;

ghost use Rattle.std.specs.Prelude.{◌≡◌};
ghost use Rattle.format.specs.Parts.{part_at};
ghost use Rattle.byte_part.specs.Calls.{WalkedAs, FitsAs, PartAs};

use format::{Column, Part, Refusal};

// A place between parts: the number of the next part, and the offset where it begins. The first is part 0 at offset 0.
#[derive(Clone, Copy)]
pub struct Cursor {
    pub number: usize,
    pub at: usize,
}

// The part at a place, and the place behind it; or no part is left.
pub fn next_part(column: Column, bytes: &[u8], place: Cursor) -> Option<(Part, Cursor)>
    ensures { WalkedAs column bytes.now place result }
{
    let name = naming::name_at(column.codec, column.rows, place.number)?;
    let part = measuring::part_here(column, bytes, name, place.at);
    let next = Cursor {
        number: place.number + 1,
        at: place.at + part.bytes,
    };
    Some((part, next))
}

// The first part that ends behind an offset, which may lie behind all parts.
fn seek(column: Column, bytes: &[u8], offset: usize) -> Option<Part>
    ensures { result ≡ part_at bytes.now column offset }
{
    let mut place = Cursor { number: 0, at: 0 };
    while let Some((part, next)) = next_part(column, bytes, place) {
        if offset < next.at {
            return Some(part);
        }
        place = next;
    }
    None
}

// Whether column and bytes fit together at an offset: the area lies in the bytes, and so does the offset.
pub fn fits_at(column: Column, bytes: &[u8], offset: usize) -> bool
    ensures { FitsAs column bytes.now offset result }
{
    if !word::ends_within(column.start, column.size, bytes.len()) {
        return false;
    }
    offset < bytes.len()
}

// The part that holds the byte at an offset.
#[tactic(auto, unfolding(crate::specs::Bytes::part_of))]
pub fn part_at(column: Column, bytes: &[u8], offset: usize) -> Result<Part, Refusal>
    ensures { PartAs column bytes.now offset result }
{
    if !fits_at(column, bytes, offset) {
        return Err(Refusal::Unfit);
    }
    seek(column, bytes, offset).ok_or(Refusal::Unfit)
}
