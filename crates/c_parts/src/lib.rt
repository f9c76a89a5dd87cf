// The parts of a column one after another, as plain numbers: as many as a lent list has room for, and the place to go on from.
#![tactic(auto)]

ghost use Rattle.std.specs.Prelude.{◌+◌, ◌≤◌, ◌/◌, ◌≡◌, length};
ghost use Rattle.std.proofs.lemmas.List.Edits.{sets};
ghost use Rattle.c_numbers.specs.Explaining.{part_numbers};
ghost use Rattle.c_parts.specs.Listed.{Fills, Walks, column_in, listed_from};
ghost use Rattle.format.specs.Refusals.{answered_by};

use byte_part::Cursor;
use byte_part::naming::{block_of, which_part};
use c_numbers::{ACCEPTED, column_from, told};
use format::{Column, Part, Refusal};

// How many parts were put into a list, and the place behind them.
#[derive(Clone, Copy)]
pub struct Filled {
    pub parts: usize,
    pub behind: Cursor,
}

// Internal: asks for room. Puts a part's five numbers into a list.
fn put(list: &mut [u64], at: usize, part: Part)
    requires { at + 5 ≤ length list.old }
    ensures { list.new ≡ sets list.old at (part_numbers part) }
{
    let name = part.name;
    list[at] = which_part(name);
    list[at + 1] = block_of(name) as u64;
    list[at + 2] = part.first as u64;
    list[at + 3] = part.bytes as u64;
    list[at + 4] = part.value;
}

// The parts from a place on, up to the last or until the list is full.
fn fill(column: Column, bytes: &[u8], from: Cursor, list: &mut [u64]) -> Filled
    ensures { Fills bytes.now column from result list.old list.new }
{
    let room = list.len() / 5;
    let mut place = from;
    // Counted by hand: the count is an answer of its own, and the parts may end before the room does.
    let mut parts: usize = 0;
    while parts < room {
        let Some((part, next)) = byte_part::next_part(column, bytes, place) else {
            break;
        };
        put(list, 5 * parts, part);
        place = next;
        parts += 1;
    }
    Filled {
        parts,
        behind: place,
    }
}

// The column of twelve numbers, whose area has to lie in the bytes.
fn column_in(column: &[u64; 12], bytes: &[u8]) -> Result<Column, Refusal>
    ensures { answered_by result ≡ column_in column.now bytes.now }
{
    let opened = column_from(column)?;
    if !word::ends_within(opened.start, opened.size, bytes.len()) {
        return Err(Refusal::Unfit);
    }
    Ok(opened)
}

// Puts the parts of a column of twelve numbers into a list, five numbers each, from the place of a cursor on, which is then the place
// behind them. Returns how many there are, 0 on refusal: fewer than the list has room for, only if there are no more.
pub fn list_parts(
    column: &[u64; 12],
    bytes: &[u8],
    cursor: &mut [u64; 2],
    list: &mut [u64],
    refusal: &mut [u64; 2],
) -> usize
    ensures { Walks (listed_from column.now bytes.now cursor.old (length list.old)) result refusal.new cursor.old cursor.new list.old list.new }
{
    match column_in(column, bytes) {
        Ok(opened) => {
            let from = Cursor {
                number: cursor[0] as usize,
                at: cursor[1] as usize,
            };
            let done = fill(opened, bytes, from, list);
            *cursor = [done.behind.number as u64, done.behind.at as u64];
            *refusal = ACCEPTED;
            done.parts
        }
        Err(q) => {
            *refusal = told(q);
            0
        }
    }
}
