// Two columns of equal length, byte by byte, as text: for each byte that differs its part, and the rows that own a bit of it with both answers, as many
// bytes at a time as a lent buffer has room for; and how many bytes and rows there are. A side that does not open, unequal lengths and a field that
// differs are a line of their own: then the bytes of the area do not tell which rows changed. No argument makes a call fail, and each contract says what
// every lent entry holds afterwards.
#![tactic(auto)]

pub mod way;

ghost use Rattle.format.specs.Listing.{opened_here};
ghost use Rattle.text_column.specs.Own.{Opens};
ghost use Rattle.text_blame.specs.Beginning.{starts, BegunAs};
ghost use Rattle.text_blame.specs.Chunk.{LookedAs, EndedAs};

use format::Column;
use text::lines::named_line;
use text_blame_bytes::{counting, fields};
use text_blame_lines::{lines, rows};
use text_column::opening;

// The longest text of a byte.
const BLAME_MAX: usize = 512;

// What a chunk took: how many offsets were looked at, and how many bytes their text is.
#[derive(Clone, Copy)]
pub struct Looked {
    pub offsets: usize,
    pub bytes: usize,
}

// Internal: asks for two columns, each opened of its bytes. Begins a blame of them: looks at their lengths and fields.
#[tactic(auto, using(crate::proofs::Beginnings::begun_lengths))]
fn begin_both(
    column: Column,
    left: &[u8],
    against: Column,
    right: &[u8],
    line: &mut [u8; 128],
) -> Result<(Column, Column), usize>
    requires { Opens left.now column × Opens right.now against }
    ensures { BegunAs (starts (opened_here left.now) (opened_here right.now) left.now right.now) result line.old line.new }
{
    if left.len() != right.len() {
        return Err(lines::lengths_line(left.len(), right.len(), line));
    }
    if let Some((offset, name)) = fields::first_field(column, left, right) {
        return Err(lines::field_line(offset, name, line));
    }
    Ok((column, against))
}

// Internal: asks for a column that was opened of the left bytes. Begins a blame of it: opens the right side.
#[tactic(auto, using(crate::proofs::Beginnings::begun_right, text_column::proofs::Answered::found_column))]
fn begin_right(
    column: Column,
    left: &[u8],
    right: &[u8],
    line: &mut [u8; 128],
) -> Result<(Column, Column), usize>
    requires { Opens left.now column }
    ensures { BegunAs (starts (opened_here left.now) (opened_here right.now) left.now right.now) result line.old line.new }
{
    match opening::open_plain(right) {
        Ok((against, _)) => begin_both(column, left, against, right, line),
        Err(refusal) => Err(named_line(b"right refused ", refusal.number() as u64, line)),
    }
}

// Begins a blame: opens both sides within a program's limits, and looks at their lengths and fields. Where a side is refused, the left one before the right,
// where the lengths differ or a field does, the line that says so, the only one then, is written at the start of the lent one,
// and its length is the error.
#[tactic(auto, using(crate::proofs::Beginnings::begun_left, text_column::proofs::Answered::found_column))]
pub fn begin(left: &[u8], right: &[u8], line: &mut [u8; 128]) -> Result<(Column, Column), usize>
    ensures { BegunAs (starts (opened_here left.now) (opened_here right.now) left.now right.now) result line.old line.new }
{
    match opening::open_plain(left) {
        Ok((column, _)) => begin_right(column, left, right, line),
        Err(refusal) => Err(named_line(b"left refused ", refusal.number() as u64, line)),
    }
}

// Internal: asks for two columns, each opened of its bytes. Writes the text of the offsets from `from` on at the start of a buffer, while a longest text has room. A byte
// that is the same on both sides has none.
pub fn fill_lines(
    left: Column,
    lbytes: &[u8],
    right: Column,
    rbytes: &[u8],
    from: usize,
    out: &mut [u8],
) -> Looked
    requires { Opens lbytes.now left × Opens rbytes.now right }
    ensures { LookedAs left lbytes.now right rbytes.now from result out.old out.new }
{
    let mut l = text_column::own::begin(lbytes, left);
    let mut r = text_column::own::begin(rbytes, right);
    let mut looked = Looked {
        offsets: 0,
        bytes: 0,
    };
    for i in from..lbytes.len() {
        if out.len() - looked.bytes < BLAME_MAX {
            break;
        }
        let put = rows::put_offset(out, looked.bytes, l, lbytes, r, rbytes, i);
        l = put.left;
        r = put.right;
        looked.bytes = put.end;
        looked.offsets += 1;
    }
    looked
}

// Internal: asks for a column that was opened of the left bytes. Writes the last line, with the count of the bytes that differ and of the rows that they name, at the start of
// the lent one, and returns its length. A row that several bytes name is counted once.
pub fn end_line(column: Column, left: &[u8], right: &[u8], line: &mut [u8; 128]) -> usize
    requires { Opens left.now column }
    ensures { EndedAs column left.now right.now result line.old line.new }
{
    let tally = counting::count(column, left, right);
    lines::count_line(tally.bytes, tally.rows, line)
}
