// The text of an offset: a byte that differs, and the rows that it names.
ghost use Rattle.std.specs.Prelude.{◌+◌, ◌-◌, ◌≤◌, ◌<◌, length};
ghost use Rattle.format.specs.Listing.{row_texts};
ghost use Rattle.format.specs.Outcome.{Wrote};
ghost use Rattle.text_column.specs.Own.{own_row, Owned};
ghost use Rattle.text_blame_bytes.specs.Owners.{Few, Stays};
ghost use Rattle.text_blame_lines.specs.Bytes.{blame_max, row_text, owners_text, text_at};

use crate::lines::{put_byte_line, put_row};
use format::WindowRow;
use text_blame_bytes::fields::same_at;
use text_blame_bytes::owners::owners_of;
use text_column::own::Own;

// The offset behind what was put, and the columns at the blocks of the last rows that were.
#[derive(Clone, Copy)]
pub struct Put {
    pub end: usize,
    pub left: Own,
    pub right: Own,
}

// Internal: asks for two columns, each opened of its bytes, for at most eight rows, and for room for their lines. Writes the lines of the rows from `first` to `last`, and returns
// the offset behind them.
fn put_rows(
    out: &mut [u8],
    at: usize,
    left: Own,
    lbytes: &[u8],
    right: Own,
    rbytes: &[u8],
    first: u32,
    last: u32,
) -> usize
    requires owned { Owned lbytes.now left.column left.pass × Owned rbytes.now right.column right.pass }
    requires first_le_last { (first ≤ last) × (last < first + 8) }
    requires at_in_bounds { at + 456 ≤ length out.old }
    ensures wrote { Wrote out.old at (row_texts (row_text (own_row left.column lbytes.now) (own_row right.column rbytes.now)) first (last + 1 - first)) out.new result }
    ensures upper_bound { result ≤ at + 456 }
{
    let mut end = at;
    for row in first..=last {
        let a = text_column::own::answer(left, lbytes, WindowRow(row));
        let b = text_column::own::answer(right, rbytes, WindowRow(row));
        end = put_row(out, end, row, a, b);
    }
    end
}

// Internal: asks for two columns, each opened of its bytes and with a pass over its blocks, for at most eight rows, and for room for their
// lines. Writes the lines of the rows that a byte names.
fn put_owners(
    out: &mut [u8],
    at: usize,
    left: Own,
    lbytes: &[u8],
    right: Own,
    rbytes: &[u8],
    owners: Option<(u32, u32)>,
) -> Put
    requires owned { Owned lbytes.now left.column left.pass × Owned rbytes.now right.column right.pass }
    requires few { Few owners }
    requires at_in_bounds { at + 456 ≤ length out.old }
    ensures wrote { Wrote out.old at (owners_text (own_row left.column lbytes.now) (own_row right.column rbytes.now) owners) out.new result.end }
    ensures end_bound { result.end ≤ at + 456 }
    ensures stays { Stays lbytes.now left result.left × Stays rbytes.now right result.right }
{
    match owners {
        Some((first, last)) => {
            let l = text_column::own::reach(left, lbytes, WindowRow(first));
            let r = text_column::own::reach(right, rbytes, WindowRow(first));
            let end = put_rows(out, at, l, lbytes, r, rbytes, first, last);
            Put {
                end,
                left: l,
                right: r,
            }
        }
        None => Put {
            end: at,
            left,
            right,
        },
    }
}

// Internal: asks for two columns, each opened of its bytes and with a pass over its blocks, and for room for a longest text. Writes the text
// of an offset.
pub fn put_offset(
    out: &mut [u8],
    at: usize,
    left: Own,
    lbytes: &[u8],
    right: Own,
    rbytes: &[u8],
    offset: usize,
) -> Put
    requires owned { Owned lbytes.now left.column left.pass × Owned rbytes.now right.column right.pass }
    requires blame_max_in_bounds { at + blame_max ≤ length out.old }
    ensures wrote { Wrote out.old at (text_at left.column lbytes.now right.column rbytes.now offset) out.new result.end }
    ensures end_bound { result.end ≤ at + blame_max }
    ensures stays { Stays lbytes.now left result.left × Stays rbytes.now right result.right }
{
    if same_at(lbytes, rbytes, offset) {
        return Put {
            end: at,
            left,
            right,
        };
    }
    let part = byte_part::part_at(left.column, lbytes, offset);
    let line = put_byte_line(out, at, offset, part);
    let named = owners_of(left, lbytes, offset);
    put_owners(out, line, named.own, lbytes, right, rbytes, named.owners)
}
