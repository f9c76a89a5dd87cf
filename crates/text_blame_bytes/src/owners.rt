// The rows that a byte names, by the column's own blocks. Bytes in ascending order lie in blocks in ascending order: each search goes on from
// the block that the last one reached, so that one pass over the footer serves all bytes.
ghost use Rattle.std.specs.Prelude.{◌≡◌};
ghost use Rattle.format.specs.Listing.{opened_here};
ghost use Rattle.byte_owner.specs.Bytes.{rows_of};
ghost use Rattle.byte_owner.specs.Search.{searched, Searching};
ghost use Rattle.text_column.specs.Own.{table_of, Owned};
ghost use Rattle.text_blame_bytes.specs.Owners.{owners_found, Stays};
ghost use Rattle.format.specs.Refusals.{answered_by};

use byte_owner::Search;
use format::Refusal;
use text_column::own::Own;

// The rows of a byte, and the column at the block where their search ended.
#[derive(Clone, Copy)]
pub struct Reached {
    pub rows: Result<Option<(u32, u32)>, Refusal>,
    pub own: Own,
}

// Those rows, none where column and bytes do not fit together at the byte; and the column.
#[derive(Clone, Copy)]
pub struct Named {
    pub owners: Option<(u32, u32)>,
    pub own: Own,
}

// Internal: asks for a search of the column's blocks. The search from the block at hand on, where that begins at the byte or before it: the
// blocks before end there, so none of them has rows at the byte. Else as it was.
fn go_on(own: Own, bytes: &[u8], search: Search) -> Search
    requires { Owned bytes.now own.column own.pass × Searching own.column.rows search }
    ensures searching { Searching own.column.rows result }
    ensures result_value { searched (table_of (opened_here bytes.now)) own.column.rows result ≡ searched (table_of (opened_here bytes.now)) own.column.rows search }
{
    let pass = own.pass;
    if pass.count <= search.next {
        return search;
    }
    let here = pass.count - 1;
    let passed = here - search.next;
    if search.left as usize <= passed {
        return search;
    }
    if search.byte < pass.block.start {
        return search;
    }
    Search {
        next: here,
        left: search.left - passed as u32,
        ..search
    }
}

// Internal: asks for a column that was opened of these bytes, and a pass over its blocks. The rows that own a bit of the byte at an offset:
// the search takes its blocks out of the footer, one after another.
fn rows_at(own: Own, bytes: &[u8], offset: usize) -> Reached
    requires { Owned bytes.now own.column own.pass }
    ensures rows_value { answered_by result.rows ≡ rows_of bytes.now own.column (table_of (opened_here bytes.now)) offset }
    ensures stays { Stays bytes.now own result.own }
{
    let column = own.column;
    let mut at = own;
    let mut search = go_on(own, bytes, byte_owner::begin(column, bytes, offset));
    // No range: a step that finds the answer leaves no block, and each other one leaves one less.
    while 0 < search.left {
        at = text_column::own::reach_block(at, bytes, search.next);
        search = byte_owner::step(column, at.pass.block, search);
    }
    Reached {
        rows: search.answer,
        own: at,
    }
}

// Internal: asks for the same. Those rows; none where column and bytes do not fit together there.
pub fn owners_of(own: Own, bytes: &[u8], offset: usize) -> Named
    requires { Owned bytes.now own.column own.pass }
    ensures owners_value { result.owners ≡ owners_found own.column bytes.now offset }
    ensures stays { Stays bytes.now own result.own }
{
    let reached = rows_at(own, bytes, offset);
    Named {
        owners: reached.rows.unwrap_or(None),
        own: reached.own,
    }
}
