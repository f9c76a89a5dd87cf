// How many bytes differ, and how many rows they name.
ghost use Rattle.std.specs.Prelude.{◌≡◌, ◌-◌};
ghost use Rattle.text_column.specs.Own.{Opens, Owned};
ghost use Rattle.text_blame_bytes.specs.Owners.{owners_found, Stays};
ghost use Rattle.text_blame_bytes.specs.Tallies.{with_byte, tally_from, tallied, Countable, Counted};

use crate::fields::same_at;
use crate::owners::owners_of;
use format::Column;
use text_column::own::Own;

// Bytes and rows that were counted, and the row behind the last of them: rows are named in ascending order, so those below it were counted.
#[derive(Clone, Copy)]
pub struct Tally {
    pub bytes: usize,
    pub rows: u64,
    pub next: u64,
}

// What was counted, and the column at the block that the last byte's search reached.
#[derive(Clone, Copy)]
struct Counting {
    tally: Tally,
    own: Own,
}

// a - b, or 0 where b is greater.
fn less(a: u64, b: u64) -> u64
    ensures { result ≡ a - b }
{
    a.saturating_sub(b)
}

// Internal: asks that one byte more can be counted, and for rows below the next. One byte more, with the rows that it names.
fn with_byte(tally: Tally, owners: Option<(u32, u32)>) -> Tally
    requires { Countable tally }
    ensures value { result ≡ with_byte tally owners }
    ensures counted { Counted tally result }
{
    match owners {
        None => Tally {
            bytes: tally.bytes + 1,
            rows: tally.rows,
            next: tally.next,
        },
        Some((first, last)) => {
            let fresh = word::larger(first as u64, tally.next);
            let behind = last as u64 + 1;
            let more = less(behind, fresh);
            Tally {
                bytes: tally.bytes + 1,
                rows: tally.rows + more,
                next: word::larger(tally.next, behind),
            }
        }
    }
}

// Internal: as `with_byte`, and for a column that was opened of the left bytes, with a pass over its blocks. The byte at an offset, where it
// differs.
fn count_at(counting: Counting, left: &[u8], right: &[u8], offset: usize) -> Counting
    requires { Countable counting.tally × Owned left.now counting.own.column counting.own.pass }
    ensures tally_value { result.tally ≡ tally_from (owners_found counting.own.column left.now) left.now right.now offset 1 counting.tally }
    ensures counted { Counted counting.tally result.tally }
    ensures stays { Stays left.now counting.own result.own }
{
    if same_at(left, right, offset) {
        return counting;
    }
    let named = owners_of(counting.own, left, offset);
    Counting {
        tally: with_byte(counting.tally, named.owners),
        own: named.own,
    }
}

// Internal: asks for a column that was opened of the left bytes. Counts over all bytes.
pub fn count(column: Column, left: &[u8], right: &[u8]) -> Tally
    requires { Opens left.now column }
    ensures { result ≡ tallied (owners_found column left.now) left.now right.now }
{
    let mut counting = Counting {
        tally: Tally {
            bytes: 0,
            rows: 0,
            next: 0,
        },
        own: text_column::own::begin(left, column),
    };
    for i in 0..left.len() {
        counting = count_at(counting, left, right, i);
    }
    counting.tally
}
