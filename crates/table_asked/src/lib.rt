// What else is asked of an opened column over its block table, a lent list of block records: recorded lookups, where it differs from another, whose a byte is, and whether it holds a list.
// No argument makes a call fail, and each contract says what it answers and what the lent table holds afterwards.
#![tactic(auto)]

ghost use Rattle.std.specs.Prelude.{◌≡◌, List, length};
ghost use Rattle.byte_owner.specs.Search.{searched, Searching};
ghost use Rattle.table_asked.specs.Calls.{ReplaysAs, DiffersAs, RowsAs};
ghost use Rattle.table_asked.specs.Checked.{ChecksAs, KindChecksAs};

use byte_owner::Search;
use compare_walk::Difference;
use format::{Block, Column, Kind, Mismatch, Refusal, Report};

// Runs the recorded lookups one after another, up to the first whose rows are not the recorded ones.
pub fn replay(
    column: Column,
    table: &[Block],
    bytes: &[u8],
    recording: &[u8],
) -> Result<Report, Refusal>
    ensures { ReplaysAs column table.now bytes.now recording.now result }
{
    let blocks = table.len();
    let rows = column.window.rows;
    let mut w = replay_walk::walking::begin(rows, recording);
    while w.going {
        let k = replay_walk::walking::block_of(column, w);
        let block = table::block_at(table, k);
        w = replay_walk::walking::step(column, blocks, block, bytes, recording, w);
    }
    w.answer
}

// The first row from a given one on whose answers differ, with both answers. The rows are those of the columns' windows: a row that only one has is refused 12 by the other. A refused row
// equals a refused row of the same number.
pub fn difference(
    left: Column,
    ltable: &[Block],
    lbytes: &[u8],
    right: Column,
    rtable: &[Block],
    rbytes: &[u8],
    from: u32,
) -> Option<Difference>
    ensures { DiffersAs left ltable.now lbytes.now right rtable.now rbytes.now from result }
{
    let lblocks = ltable.len();
    let rblocks = rtable.len();
    let mut w = compare_walk::walking::begin(left, right, from);
    while w.going {
        let l = compare_walk::walking::block_of(left, w);
        let lblock = table::block_at(ltable, l);
        let r = compare_walk::walking::block_of(right, w);
        let rblock = table::block_at(rtable, r);
        w = compare_walk::walking::step(
            left, lblocks, lblock, lbytes, right, rblocks, rblock, rbytes, w,
        );
    }
    w.answer
}

// Internal: asks for a search of the column's blocks. The same among a table's blocks alone: those past its end have no rows, so that of a
// made-up column with many rows no more blocks are asked than there are.
fn in_table(column: Column, search: Search, blocks: usize) -> Search
    requires { Searching column.rows search }
    ensures { Searching column.rows result × ((table : List Block) → length table ≡ blocks → searched table column.rows result ≡ searched table column.rows search) }
{
    let next = search.next;
    if next + search.left as usize <= blocks {
        return search;
    }
    let end = if next < blocks { blocks } else { next };
    let answer = search.answer;
    Search {
        next,
        left: (end - next) as u32,
        byte: search.byte,
        answer,
    }
}

// The rows that own a bit of the byte at an offset, from the first to the last, with the column's table. None does before the packed area, behind it, and where a
// byte of it has filling bits only.
pub fn rows_at(
    column: Column,
    table: &[Block],
    bytes: &[u8],
    offset: usize,
) -> Result<Option<(u32, u32)>, Refusal>
    ensures { RowsAs column table.now bytes.now offset result }
{
    let mut search = byte_owner::begin(column, bytes, offset);
    let blocks = table.len();
    search = in_table(column, search, blocks);
    while 0 < search.left {
        let next = search.next;
        let block = table::block_at(table, next);
        search = byte_owner::step(column, block, search);
    }
    search.answer
}

// Opens a column from any writer under an acceptance sheet and checks it against the list of numbers that it is to hold: it is passed, or the first reason why not.
pub fn check(sheet: u32, bytes: &[u8], values: &[u64], table: &mut [Block]) -> Result<(), Mismatch>
    ensures { ChecksAs sheet bytes.now values.now result table.old table.new }
{
    check_as(Kind::U64, sheet, bytes, values, table)
}

// The same against a list of values of a kind, by the numbers that they are stored as. Once the column is opened, the table holds its blocks, whatever the verdict.
pub fn check_as(
    kind: Kind,
    sheet: u32,
    bytes: &[u8],
    values: &[u64],
    table: &mut [Block],
) -> Result<(), Mismatch>
    ensures { KindChecksAs kind sheet bytes.now values.now result table.old table.new }
{
    let opened = table::open_under(sheet, bytes, table);
    check_verdict::verdict_on(kind, opened, bytes, values)
}
