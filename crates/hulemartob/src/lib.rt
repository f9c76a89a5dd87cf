// The library for Rust and C: the entry points over plain numbers and tables of block records. A refusal is two numbers, an opened column twelve. Every
// call puts its refusal's numbers, both 0 where nothing is refused; a refusal changes no other lent entry. A longer spelling is its offset, 2^64 - 1
// where there is none.
//
// A call that is lent a table makes a column of its numbers, or one of no rows where they are none, is made with that column in any case, and has its
// answer told by one call: the refusal of the numbers comes first.
#![tactic(auto)]

mod checks;
mod differs;
mod parts;
mod replays;
mod stops;
mod typed;

ghost use Rattle.hulemartob.specs.Exports.{ColumnStatsPromise, SerializePromise, OpenPromise, OpenUnderPromise, NarrowPromise, RowPromise, LookupPromise, RunPromise};

use c_answers::{column_told, entries_told, length_told, open_told, stats_told};
use c_numbers::{column_from, column_of};
use format::Block;

// The statistics of a list: minimum, maximum, gcd, rows.
#[unsafe(no_mangle)]
pub extern "C" fn hulemartob_column_stats(
    values: &[u64],
    stats: &mut [u64; 4],
    refusal: &mut [u64; 2],
)
    ensures { ColumnStatsPromise values.now refusal.new stats.old stats.new }
{
    let answer = u64_based::column_stats(values);
    stats_told(answer, stats, refusal);
}

// Writes a list as a column by one of the listed codecs, and returns the column's length, 0 on refusal.
#[unsafe(no_mangle)]
pub extern "C" fn hulemartob_serialize(
    values: &[u64],
    codecs: &[u8],
    out: &mut [u8],
    refusal: &mut [u64; 2],
) -> usize
    ensures { SerializePromise values.now codecs.now result refusal.new out.old out.new }
{
    let answer = u64_based::serialize(values, codecs, out);
    length_told(answer, refusal)
}

// Opens a column under sheet 1: its twelve numbers, and its blocks in the table. Returns the offset of the first longer spelling, 2^64 - 1 where
// there is none and on refusal.
#[unsafe(no_mangle)]
pub extern "C" fn hulemartob_open(
    bytes: &[u8],
    table: &mut [Block],
    column: &mut [u64; 12],
    refusal: &mut [u64; 2],
) -> u64
    ensures { OpenPromise bytes.now result refusal.new column.old column.new table.old table.new }
{
    let answer = table::open(bytes, table);
    open_told(answer, column, refusal)
}

// Opens a column under the sheet that is named.
#[unsafe(no_mangle)]
pub extern "C" fn hulemartob_open_under(
    sheet: u32,
    bytes: &[u8],
    table: &mut [Block],
    column: &mut [u64; 12],
    refusal: &mut [u64; 2],
) -> u64
    ensures { OpenUnderPromise sheet bytes.now result refusal.new column.old column.new table.old table.new }
{
    let answer = table::open_under(sheet, bytes, table);
    open_told(answer, column, refusal)
}

// Narrows a column's window to `count` rows from its row `first` on: the column's numbers are then those of the narrowed one.
#[unsafe(no_mangle)]
pub extern "C" fn hulemartob_narrow(
    column: &mut [u64; 12],
    first: u32,
    count: u32,
    refusal: &mut [u64; 2],
)
    ensures { NarrowPromise first count refusal.new column.old column.new }
{
    let made = c_tableless::narrowed(column, first, count);
    column_told(made, column, refusal);
}

// The value of a row of the window, 0 on refusal.
#[unsafe(no_mangle)]
pub extern "C" fn hulemartob_row(
    column: &[u64; 12],
    table: &[Block],
    bytes: &[u8],
    row: u32,
    refusal: &mut [u64; 2],
) -> u64
    ensures { RowPromise column.now table.now bytes.now row result refusal.new }
{
    let blocks = table.len();
    let k = c_tableless::block_for(column, row);
    let block = table::block_at(table, k);
    c_tableless::row_by(column, blocks, block, bytes, row, refusal)
}

// How many rows were found, 0 on refusal: those from `first` to `end` whose value lies from `low` to `high`. They are the first entries of `found`.
#[unsafe(no_mangle)]
pub extern "C" fn hulemartob_lookup(
    column: &[u64; 12],
    table: &[Block],
    bytes: &[u8],
    low: u64,
    high: u64,
    first: u32,
    end: u32,
    found: &mut [u32],
    refusal: &mut [u64; 2],
) -> usize
    ensures { LookupPromise column.now table.now bytes.now low high first end result refusal.new found.old found.new }
{
    let made = column_from(column);
    let opened = column_of(made);
    let answer = table::lookup(opened, table, bytes, low, high, first, end, found);
    entries_told(made, answer, refusal)
}

// How many values were decoded, 0 on refusal: those of the rows from `first` on, as many as `out` has entries, which they fill.
#[unsafe(no_mangle)]
pub extern "C" fn hulemartob_run(
    column: &[u64; 12],
    table: &[Block],
    bytes: &[u8],
    first: u32,
    out: &mut [u64],
    refusal: &mut [u64; 2],
) -> usize
    ensures { RunPromise column.now table.now bytes.now first result refusal.new out.old out.new }
{
    let made = column_from(column);
    let opened = column_of(made);
    let answer = table::run(opened, table, bytes, first, out);
    entries_told(made, answer, refusal)
}
