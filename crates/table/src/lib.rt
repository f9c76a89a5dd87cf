// The calls over a block table, a lent list of block records. No argument makes a call fail but by a numbered refusal, and each contract
// says what a call answers and what every lent entry holds afterwards.
//
// Only `fill` writes a table and only `block_at` reads one; the others pass it on.
#![tactic(auto)]

ghost use Rattle.std.specs.Prelude.{◌≡◌, length};
ghost use Rattle.format.specs.Outcome.{stored};
ghost use Rattle.blockwise_linear.specs.Reader.{first_cursor, blocks_from, listed, Fillable};
ghost use Rattle.table.specs.Calls.{BlockAs, OpensAs, OpensUnderAs, RowAs, LooksAs, RunsAs};

use format::{Block, Column, Refusal, WindowRow};

// Block `k` of a table; a block past the table's end is all zeros.
pub fn block_at(table: &[Block], k: usize) -> Block
    ensures { BlockAs table.now k result }
{
    table.get(k).copied().unwrap_or_default()
}

// The value of a row of an opened column's window, with its table and its bytes.
pub fn row(column: Column, table: &[Block], bytes: &[u8], row: WindowRow) -> Result<u64, Refusal>
    ensures { RowAs column table.now bytes.now row.0 result }
{
    let blocks = table.len();
    let k = read_row::reader::block_of(column, row);
    let block = block_at(table, k);
    read_row::reader::row_in(column, blocks, block, bytes, row)
}

// The rows from `first` to `end`, cut to the window's rows, whose value lies from `low` to `high`, ascending into the first entries of `found`.
pub fn lookup(
    column: Column,
    table: &[Block],
    bytes: &[u8],
    low: u64,
    high: u64,
    first: u32,
    end: u32,
    found: &mut [u32],
) -> Result<usize, Refusal>
    ensures { LooksAs column table.now bytes.now low high first end result found.old found.new }
{
    let blocks = table.len();
    let window = column.window;
    let mut w = read_lookup::begin(window, first, end);
    while w.going {
        let k = read_walk::block_of(w);
        let block = block_at(table, k);
        w = read_lookup::step(column, blocks, block, bytes, low, high, w, found);
    }
    read_walk::answer(w)
}

// The values of the window's rows from `first` on, as many as the lent list has entries, into that list.
pub fn run(
    column: Column,
    table: &[Block],
    bytes: &[u8],
    first: u32,
    out: &mut [u64],
) -> Result<usize, Refusal>
    ensures { RunsAs column table.now bytes.now first result out.old out.new }
{
    let blocks = table.len();
    let rows = out.len();
    let window = column.window;
    let mut w = read_run::begin(window, first, rows);
    while w.going {
        let k = read_walk::block_of(w);
        let block = block_at(table, k);
        w = read_run::step(column, blocks, block, bytes, w, out);
    }
    read_walk::answer(w)
}

// Internal: asks for blocks that were checked, and for room. The blocks of so many rows are put into the table, one after another.
fn fill(bytes: &[u8], rows: u32, table: &mut [Block])
    requires { Fillable bytes.now rows (length table.old) }
    ensures { table.new ≡ stored (listed (blocks_from bytes.now (first_cursor bytes.now rows))) table.old }
{
    let mut c = blockwise_linear::reader::first(bytes, rows);
    let mut k: usize = 0;
    while 0 < c.left {
        let step = blockwise_linear::short::next_block(bytes, c);
        table[k] = step.block;
        c = step.next;
        k += 1;
    }
}

// Opens a column under an acceptance sheet, says the offset of the first number that is spelled longer than need be, if there is one, and puts the blocks of a
// Blockwise one into the lent table, a record a block. A refusal leaves the table as it was; so does a column without blocks.
pub fn open_under(
    sheet: u32,
    bytes: &[u8],
    table: &mut [Block],
) -> Result<(Column, Option<usize>), Refusal>
    ensures { OpensUnderAs sheet bytes.now result table.old table.new }
{
    let room = table.len();
    let answer = open_column::open_plain_under(sheet, bytes, room);
    let rows = open_column::opening::table_rows(answer);
    fill(bytes, rows, table);
    answer
}

// Opens a column under sheet 1.
pub fn open(bytes: &[u8], table: &mut [Block]) -> Result<(Column, Option<usize>), Refusal>
    ensures { OpensAs bytes.now result table.old table.new }
{
    open_under(1, bytes, table)
}
