// Calls on plain numbers that need no table, for `hulemartob`: a kind is its number, a column its twelve numbers. What is neither is refused before all else.
#![tactic(auto)]

pub mod sizes;

ghost use Rattle.std.specs.Prelude.{◌≡◌, ◌/◌, length, get_or};
ghost use Rattle.format.specs.Calls.{StoredAs};
ghost use Rattle.format.specs.Word.{mod_add};
ghost use Rattle.c_numbers.specs.Numbers.{Answers};
ghost use Rattle.c_row.specs.Short.{row_of};
ghost use Rattle.c_tableless.specs.Calls.{stated_from, written_from, narrowed_from};
ghost use Rattle.format.specs.Refusals.{answered_by};

use c_answers::row_told;
use c_numbers::kinds::kind_from;
use c_numbers::{ACCEPTED, column_from, column_of};
use format::{Block, Column, ColumnStats, Refusal, WindowRow};

// The statistics of the numbers that a list of values of a kind is stored as.
pub fn stated(kind: u32, values: &[u64]) -> Result<ColumnStats, Refusal>
    ensures { answered_by result ≡ stated_from kind values.now }
{
    u64_based::column_stats_as(kind_from(kind)?, values)
}

// Writes such a list as a column by one of the listed codecs.
pub fn written(kind: u32, values: &[u64], codecs: &[u8], out: &mut [u8]) -> Result<usize, Refusal>
    ensures { StoredAs (written_from kind values.now codecs.now (length out.old)) result out.old out.new }
{
    u64_based::serialize_as(kind_from(kind)?, values, codecs, out)
}

// The column of twelve numbers with its window narrowed to `count` rows from its row `first` on.
pub fn narrowed(numbers: &[u64; 12], first: u32, count: u32) -> Result<Column, Refusal>
    ensures { answered_by result ≡ narrowed_from numbers.now first count }
{
    let column = column_from(numbers)?;
    open_column::narrow(column, first, count).map_err(|(q, _)| q)
}

// The block that a row of the window of the column of twelve numbers is read by, the row counted modulo 2^64. Where the codec has no blocks it is 2^64 - 1, which no table has.
pub fn block_for(numbers: &[u64; 12], row: u32) -> usize
    ensures { get_or numbers.now 0 0 ≡ 2 → result ≡ mod_add (get_or numbers.now 10 0) row / 512 }
{
    if numbers[0] != 2 {
        return usize::MAX;
    }
    (word::add(numbers[10], row as u64) / 512) as usize
}

// A row by the long way: the column is made of its numbers, and each test has its refusal.
fn row_told_apart(
    numbers: &[u64; 12],
    blocks: usize,
    block: Block,
    bytes: &[u8],
    row: u32,
    refusal: &mut [u64; 2],
) -> u64
    ensures { Answers (row_of numbers.now blocks block bytes.now row) result refusal.new }
{
    let made = column_from(numbers);
    let opened = column_of(made);
    let answer = read_row::reader::row_in(opened, blocks, block, bytes, WindowRow(row));
    row_told(made, answer, refusal)
}

// The value of a row of the column of twelve numbers, 0 on refusal, with its block out of a table of so many: by the short way, or else by the long one. The bytes are lent
// anew to the long way, so that the short one has them in registers.
pub fn row_by(
    numbers: &[u64; 12],
    blocks: usize,
    block: Block,
    bytes: &[u8],
    row: u32,
    refusal: &mut [u64; 2],
) -> u64
    ensures { Answers (row_of numbers.now blocks block bytes.now row) result refusal.new }
{
    let short = c_row::row(numbers, blocks, block, bytes, row);
    if short.found {
        *refusal = ACCEPTED;
        return short.value;
    }
    let n = bytes.len();
    row_told_apart(numbers, blocks, block, &bytes[..n], row, refusal)
}
