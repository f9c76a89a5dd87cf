// A view for those who write tools: a column's bytes together with its opened numbers, in place of three things in each call. It takes Bitpacked and Linear columns, which have no block table;
// first stand the calls on plain parameters, then the view above them.
#![tactic(auto)]

ghost use Rattle.std.specs.Prelude.{◌≡◌};
ghost use Rattle.view.specs.Held.{for_view, column_or};
ghost use Rattle.view.specs.Calls.{PlainAs, RowOfAs, OpensAs, RowAs, RowsAs};
ghost use Rattle.format.specs.Refusals.{answered_by};

use format::{Block, Codec, Column, Line, Refusal, Window, WindowRow};

// What opening with no room for a block answers, for a view. A Blockwise column lacks room, or it opens because it has no rows; a view takes neither.
fn for_view(
    answer: Result<(Column, Option<usize>), Refusal>,
) -> Result<(Column, Option<usize>), Refusal>
    ensures { answered_by result ≡ for_view (answered_by answer) }
{
    match answer {
        Ok((column, _)) => match column.codec {
            Codec::Bitpacked | Codec::Linear(_, _) => answer,
            Codec::Blockwise => Err(Refusal::NotForView),
        },
        Err(Refusal::TableShort { .. }) => Err(Refusal::NotForView),
        Err(_) => answer,
    }
}

// The column that an answer leaves to a view: where it refuses, one of no rows.
fn column_of(answer: Result<(Column, Option<usize>), Refusal>) -> Column
    ensures { result ≡ column_or (answered_by answer) }
{
    match answer {
        Ok((column, _)) => column,
        Err(_) => Column {
            minimum: 0,
            gcd: 0,
            count: 0,
            rows: 0,
            start: 0,
            size: 0,
            window: Window { first: 0, rows: 0 },
            codec: Codec::Bitpacked,
        },
    }
}

// Opens a column for a view, under an acceptance sheet that the caller names: the column, and the offset of the first number that is spelled longer than need be.
pub fn open_plain(sheet: u32, bytes: &[u8]) -> Result<(Column, Option<usize>), Refusal>
    ensures { PlainAs sheet bytes.now result }
{
    let answer = for_view(open_column::open_plain(bytes, 0));
    open_sheet::under(sheet, answer, bytes)
}

// The value of a row of such a column, with its bytes: as with an empty table.
pub fn row_of(column: Column, bytes: &[u8], row: u32) -> Result<u64, Refusal>
    ensures { RowOfAs column bytes.now row result }
{
    let line = Line {
        slope: 0,
        intercept: 0,
    };
    let none = Block {
        line,
        bits: 0,
        start: 0,
    };
    read_row::reader::row_in(column, 0, none, bytes, WindowRow(row))
}

// A column's bytes and its opened numbers.
#[derive(Clone, Copy)]
pub struct View<'a> {
    pub bytes: &'a [u8],
    pub column: Column,
}

// What opening answers, and the view; where opening refuses, the view's column has no rows. (A struct, since the contract of `open` tells
// of the view beside a refusal, too.)
#[derive(Clone, Copy)]
pub struct Opening<'a> {
    pub answer: Result<(Column, Option<usize>), Refusal>,
    pub view: View<'a>,
}

// Opens a view, under an acceptance sheet that the caller names.
pub fn open<'a>(sheet: u32, bytes: &'a [u8]) -> Opening<'a>
    ensures { OpensAs sheet bytes.entry result }
{
    let answer = open_plain(sheet, bytes);
    let column = column_of(answer);
    Opening {
        answer,
        view: View { bytes, column },
    }
}

// The value of a row of the view's column.
pub fn row<'a>(view: View<'a>, row: u32) -> Result<u64, Refusal>
    ensures { RowAs view.entry row result }
{
    row_of(view.column, view.bytes, row)
}

// How many rows the view has: those of its column's window, which opening sets to the whole column.
pub fn rows<'a>(view: View<'a>) -> u32
    ensures { RowsAs view.entry result }
{
    view.column.window.rows
}
