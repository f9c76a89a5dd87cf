// A search for the first difference under way: a turn looks at one chunk, which comes with its two blocks, whoever has the tables.
ghost use Rattle.std.specs.Prelude.{◌≡◌, ℕ, ◌+◌, ◌-◌, ◌/◌, ◌%◌, ◌^◌, ◌≤◌, ◌<◌, max};
ghost use Rattle.format.specs.Outcome.{Outcome};
ghost use Rattle.format.specs.Reading.{column_row};
ghost use Rattle.compare_walk.specs.Equal.{side_row, EqualFor};
ghost use Rattle.compare_walk.specs.Walking.{Same, to_go, onwards, UnderWay, OnHand, Seeking, Keeps};

use crate::Difference;
use crate::equal::{Looked, Side, look, row_of};
use format::{Block, Column, WindowRow};

// The rows before `at` have equal answers. While the search is going on there are rows left, up to the end; then its answer stands.
#[derive(Clone, Copy)]
pub struct Walk {
    pub at: u32,
    pub end: u32,
    pub going: bool,
    pub answer: Option<Difference>,
}

// The block of the row at hand, as the column counts the window's rows.
pub fn block_of(column: Column, w: Walk) -> usize
    ensures { result ≡ column_row column w.at % 2 ^ 32 / 512 }
{
    read_row::reader::block_of(column, WindowRow(w.at))
}

// Goes on with a row: where none is left before the end, nothing differs.
fn go_on(at: u32, end: u32) -> Walk
    ensures { result ≡ onwards at end }
{
    Walk {
        at,
        end,
        going: at < end,
        answer: None,
    }
}

// How a search begins: with the given row, up to the end of the longer window.
pub fn begin(left: Column, right: Column, from: u32) -> Walk
    ensures { result ≡ onwards from (max left.window.rows right.window.rows) }
{
    if left.window.rows < right.window.rows {
        return go_on(from, right.window.rows);
    }
    go_on(from, left.window.rows)
}

// Internal: asks for rows up to the end. Behind rows that were looked at: the first that differs ends the search with both answers; else it goes on behind them.
fn turned(left: Side, lbytes: &[u8], right: Side, rbytes: &[u8], w: Walk, looked: Looked) -> Walk
    requires { (0 < looked.size) × (w.at + looked.size ≤ w.end) × (looked.equal ≤ looked.size) }
    ensures by_index { (lread rread : ℕ → Outcome ℕ) (rows from : ℕ) → Same (side_row left lbytes.now) lread w.at looked.size → Same (side_row right rbytes.now) rread w.at looked.size → EqualFor lread rread w.at looked.size looked.equal → OnHand lread rread rows from w → Seeking lread rread rows from result }
    ensures result_bound { to_go result < w.end - w.at }
{
    if looked.equal < looked.size {
        let row = w.at + looked.equal as u32;
        let lanswer = row_of(left, lbytes, row);
        let ranswer = row_of(right, rbytes, row);
        return Walk {
            at: row,
            end: w.end,
            going: false,
            answer: Some(Difference {
                row,
                left: lanswer,
                right: ranswer,
            }),
        };
    }
    go_on(w.at + looked.size as u32, w.end)
}

// Internal: asks for a search that is going on over the rows of the longer window. One turn: the rows at hand, with each column's block out of a table of so many.
pub fn step(
    left: Column,
    lblocks: usize,
    lblock: Block,
    lbytes: &[u8],
    right: Column,
    rblocks: usize,
    rblock: Block,
    rbytes: &[u8],
    w: Walk,
) -> Walk
    requires { UnderWay (max left.window.rows right.window.rows) w }
    ensures keeps { Keeps left lblocks lblock lbytes.now right rblocks rblock rbytes.now w result }
    ensures result_bound { to_go result < to_go w }
{
    let l = Side {
        column: left,
        blocks: lblocks,
        block: lblock,
    };
    let r = Side {
        column: right,
        blocks: rblocks,
        block: rblock,
    };
    let looked = look(l, lbytes, r, rbytes, w.at);
    turned(l, lbytes, r, rbytes, w, looked)
}
