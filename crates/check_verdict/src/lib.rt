// The verdict on a column that was opened, beside the list of values that it is to hold: it is passed, or the first reason why not.
#![tactic(auto)]

mod head;
mod rows;

ghost use Rattle.std.specs.Prelude.{ℕ, ◌≡◌};
ghost use Rattle.format.specs.Checking.{checked};
ghost use Rattle.format.specs.Opening.{column_in};
ghost use Rattle.format.specs.Refusals.{checked_meaning, answered_by};
ghost use Rattle.format.specs.Sheets.{opened_under};
ghost use Rattle.format.specs.Typed.{stored_as};
ghost use Rattle.check_verdict.specs.Asked.{FromOpening};

use format::{Column, Kind, Mismatch, Refusal};
use rows::Walk;

// Internal: asks for what opening these bytes answers, under some sheet and with some room. The verdict on the column: its rows are decoded in chunks, up to the first that is
// not its value, each with the block out of the column's own footer, so that no table is needed.
pub fn verdict_on(
    kind: Kind,
    opened: Result<(Column, Option<usize>), Refusal>,
    bytes: &[u8],
    values: &[u64],
) -> Result<(), Mismatch>
    requires { FromOpening bytes.now opened }
    ensures { (sheet room : ℕ) → answered_by opened ≡ column_in (opened_under sheet bytes.now room) → checked_meaning result ≡ checked (opened_under sheet bytes.now room) bytes.now (stored_as kind values.now) }
{
    let column = match opened {
        Ok((column, _)) => column,
        Err(refusal) => return Err(Mismatch::Unopened(refusal)),
    };
    if column.rows as usize != values.len() {
        return Err(Mismatch::Counts {
            column: column.rows,
            list: values.len(),
        });
    }
    let rows = open_column::opening::table_rows(opened);
    let blocks = format::block_count(rows);
    let mut decoded = [0u64; 512];
    let mut pass = blockwise_linear::passing::begin(bytes, rows);
    let mut w = Walk { at: 0, going: true };
    while w.going {
        pass = blockwise_linear::passing::pass_to(bytes, rows, pass, (w.at / 512) as usize);
        let block = pass.block;
        let stretch = read_chunk::taking::take(column, blocks, block, bytes, w.at, &mut decoded);
        w = rows::step(kind, values, &decoded, stretch, w);
    }
    head::answer(kind, column, values, w)
}
