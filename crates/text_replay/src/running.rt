// A replay over a column that a program opened, by a pass over the blocks in its own footer: no table is needed.
ghost use Rattle.std.specs.Prelude.{◌≡◌};
ghost use Rattle.format.specs.Replaying.{replayed};
ghost use Rattle.text_column.specs.Own.{own_row, Opens};
ghost use Rattle.format.specs.Refusals.{answered_by};

use format::{Column, Refusal, Report, WindowRow};

// Internal: asks for a column that was opened of these bytes. Runs the recorded lookups one after another, up to the first whose rows are not the recorded ones. The pass goes
// on with each lookup, and back to the start for one that begins before it.
pub(crate) fn replay(column: Column, bytes: &[u8], recording: &[u8]) -> Result<Report, Refusal>
    requires { Opens bytes.now column }
    ensures { answered_by result ≡ replayed (own_row column bytes.now) column.window.rows recording.now }
{
    let blocks = text_column::own::block_count(column);
    let mut own = text_column::own::begin(bytes, column);
    let mut w = replay_walk::walking::begin(column.window.rows, recording);
    while w.going {
        own = text_column::own::reach(own, bytes, WindowRow(w.at));
        let block = own.pass.block;
        w = replay_walk::walking::step(column, blocks, block, bytes, recording, w);
    }
    w.answer
}
