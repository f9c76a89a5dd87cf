// Recorded lookups, replayed.
ghost use Rattle.hulemartob.specs.Exports.{ReplayPromise};

use c_answers::replays::report_told;
use c_numbers::{column_from, column_of};
use format::Block;

// Replays a recording over a column.
#[unsafe(no_mangle)]
pub extern "C" fn hulemartob_replay(
    column: &[u64; 12],
    table: &[Block],
    bytes: &[u8],
    recording: &[u8],
    report: &mut [u64; 2],
    refusal: &mut [u64; 2],
)
    ensures { ReplayPromise column.now table.now bytes.now recording.now refusal.new report.old report.new }
{
    let made = column_from(column);
    let opened = column_of(made);
    let answer = table_asked::replay(opened, table, bytes, recording);
    report_told(made, answer, report, refusal);
}
