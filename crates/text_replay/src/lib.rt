// A replay as text: one line, of a column and a recording within a program's limits. No argument makes the call fail, and its contract says what every lent
// entry holds afterwards.
#![tactic(auto)]

mod lines;
mod running;

ghost use Rattle.text_replay.specs.Report.{ReportedAs};

use text::lines::{named_line, refused_line};

// The most bytes of a recording that a program takes.
const RECORDING_MAX: usize = 262144;

// Opens the column, replays the recording over it, and writes what that reports at the start of the lent line; returns the line's length. A column that
// does not open decides before the recording.
pub fn report(bytes: &[u8], recording: &[u8], line: &mut [u8; 128]) -> usize
    ensures { ReportedAs bytes.now recording.now result line.old line.new }
{
    let opened = text_column::opening::open_plain(bytes);
    let Ok((column, _)) = opened else {
        return refused_line(b"column refused ", opened, line);
    };
    if RECORDING_MAX < recording.len() {
        return named_line(b"recording refused ", 16, line);
    }
    let replayed = running::replay(column, bytes, recording);
    lines::report_line(replayed, line)
}
