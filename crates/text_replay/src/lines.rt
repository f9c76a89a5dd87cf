// The lines of a replay.
ghost use Rattle.io.specs.Counts.{IsPrefixLen};
ghost use Rattle.format.specs.Outcome.{Wrote};
ghost use Rattle.text_replay.specs.Report.{report_line};
ghost use Rattle.format.specs.Refusals.{answered_by};

use format::{Refusal, Report};
use text::lines::{named_line, pair_line};

// Writes what a replay reports at the start of a line, and returns its length.
pub(crate) fn report_line(replayed: Result<Report, Refusal>, line: &mut [u8; 128]) -> usize
    ensures wrote { Wrote line.old 0 (report_line (answered_by replayed)) line.new result }
    ensures prefix_len { IsPrefixLen result line.new }
{
    match replayed {
        Ok(
            Report {
                differing: None,
                run,
            },
        ) => named_line(b"agree ", run as u64, line),
        Ok(
            Report {
                differing: Some(index),
                run,
            },
        ) => { pair_line(b"differ ", index as u64, b" run ", run as u64, line) }
        Err(refusal) => { named_line(b"recording refused ", refusal.number() as u64, line) }
    }
}
