// The lines of a check.
ghost use Rattle.std.specs.Prelude.{◌≤◌, length};
ghost use Rattle.io.specs.Counts.{IsPrefixLen};
ghost use Rattle.format.specs.Outcome.{Wrote};
ghost use Rattle.format.specs.Refusals.{checked_meaning};
ghost use Rattle.text_check.specs.Verdicts.{verdict_line};

use format::Mismatch;
use text::lines::{named_line, pair_line};
use text::put::put_text;

// Internal: asks for a text that has room. Writes it at the start of a line, and returns its length.
fn text_line(text: &[u8], line: &mut [u8; 128]) -> usize
    requires { length text.now ≤ 128 }
    ensures wrote { Wrote line.old 0 text.now line.new result }
    ensures prefix_len { IsPrefixLen result line.new }
{
    put_text(line, 0, text)
}

// Writes a verdict at the start of a line, and returns its length.
pub(crate) fn verdict_line(checked: Result<(), Mismatch>, line: &mut [u8; 128]) -> usize
    ensures wrote { Wrote line.old 0 (verdict_line (checked_meaning checked)) line.new result }
    ensures prefix_len { IsPrefixLen result line.new }
{
    match checked {
        Ok(()) => text_line(b"yes\n", line),
        Err(Mismatch::Unopened(refusal)) => {
            named_line(b"no column refused ", refusal.number() as u64, line)
        }
        Err(Mismatch::Counts { column, list }) => {
            pair_line(b"no rows ", column as u64, b" values ", list as u64, line)
        }
        Err(Mismatch::Unequal { row }) => named_line(b"no row ", row as u64, line),
        Err(Mismatch::Minimum) => text_line(b"no minimum\n", line),
        Err(Mismatch::Gcd) => text_line(b"no gcd\n", line),
        Err(Mismatch::Maximum) => text_line(b"no maximum\n", line),
    }
}
