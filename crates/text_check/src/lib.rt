// A check as text: one line, of a sheet, a column and a file of values within a program's limits. No argument makes the call fail, and its contract says what
// every lent entry holds afterwards.
#![tactic(auto)]

mod given;
mod lines;
mod verdicts;

ghost use Rattle.text_check.specs.Verdicts.{JudgesAs};

use text::lines::named_line;

// Puts the values of a file into the lent list, checks the column against them under the sheet that a text names, and writes the verdict at the start of the
// lent line; returns the line's length. A file that holds no values decides before the column.
pub fn judge(
    sheet: &[u8],
    bytes: &[u8],
    file: &[u8],
    values: &mut [u64; 65536],
    line: &mut [u8; 128],
) -> usize
    ensures { JudgesAs sheet.now bytes.now file.now result values.old values.new line.old line.new }
{
    match given::take(file, values) {
        Ok(n) => {
            let checked = verdicts::check_front(given::sheet_of(sheet), bytes, values, n);
            lines::verdict_line(checked, line)
        }
        Err(refusal) => named_line(b"values refused ", refusal.number() as u64, line),
    }
}
