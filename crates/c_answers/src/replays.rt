// A report is two numbers: the index of the first record that differs, 2^64 - 1 where all agree, and how many were run.
ghost use Rattle.c_numbers.specs.Numbers.{after};
ghost use Rattle.c_answers.specs.Replaying.{Reports};
ghost use Rattle.format.specs.Refusals.{answered_by};

use c_numbers::{ACCEPTED, told};
use format::{Column, Refusal, Report};

// The report of a replay over a column that was made.
pub fn report_told(
    made: Result<Column, Refusal>,
    answer: Result<Report, Refusal>,
    report: &mut [u64; 2],
    refusal: &mut [u64; 2],
)
    ensures { Reports (after (answered_by made) (answered_by answer)) refusal.new report.old report.new }
{
    match made.and(answer) {
        Ok(Report { differing, run }) => {
            let index = differing.map_or(u64::MAX, |index| index as u64);
            *report = [index, run as u64];
            *refusal = ACCEPTED;
        }
        Err(q) => {
            *refusal = told(q);
        }
    }
}
