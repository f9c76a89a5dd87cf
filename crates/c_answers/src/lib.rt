// Answers told as plain numbers, as the calls for Rust and C hand them over: each function puts the numbers of an answer into lent arrays, those of
// the refusal always, the others where nothing is refused.
#![tactic(auto)]

pub mod checks;
pub mod differs;
pub mod replays;

ghost use Rattle.c_numbers.specs.Numbers.{after, Answers, Describes, Narrows, States};
ghost use Rattle.format.specs.Refusals.{answered_by};

use c_numbers::{ACCEPTED, column_numbers, longer, told};
use format::{Column, ColumnStats, Refusal};

// What was stated: minimum, maximum, gcd, rows.
pub fn stats_told(
    answer: Result<ColumnStats, Refusal>,
    stats: &mut [u64; 4],
    refusal: &mut [u64; 2],
)
    ensures { States (answered_by answer) refusal.new stats.old stats.new }
{
    match answer {
        Ok(s) => {
            *stats = [s.minimum, s.maximum, s.gcd, s.rows as u64];
            *refusal = ACCEPTED;
        }
        Err(q) => {
            *refusal = told(q);
        }
    }
}

// The length of what was written, 0 on refusal.
pub fn length_told(answer: Result<usize, Refusal>, refusal: &mut [u64; 2]) -> usize
    ensures { Answers (answered_by answer) result refusal.new }
{
    match answer {
        Ok(n) => {
            *refusal = ACCEPTED;
            n
        }
        Err(q) => {
            *refusal = told(q);
            0
        }
    }
}

// A column that was made: its numbers.
pub fn column_told(made: Result<Column, Refusal>, column: &mut [u64; 12], refusal: &mut [u64; 2])
    ensures { Narrows (answered_by made) refusal.new column.old column.new }
{
    match made {
        Ok(opened) => {
            *column = column_numbers(opened);
            *refusal = ACCEPTED;
        }
        Err(q) => {
            *refusal = told(q);
        }
    }
}

// What was opened: its numbers, and the offset of its longer spelling.
pub fn open_told(
    answer: Result<(Column, Option<usize>), Refusal>,
    column: &mut [u64; 12],
    refusal: &mut [u64; 2],
) -> u64
    ensures { Describes (answered_by answer) result refusal.new column.old column.new }
{
    match answer {
        Ok((opened, offset)) => {
            *column = column_numbers(opened);
            *refusal = ACCEPTED;
            longer(offset)
        }
        Err(q) => {
            *refusal = told(q);
            u64::MAX
        }
    }
}

// The value of a row of a column that was made, 0 on refusal.
pub fn row_told(
    made: Result<Column, Refusal>,
    answer: Result<u64, Refusal>,
    refusal: &mut [u64; 2],
) -> u64
    ensures { Answers (after (answered_by made) (answered_by answer)) result refusal.new }
{
    match made.and(answer) {
        Ok(v) => {
            *refusal = ACCEPTED;
            v
        }
        Err(q) => {
            *refusal = told(q);
            0
        }
    }
}

// How many entries were stored, rows that were found or values, 0 on refusal.
pub fn entries_told(
    made: Result<Column, Refusal>,
    answer: Result<usize, Refusal>,
    refusal: &mut [u64; 2],
) -> usize
    ensures { Answers (after (answered_by made) (answered_by answer)) result refusal.new }
{
    length_told(made.and(answer), refusal)
}
