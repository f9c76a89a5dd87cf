// A difference is seven numbers: the row, and for each side the two numbers of its refusal and its value; the row is 2^64 - 1, and the others are 0, where nothing differs.
ghost use Rattle.std.specs.Prelude.{◌≡◌};
ghost use Rattle.compare_walk.specs.Differences.{difference_meaning};
ghost use Rattle.format.specs.Outcome.{Outcome.value};
ghost use Rattle.c_numbers.specs.Explaining.{Tells};
ghost use Rattle.c_numbers.specs.Numbers.{after};
ghost use Rattle.c_answers.specs.Differing.{answer_numbers, difference_numbers};
ghost use Rattle.format.specs.Refusals.{answered_by};

use c_numbers::{ACCEPTED, told};
use compare_walk::Difference;
use format::{Column, Refusal};

// A row's answer: the two numbers of its refusal, and its value.
fn answer_numbers(answer: Result<u64, Refusal>) -> [u64; 3]
    ensures { result ≡ answer_numbers (answered_by answer) }
{
    match answer {
        Ok(v) => [0, 0, v],
        Err(q) => {
            let two = told(q);
            [two[0], two[1], 0]
        }
    }
}

// A difference.
fn difference_numbers(answer: Option<Difference>) -> [u64; 7]
    ensures { result ≡ difference_numbers (difference_meaning answer) }
{
    match answer {
        None => [u64::MAX, 0, 0, 0, 0, 0, 0],
        Some(Difference { row, left, right }) => {
            let l = answer_numbers(left);
            let r = answer_numbers(right);
            [row as u64, l[0], l[1], l[2], r[0], r[1], r[2]]
        }
    }
}

// The difference of two columns that were made: the left one's refusal comes first.
pub fn difference_told(
    left: Result<Column, Refusal>,
    right: Result<Column, Refusal>,
    answer: Option<Difference>,
    difference: &mut [u64; 7],
    refusal: &mut [u64; 2],
)
    ensures { Tells (after (answered_by left) (after (answered_by right) (value (difference_numbers (difference_meaning answer))))) refusal.new difference.old difference.new }
{
    if let Err(q) = left.and(right) {
        *refusal = told(q);
        return;
    }
    *difference = difference_numbers(answer);
    *refusal = ACCEPTED;
}
