// A verdict is three numbers: 0 where the column is passed, else the reason's number from 1 on, and the reason's own two.
ghost use Rattle.std.specs.Prelude.{◌≡◌};
ghost use Rattle.format.specs.Outcome.{Outcome.value};
ghost use Rattle.format.specs.Refusals.{checked_meaning, answered_by};
ghost use Rattle.c_answers.specs.Checking.{verdict_numbers};
ghost use Rattle.c_numbers.specs.Explaining.{Tells};
ghost use Rattle.c_numbers.specs.Numbers.{after};

use c_numbers::{ACCEPTED, told};
use format::{Kind, Mismatch, Refusal};

// The three numbers of a verdict.
fn verdict_numbers(checked: Result<(), Mismatch>) -> [u64; 3]
    ensures { result ≡ verdict_numbers (checked_meaning checked) }
{
    match checked {
        Ok(()) => [0, 0, 0],
        Err(Mismatch::Unopened(q)) => {
            let two = told(q);
            [1, two[0], two[1]]
        }
        Err(Mismatch::Counts { column, list }) => [2, column as u64, list as u64],
        Err(Mismatch::Unequal { row }) => [3, row as u64, 0],
        Err(Mismatch::Minimum) => [4, 0, 0],
        Err(Mismatch::Gcd) => [5, 0, 0],
        Err(Mismatch::Maximum) => [6, 0, 0],
    }
}

// The verdict on values of a kind that was known.
pub fn verdict_told(
    known: Result<Kind, Refusal>,
    checked: Result<(), Mismatch>,
    verdict: &mut [u64; 3],
    refusal: &mut [u64; 2],
)
    ensures { Tells (after (answered_by known) (value (verdict_numbers (checked_meaning checked)))) refusal.new verdict.old verdict.new }
{
    if let Err(q) = known {
        *refusal = told(q);
        return;
    }
    *verdict = verdict_numbers(checked);
    *refusal = ACCEPTED;
}
