// A part is five numbers: which part (`byte_part::naming::which_part`), the number of its block, 0 where it is no block's, its offset, its length, and the
// number that it spells. Rows are two numbers: the first, and the one behind the last; both 0 where there are none.
ghost use Rattle.c_numbers.specs.Explaining.{rows_told, Tells};
ghost use Rattle.c_numbers.specs.Numbers.{after};
ghost use Rattle.format.specs.Refusals.{answered_by};

use crate::{ACCEPTED, told};
use format::{Column, Refusal};

// The rows of a byte of a column that was made.
#[tactic(auto, using(crate::proofs::Telling::rows_found))]
pub fn rows_told(
    made: Result<Column, Refusal>,
    answer: Result<Option<(u32, u32)>, Refusal>,
    rows: &mut [u64; 2],
    refusal: &mut [u64; 2],
)
    ensures { Tells (after (answered_by made) (rows_told (answered_by answer))) refusal.new rows.old rows.new }
{
    match made.and(answer) {
        Ok(owners) => {
            *rows = match owners {
                Some((first, last)) => [first as u64, last as u64 + 1],
                None => [0, 0],
            };
            *refusal = ACCEPTED;
        }
        Err(q) => {
            *refusal = told(q);
        }
    }
}
