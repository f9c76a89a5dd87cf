// Where two columns differ.
ghost use Rattle.hulemartob.specs.Exports.{DifferencePromise};

use c_answers::differs::difference_told;
use c_numbers::{column_from, column_of};
use format::Block;

// The first row from a given one on whose answers differ, with both answers.
#[unsafe(no_mangle)]
pub extern "C" fn hulemartob_difference(
    left: &[u64; 12],
    ltable: &[Block],
    lbytes: &[u8],
    right: &[u64; 12],
    rtable: &[Block],
    rbytes: &[u8],
    from: u32,
    difference: &mut [u64; 7],
    refusal: &mut [u64; 2],
)
    ensures { DifferencePromise left.now ltable.now lbytes.now right.now rtable.now rbytes.now from refusal.new difference.old difference.new }
{
    let lmade = column_from(left);
    let lopened = column_of(lmade);
    let rmade = column_from(right);
    let ropened = column_of(rmade);
    let answer = table_asked::difference(lopened, ltable, lbytes, ropened, rtable, rbytes, from);
    difference_told(lmade, rmade, answer, difference, refusal);
}
