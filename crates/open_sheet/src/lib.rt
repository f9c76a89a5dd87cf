// What acceptance sheet 2 asks of a column that was opened: the first byte that offends it, by its spelling, by belonging to no part, or
// by bits behind the last row's.
#![tactic(auto)]

ghost use Rattle.std.specs.Prelude.{◌≡◌, ◌*◌, ◌%◌, ◌<◌, length};
ghost use Rattle.format.specs.Sheets.{lower, unclaimed, overfull, offending};
ghost use Rattle.open_sheet.specs.Faults.{ending_of, held_as, strict_as, under_as, Within, AllWithin};
ghost use Rattle.format.specs.Refusals.{answered_by};

use format::{Codec, Column, Refusal};

// The lower of two.
fn lower(a: Option<usize>, b: Option<usize>) -> Option<usize>
    ensures { result ≡ lower a b }
{
    let Some(x) = a else { return b };
    let Some(y) = b else { return a };
    if y < x { b } else { a }
}

// The first of the bytes from one offset up to another, if there are any.
fn unclaimed(from: usize, to: usize) -> Option<usize>
    ensures { result ≡ unclaimed from to }
{
    if from < to { Some(from) } else { None }
}

// Internal: asks for a byte. An area's last byte, if bits of it above the `bits` lowest are not 0.
fn overfull(bytes: &[u8], last: usize, bits: u64) -> Option<usize>
    requires { (last < length bytes.now) × (bits < 8) }
    ensures { result ≡ overfull bytes.now last bits }
{
    if bits == 0 {
        return None;
    }
    let filling = word::wide(bytes[last]) >> bits;
    if filling == 0 {
        return None;
    }
    Some(last)
}

// How many bits of the last byte are rows' where not all are. 512 rows fill whole bytes, so that in Blockwise, too, all rows may be taken
// at the width of the last.
fn last_bits(bits: u8, rows: u32) -> u64
    ensures { result ≡ bits * rows % 8 }
{
    word::wide(bits) * (rows as u64) % 8
}

// Internal: asks for an area within the bytes. The first offending byte, where the last rows have `bits` bits, the bytes behind
// the area have to be a part again from `resumes` on, and `later` offends behind that.
fn offending(
    column: Column,
    longer: Option<usize>,
    bytes: &[u8],
    bits: u8,
    resumes: usize,
    later: Option<usize>,
) -> Option<usize>
    requires { Within column bytes.now }
    ensures { result ≡ offending bytes.now column longer (ending_of bits resumes later) }
{
    let end = column.start + column.size;
    let filled = overfull(bytes, end - 1, last_bits(bits, column.rows));
    let gap = unclaimed(end, resumes);
    lower(longer, lower(filled, lower(gap, later)))
}

// The column, unless a byte offends.
fn held(
    column: Column,
    longer: Option<usize>,
    fault: Option<usize>,
) -> Result<(Column, Option<usize>), Refusal>
    ensures { answered_by result ≡ held_as fault column longer }
{
    match fault {
        None => Ok((column, longer)),
        Some(offset) => Err(Refusal::Offending { offset }),
    }
}

// Internal: asks for an area within the bytes. The column, unless a byte offends, with the same of its end.
fn judged(
    column: Column,
    longer: Option<usize>,
    bytes: &[u8],
    bits: u8,
    resumes: usize,
    later: Option<usize>,
) -> Result<(Column, Option<usize>), Refusal>
    requires { Within column bytes.now }
    ensures { answered_by result ≡ held_as (offending bytes.now column longer (ending_of bits resumes later)) column longer }
{
    let fault = offending(column, longer, bytes, bits, resumes, later);
    held(column, longer, fault)
}

// Internal: asks for an area within the bytes. The column, unless a byte of it offends sheet 2.
pub fn strict(
    column: Column,
    longer: Option<usize>,
    bytes: &[u8],
) -> Result<(Column, Option<usize>), Refusal>
    requires { Within column bytes.now }
    ensures { answered_by result ≡ strict_as bytes.now column longer }
{
    match column.codec {
        Codec::Bitpacked => {
            let bits = bitpacker::compute_num_bits(column.count);
            judged(column, longer, bytes, bits, bytes.len(), None)
        }
        Codec::Linear(_, bits) => judged(column, longer, bytes, bits, bytes.len(), None),
        Codec::Blockwise => {
            let last = blockwise_linear::reader::footer_last(bytes, column.rows)?;
            let later = unclaimed(last.at, last.end);
            judged(column, longer, bytes, last.bits, last.start, later)
        }
    }
}

// Internal: asks that a column in the answer has its area within the bytes. What an opening answered, under the sheet that the caller names: sheet 1 takes it as it is, sheet 2 asks what it asks
// besides, and there is no other.
#[tactic(auto, using(crate::proofs::SheetNumbers::under_none, crate::proofs::SheetNumbers::under_unknown))]
pub fn under(
    sheet: u32,
    answer: Result<(Column, Option<usize>), Refusal>,
    bytes: &[u8],
) -> Result<(Column, Option<usize>), Refusal>
    requires { AllWithin (answered_by answer) bytes.now }
    ensures { answered_by result ≡ under_as sheet bytes.now (answered_by answer) }
{
    if sheet == 0 {
        return Err(Refusal::UnknownSheet);
    }
    if 2 < sheet {
        return Err(Refusal::UnknownSheet);
    }
    if sheet == 1 {
        return answer;
    }
    let Ok((column, longer)) = answer else {
        return answer;
    };
    strict(column, longer, bytes)
}
