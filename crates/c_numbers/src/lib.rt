// Columns and refusals as plain numbers, as the calls for Rust and C hand them over and take them. A refusal is two numbers, both 0 where nothing
// is refused; an opened column is twelve; a longer spelling is its offset, 2^64 - 1 where there is none.
#![tactic(auto)]

pub mod kinds;
pub mod parts;

ghost use Rattle.std.specs.Prelude.{◌≡◌, [], ◌∷◌, ◌^◌, ◌<◌, get_or};
ghost use Rattle.format.specs.Listing.{code_of};
ghost use Rattle.format.specs.Refusals.{paper, answered_by};
ghost use Rattle.c_numbers.specs.Numbers.{column_of, offset_of, own_numbers, column_numbers, column_with, counts_fit, column_from};

use format::{Codec, Column, Line, Refusal, Window};

// The two numbers where nothing is refused.
pub const ACCEPTED: [u64; 2] = [0, 0];

// The two numbers of a refusal.
pub fn told(refusal: Refusal) -> [u64; 2]
    ensures { result ≡ (paper refusal).0 ∷ get_or (paper refusal).1 0 0 ∷ [] }
{
    [word::wide(refusal.number()), refusal.also()]
}

// The offset of the first longer spelling.
pub fn longer(longer: Option<usize>) -> u64
    ensures { result ≡ offset_of longer }
{
    longer.map_or(u64::MAX, |offset| offset as u64)
}

// A codec's number and its own three.
fn codec_numbers(codec: Codec) -> [u64; 4]
    ensures { result ≡ code_of codec ∷ own_numbers codec }
{
    match codec {
        Codec::Bitpacked => [0, 0, 0, 0],
        Codec::Linear(line, bits) => [1, line.slope, line.intercept, word::wide(bits)],
        Codec::Blockwise => [2, 0, 0, 0],
    }
}

// The twelve numbers of a column.
pub fn column_numbers(column: Column) -> [u64; 12]
    ensures { result ≡ column_numbers column }
{
    let codec = column.codec;
    let own = codec_numbers(codec);
    [
        own[0],
        column.minimum,
        column.gcd,
        column.count,
        column.rows as u64,
        column.start as u64,
        column.size as u64,
        own[1],
        own[2],
        own[3],
        column.window.first as u64,
        column.window.rows as u64,
    ]
}

// Internal: asks for counts of rows below 2^32. The column of twelve numbers, with its codec.
fn column_with(numbers: &[u64; 12], codec: Codec) -> Column
    requires { (get_or numbers.now 4 0 < 2 ^ 32) × (get_or numbers.now 10 0 < 2 ^ 32) × (get_or numbers.now 11 0 < 2 ^ 32) }
    ensures { result ≡ column_with numbers.now codec }
{
    Column {
        minimum: numbers[1],
        gcd: numbers[2],
        count: numbers[3],
        rows: numbers[4] as u32,
        start: numbers[5] as usize,
        size: numbers[6] as usize,
        window: Window {
            first: numbers[10] as u32,
            rows: numbers[11] as u32,
        },
        codec,
    }
}

// Whether the three counts of rows in a column's numbers, its own and its window's two, are below 2^32.
fn counts_fit(numbers: &[u64; 12]) -> bool
    ensures { result ≡ counts_fit numbers.now }
{
    if 0xffff_ffff < numbers[4] {
        return false;
    }
    if 0xffff_ffff < numbers[10] {
        return false;
    }
    if 0xffff_ffff < numbers[11] {
        return false;
    }
    true
}

// The column of twelve numbers, if they are one.
pub fn column_from(numbers: &[u64; 12]) -> Result<Column, Refusal>
    ensures { answered_by result ≡ column_from numbers.now }
{
    if !counts_fit(numbers) {
        return Err(Refusal::Unfit);
    }
    match numbers[0] {
        0 => Ok(column_with(numbers, Codec::Bitpacked)),
        1 => {
            let bits = numbers[9];
            if 255 < bits {
                return Err(Refusal::Unfit);
            }
            let line = Line {
                slope: numbers[7],
                intercept: numbers[8],
            };
            Ok(column_with(numbers, Codec::Linear(line, bits as u8)))
        }
        2 => Ok(column_with(numbers, Codec::Blockwise)),
        _ => Err(Refusal::Unfit),
    }
}

// That column; one of no rows where the numbers are none.
pub fn column_of(made: Result<Column, Refusal>) -> Column
    ensures { result ≡ column_of made }
{
    made.unwrap_or(Column {
        minimum: 0,
        gcd: 0,
        count: 0,
        rows: 0,
        start: 0,
        size: 0,
        window: Window { first: 0, rows: 0 },
        codec: Codec::Bitpacked,
    })
}
