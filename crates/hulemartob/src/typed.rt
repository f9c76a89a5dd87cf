// Columns of signed numbers, dates, bools and floats. A list of any kind is lent as 64-bit words, with the kind's number: 0 plain numbers, 1 signed numbers,
// 2 dates, 3 bools, 4 floats. What a row's value reads as is a call on that number, what a run's values read as one on the list of them, and a lookup by values is one in the range of stored numbers that
// a call makes of its bounds: so no call here takes a column.
ghost use Rattle.hulemartob.specs.Exports.{ColumnStatsAsPromise, SizesPromise, SerializeAsPromise, I64OfPromise, BoolOfPromise, F64BitsOfPromise, ValuesAsPromise, I64RangePromise, BoolRangePromise, F64RangePromise};

use c_answers::{length_told, stats_told};
use c_numbers::kinds::{kind_from, kind_of};
use c_tableless::sizes::sizes_told;

// ---- writing

// The statistics of the numbers that a list of values is stored as: minimum, maximum, gcd, rows.
#[unsafe(no_mangle)]
pub extern "C" fn hulemartob_column_stats_as(
    kind: u32,
    values: &[u64],
    stats: &mut [u64; 4],
    refusal: &mut [u64; 2],
)
    ensures { ColumnStatsAsPromise kind values.now refusal.new stats.old stats.new }
{
    let answer = c_tableless::stated(kind, values);
    stats_told(answer, stats, refusal);
}

// What the choice compares of each codec, for a list of values: Bitpacked, Linear, Blockwise; 2^64 - 1 where a codec does not apply.
#[unsafe(no_mangle)]
pub extern "C" fn hulemartob_sizes(
    kind: u32,
    values: &[u64],
    sizes: &mut [u64; 3],
    refusal: &mut [u64; 2],
)
    ensures { SizesPromise kind values.now refusal.new sizes.old sizes.new }
{
    let answer = c_tableless::sizes::sizes(kind, values);
    sizes_told(answer, sizes, refusal);
}

// Writes a list of values as a column by one of the listed codecs, and returns the column's length, 0 on refusal.
#[unsafe(no_mangle)]
pub extern "C" fn hulemartob_serialize_as(
    kind: u32,
    values: &[u64],
    codecs: &[u8],
    out: &mut [u8],
    refusal: &mut [u64; 2],
) -> usize
    ensures { SerializeAsPromise kind values.now codecs.now result refusal.new out.old out.new }
{
    let answer = c_tableless::written(kind, values, codecs, out);
    length_told(answer, refusal)
}

// ---- reading

// What a stored number reads as: a signed number, or a date's nanoseconds.
#[unsafe(no_mangle)]
pub extern "C" fn hulemartob_i64_of(stored: u64) -> i64
    ensures { I64OfPromise stored result }
{
    monotonic_mapping::signed_of(stored)
}

// A bool.
#[unsafe(no_mangle)]
pub extern "C" fn hulemartob_bool_of(stored: u64) -> bool
    ensures { BoolOfPromise stored result }
{
    monotonic_mapping::flag_of(stored)
}

// The bits of a float.
#[unsafe(no_mangle)]
pub extern "C" fn hulemartob_f64_bits_of(stored: u64) -> u64
    ensures { F64BitsOfPromise stored result }
{
    monotonic_mapping::float_of(stored)
}

// The values of a kind that a list of stored numbers reads as, in their place, lent as words; where the number is no kind, the list stays as it was.
#[unsafe(no_mangle)]
pub extern "C" fn hulemartob_values_as(kind: u32, list: &mut [u64])
    ensures { ValuesAsPromise kind list.old list.new }
{
    let known = kind_from(kind);
    let read_as = kind_of(known);
    monotonic_mapping::words_as(read_as, list);
}

// ---- looking up

// The first and the last stored number of the signed numbers, or dates, from low to high.
#[unsafe(no_mangle)]
pub extern "C" fn hulemartob_i64_range(low: i64, high: i64, range: &mut [u64; 2])
    ensures { I64RangePromise low high range.new }
{
    let stored = monotonic_mapping::signed_range(low, high);
    *range = [stored.low, stored.high];
}

// Of the bools.
#[unsafe(no_mangle)]
pub extern "C" fn hulemartob_bool_range(low: bool, high: bool, range: &mut [u64; 2])
    ensures { BoolRangePromise low high range.new }
{
    let stored = monotonic_mapping::flag_range(low, high);
    *range = [stored.low, stored.high];
}

// Of the floats, by their bits.
#[unsafe(no_mangle)]
pub extern "C" fn hulemartob_f64_range(low: u64, high: u64, range: &mut [u64; 2])
    ensures { F64RangePromise low high range.new }
{
    let stored = monotonic_mapping::float_range(low, high);
    *range = [stored.low, stored.high];
}
