// Signed numbers, dates, bools and floats as stored numbers: one value of a lent list, a row's answer and a list read back, and the range of stored
// numbers that a lookup by values goes by.
#![tactic(auto)]

ghost use Rattle.std.specs.Prelude.{◌≡◌};
ghost use Rattle.format.specs.Typed.{stored_signed, stored_float, flag_range};
ghost use Rattle.monotonic_mapping.specs.Words.{word_of};
ghost use Rattle.monotonic_mapping.specs.Flips.{is_number, is_flag, is_float, flip, flipped, most_stored};
ghost use Rattle.monotonic_mapping.specs.Calls.{StoredOfAs, SignedOfAs, FlagOfAs, FloatOfAs, WordsOfAs, SignedReadAs, FlagReadAs, FloatReadAs, SignedRangeAs, FlagRangeAs, FloatRangeAs};

use format::{Kind, Range, Refusal};

// The sign bit.
const SIGN: u64 = 0x8000_0000_0000_0000;

// The stored number of a float, by its bits: the sign bit is inverted, and where it is set all bits are. The mask is worked out with no
// comparison, on which a pass over floats of both signs would branch.
fn stored_float(bits: u64) -> u64
    ensures { result ≡ stored_float bits }
{
    let all = word::sub(0, bits >> 63);
    bits ^ (all | SIGN)
}

// ---- one value of a list
//
// A pass over a list asks for the stored number of every value. For plain numbers that is one test, of the kind, which answers the same
// every time. For the other kinds each question about the kind chooses between two numbers, so that no branch is left in the loop.

// Whether values are numbers as they stand.
fn is_number(kind: Kind) -> bool
    ensures { result ≡ is_number kind }
{
    matches!(kind, Kind::U64)
}

// Whether they are bools.
fn is_flag(kind: Kind) -> bool
    ensures { result ≡ is_flag kind }
{
    matches!(kind, Kind::Bool)
}

// Whether they are floats.
fn is_float(kind: Kind) -> bool
    ensures { result ≡ is_float kind }
{
    matches!(kind, Kind::F64)
}

// What is inverted of a word that is no float: the sign bit, but nothing of a bool.
fn flip(kind: Kind) -> u64
    ensures { result ≡ flip kind }
{
    if is_flag(kind) { 0 } else { SIGN }
}

// A word with its bits inverted.
fn flipped(kind: Kind, x: u64) -> u64
    ensures { result ≡ flipped kind x }
{
    if is_float(kind) {
        stored_float(x)
    } else {
        x ^ flip(kind)
    }
}

// The greatest number that is stored.
fn most_stored(kind: Kind) -> u64
    ensures { result ≡ most_stored kind }
{
    if is_flag(kind) { 1 } else { u64::MAX }
}

// The stored number of a value of a kind, lent as a word.
pub fn stored_of(kind: Kind, x: u64) -> u64
    ensures { StoredOfAs kind x result }
{
    if is_number(kind) {
        return x;
    }
    let most = most_stored(kind);
    word::lesser(flipped(kind, x), most)
}

// ---- reading

// A stored number as a signed one, in two steps that stay in the range of signed numbers.
pub fn signed_of(stored: u64) -> i64
    ensures { SignedOfAs stored result }
{
    if stored >= SIGN {
        (stored - SIGN) as i64
    } else {
        (stored as i64) - 9223372036854775807 - 1
    }
}

// A stored number as a bool.
pub fn flag_of(stored: u64) -> bool
    ensures { FlagOfAs stored result }
{
    0 < stored
}

// The bits of the float that is stored as a number.
pub fn float_of(stored: u64) -> u64
    ensures { FloatOfAs stored result }
{
    if stored < SIGN {
        u64::MAX - stored
    } else {
        stored - SIGN
    }
}

// The word of the value that a stored number of a kind reads as: as the value is lent in a list.
fn word_of(kind: Kind, stored: u64) -> u64
    ensures { result ≡ word_of kind stored }
{
    match kind {
        Kind::U64 => stored,
        Kind::I64 => word::add(stored, SIGN),
        Kind::Date => word::add(stored, SIGN),
        Kind::Bool => word::lesser(stored, 1),
        Kind::F64 => float_of(stored),
    }
}

// A list of stored numbers to the words of their values, in place. The kind does not change in the loop, so the compiler makes a loop for each, and none for plain numbers.
pub fn words_as(kind: Kind, list: &mut [u64])
    ensures { WordsOfAs kind list.old list.new }
{
    for x in list.iter_mut() {
        *x = word_of(kind, *x);
    }
}

// A row's answer as a signed number, or as a date's nanoseconds. Refusals stay as they are.
pub fn signed(read: Result<u64, Refusal>) -> Result<i64, Refusal>
    ensures { SignedReadAs read result }
{
    Ok(signed_of(read?))
}

// As a bool.
pub fn flag(read: Result<u64, Refusal>) -> Result<bool, Refusal>
    ensures { FlagReadAs read result }
{
    Ok(flag_of(read?))
}

// As a float's bits.
pub fn float_bits(read: Result<u64, Refusal>) -> Result<u64, Refusal>
    ensures { FloatReadAs read result }
{
    Ok(float_of(read?))
}

// ---- looking up

// The stored number of a signed number. The arm for negative numbers goes up in two steps: 2^63 itself is no signed number.
fn stored_signed(v: i64) -> u64
    ensures { result ≡ stored_signed v }
{
    if v >= 0 {
        (v as u64) + SIGN
    } else {
        (v + 9223372036854775807 + 1) as u64
    }
}

// The range of the signed numbers, or dates, from low to high.
pub fn signed_range(low: i64, high: i64) -> Range
    ensures { SignedRangeAs low high result }
{
    Range {
        low: stored_signed(low),
        high: stored_signed(high),
    }
}

// Of the floats from low to high, by their bits, in the order of the stored numbers.
pub fn float_range(low: u64, high: u64) -> Range
    ensures { FloatRangeAs low high result }
{
    Range {
        low: stored_float(low),
        high: stored_float(high),
    }
}

// The first stored number that reads as a bool.
fn first_flag(b: bool) -> u64
    ensures { result ≡ (flag_range b b).low }
{
    if b { 1 } else { 0 }
}

// And the last.
fn last_flag(b: bool) -> u64
    ensures { result ≡ (flag_range b b).high }
{
    if b { u64::MAX } else { 0 }
}

// Of the bools from low to high: every stored number but 0 reads as true. From true to false is 1 to 0, which holds nothing.
pub fn flag_range(low: bool, high: bool) -> Range
    ensures { FlagRangeAs low high result }
{
    Range {
        low: first_flag(low),
        high: last_flag(high),
    }
}
