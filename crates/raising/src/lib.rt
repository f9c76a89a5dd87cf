// Numbers of a chunk's rows made into values in place. A first loop goes over the whole chunk with no way out but its end and no comparison, so that the compiler works on two
// rows at once; the top bit of one word tells whether a row may be out of bounds. Only then does a second one look for the first such row.
#![tactic(auto)]

ghost use Rattle.std.specs.Prelude.{◌≡◌, true, ℕ, ◌+◌, ◌*◌, ◌^◌, ◌≤◌, ◌<◌};
ghost use Rattle.format.specs.declared.Line.{Line};
ghost use Rattle.format.specs.Line.{line_at};
ghost use Rattle.format.specs.Reading.{scaled};
ghost use Rattle.format.specs.Word.{mod_add, mod_sub, mod_mul};
ghost use Rattle.raising.specs.Raising.{Raised, Within, itself, above_line, reached, near, Fills};

use format::{Column, Line};

// The greatest number without the top bit.
const MOST: u64 = 0x7fff_ffff_ffff_ffff;

// Internal: asks for a limit below 2^63. A word whose top bit is clear only if x is not above the limit.
fn over(limit: u64, x: u64) -> u64
    requires { limit < 2 ^ 63 }
    ensures { result < 2 ^ 63 → x ≤ limit }
{
    x | word::sub(limit, x)
}

// Internal: asks for a limit below 2^63. Adds the minimum to each number; true only if none was above the limit.
fn lift(values: &mut [u64], minimum: u64, limit: u64) -> bool
    requires { limit < 2 ^ 63 }
    ensures { Raised itself minimum values.old values.new × (result ≡ true → Within itself limit values.old) }
{
    let mut seen: u64 = 0;
    for value in values.iter_mut() {
        let number = *value;
        seen |= over(limit, number);
        *value = word::add(minimum, number);
    }
    seen <= MOST
}

// How far the sum of a line and a number lies above some number, modulo 2^64. `base` is how far the line's intercept does, less 2^31, and `product` the line's at the place, plus 2^63: the sign extension
// of its upper half is then a shift.
fn height_at(base: u64, product: u64, number: u64) -> u64
    ensures { (l : Line) (x low : ℕ) → low < 2 ^ 64 → base ≡ mod_sub (mod_sub l.intercept (2 ^ 31)) low → product ≡ mod_add (mod_mul x l.slope) (2 ^ 63) → result ≡ mod_sub (mod_add (line_at l x) number) low }
{
    word::add(word::add(base, product >> 32), number)
}

// Internal: asks for a limit below 2^63. The sum of each number and a line, the first at place `from`, less `low` and plus the minimum; true only if none lay more than the limit above `low`. The line's product
// goes from place to place by a sum.
fn lift_by_line(
    values: &mut [u64],
    line: Line,
    from: u64,
    low: u64,
    minimum: u64,
    limit: u64,
) -> bool
    requires { limit < 2 ^ 63 }
    ensures { Raised (above_line line from low) minimum values.old values.new × (result ≡ true → Within (above_line line from low) limit values.old) }
{
    let slope = line.slope;
    let intercept = line.intercept;
    let base = word::sub(word::sub(intercept, 0x8000_0000), low);
    let mut product = word::add(word::mul(from, slope), 0x8000_0000_0000_0000);
    let mut seen: u64 = 0;
    for value in values.iter_mut() {
        let height = height_at(base, product, *value);
        seen |= over(limit, height);
        *value = word::add(minimum, height);
        product = word::add(product, slope);
    }
    seen <= MOST
}

// How many values there are before the first that lies more than a span above low.
fn first_beyond(values: &[u64], low: u64, span: u64) -> usize
    ensures { Fills (λ (i r v : ℕ). near low span r v) values.now result values.now }
{
    values
        .iter()
        .position(|value| span < word::sub(*value, low))
        .unwrap_or(values.len())
}

// Numbers to values that lie so much above the minimum, up to the first number above the limit: returns how many.
pub fn raise(values: &mut [u64], minimum: u64, limit: u64) -> usize
    ensures { Fills (λ (i r v : ℕ). reached minimum limit r v) values.old result values.new }
{
    if lift(values, minimum, word::lesser(limit, MOST)) {
        return values.len();
    }
    first_beyond(values, minimum, limit)
}

// The same with the height of the sum of a number and a line, the first at place `from`, above `low`.
pub fn raise_by_line(
    values: &mut [u64],
    line: Line,
    from: u64,
    low: u64,
    minimum: u64,
    limit: u64,
) -> usize
    ensures { Fills (λ (i r v : ℕ). reached minimum limit r (above_line line from low i v)) values.old result values.new }
{
    if lift_by_line(values, line, from, low, minimum, word::lesser(limit, MOST)) {
        return values.len();
    }
    first_beyond(values, minimum, limit)
}

// Internal: asks for a maximum of 64 bits. Multiples to the values of a column, up to the first above the count: returns how many. A product for each row is not worked out two at a time, so a way out costs nothing.
pub fn scale(values: &mut [u64], column: Column) -> usize
    requires { column.minimum + column.count * column.gcd < 2 ^ 64 }
    ensures { Fills (λ (i r v : ℕ). scaled column r v) values.old result values.new }
{
    let minimum = column.minimum;
    let gcd = column.gcd;
    let count = column.count;
    for (i, value) in values.iter_mut().enumerate() {
        let multiple = *value;
        if count < multiple {
            return i;
        }
        *value = minimum + gcd * multiple;
    }
    values.len()
}

// Internal: asks for the same. The sums of numbers and a line, the first at place `from`, as multiples.
pub fn scale_by_line(values: &mut [u64], line: Line, from: u64, column: Column) -> usize
    requires { column.minimum + column.count * column.gcd < 2 ^ 64 }
    ensures { Fills (λ (i r v : ℕ). scaled column r (mod_add (line_at line (from + i)) v)) values.old result values.new }
{
    let _ = lift_by_line(values, line, from, 0, 0, 0);
    scale(values, column)
}
