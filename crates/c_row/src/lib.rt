// The short way to a row: straight from the twelve numbers of a column, where nothing is out of the ordinary. All that reading tests is tested; a test that fails
// finds nothing, and the caller goes the long way, which tells why. So each promise here is one-sided: what is found is right.
//
// What keeps it short when compiled: the codec is told apart first, a number is read between two tests, since two tests with none between them are made one branch of
// more instructions, eight bytes are one sum of eight terms, and a width of 64 bits is a call of its own.
#![tactic(auto)]

ghost use Rattle.std.specs.Prelude.{◌≡◌, true, ℕ, ◌+◌, ◌*◌, ◌/◌, ◌%◌, ◌^◌, ◌≤◌, ◌<◌, length, take, drop, get_or};
ghost use Rattle.format.specs.Outcome.{Outcome.value};
ghost use Rattle.format.specs.Packing.{bit_length, width, legal, bytes_num};
ghost use Rattle.c_row.specs.Short.{row_of, Shown, Bounded, Raised, Stands};

use format::{Block, Line};

// A number, if one was found.
#[derive(Clone, Copy)]
pub struct Direct {
    pub found: bool,
    pub value: u64,
}

const MISSED: Direct = Direct {
    found: false,
    value: 0,
};

// The column's row that a row of the window is.
fn place_of(numbers: &[u64; 12], row: u32) -> Direct
    ensures { result.found ≡ true → Shown numbers.now row result.value }
{
    let rows = numbers[4];
    if 0xffff_ffff < rows {
        return MISSED;
    }
    let shown = numbers[11];
    if rows < shown {
        return MISSED;
    }
    if shown <= row as u64 {
        return MISSED;
    }
    let first = numbers[10];
    if rows - shown < first {
        return MISSED;
    }
    Direct {
        found: true,
        value: first + row as u64,
    }
}

// The upper 64 bits of a product. Each number is cut into halves of 32 bits, so that each of the four products of two halves fits 64 bits, and they are added column
// by column with their carries; all compile to one multiplication.
fn upper_half(u: u64, v: u64) -> u64
    ensures { result ≡ u * v / 2 ^ 64 }
{
    let u0 = u & 0xffff_ffff;
    let u1 = u >> 32;
    let v0 = v & 0xffff_ffff;
    let v1 = v >> 32;
    let w0 = u0 * v0;
    let t = u1 * v0 + (w0 >> 32);
    let w1 = (t & 0xffff_ffff) + u0 * v1;
    u1 * v1 + (t >> 32) + (w1 >> 32)
}

// The maximum of a column whose gcd is above 0.
fn maximum_of(numbers: &[u64; 12]) -> Direct
    ensures { result.found ≡ true → Bounded numbers.now result.value }
{
    let gcd = numbers[2];
    if gcd == 0 {
        return MISSED;
    }
    let count = numbers[3];
    if upper_half(count, gcd) != 0 {
        return MISSED;
    }
    let minimum = numbers[1];
    let maximum = word::add(minimum, count * gcd);
    if maximum < minimum {
        return MISSED;
    }
    Direct {
        found: true,
        value: maximum,
    }
}

// The value so many steps of the gcd above the minimum.
fn raised(numbers: &[u64; 12], multiple: u64) -> Direct
    ensures { result.found ≡ true → Raised numbers.now multiple result.value }
{
    if numbers[3] < multiple {
        return MISSED;
    }
    if !maximum_of(numbers).found {
        return MISSED;
    }
    Direct {
        found: true,
        value: numbers[1] + numbers[2] * multiple,
    }
}

// Eight bytes from `at` on as a number, little end first.
fn eight(s: &[u8], at: usize) -> u64
    requires { at + 8 ≤ length s.now }
    ensures { result ≡ bytes_num (take 8 (drop at s.now)) }
{
    s[at] as u64
        + s[at + 1] as u64 * 0x100
        + s[at + 2] as u64 * 0x1_0000
        + s[at + 3] as u64 * 0x100_0000
        + s[at + 4] as u64 * 0x1_0000_0000
        + s[at + 5] as u64 * 0x100_0000_0000
        + s[at + 6] as u64 * 0x1_0000_0000_0000
        + s[at + 7] as u64 * 0x100_0000_0000_0000
}

// The `width` bits of a word from bit `shift` on.
fn field(word: u64, shift: u64, width: u64) -> u64
    requires { (shift < 64) × (0 < width) × (width ≤ 64) }
    ensures { result ≡ word / 2 ^ shift % 2 ^ width }
{
    (word >> shift) & (u64::MAX >> (64 - width))
}

// Number `row` of a run of numbers of `width` bits that starts with byte `from` of the column's area. The eight bytes from its first bit on must lie in the area: they
// have all of its bits.
fn number_at(numbers: &[u64; 12], bytes: &[u8], from: u64, width: u64, row: u64) -> Direct
    requires { (legal width ≡ true) × (0 < width) × (row < 2 ^ 32) }
    ensures { result.found ≡ true → Stands numbers.now bytes.now from width row result.value }
{
    let start = numbers[5];
    let all = bytes.len() as u64;
    if all < start {
        return MISSED;
    }
    let size = numbers[6];
    if all - start < size {
        return MISSED;
    }
    if size < from {
        return MISSED;
    }
    let bit = row * width;
    let at = bit / 8;
    if size - from < at + 8 {
        return MISSED;
    }
    let word = eight(bytes, (start + from + at) as usize);
    Direct {
        found: true,
        value: field(word, bit % 8, width),
    }
}

// The bit length of a number above 0.
fn bits_of(n: u64) -> u64
    requires { 0 < n }
    ensures { result ≡ bit_length n }
{
    (63 - u64::leading_zeros(n)) as u64 + 1
}

// The packed number of a row of a Bitpacked column, whose width comes from the count.
fn packed_at(numbers: &[u64; 12], bytes: &[u8], row: u64) -> Direct
    requires { row < 2 ^ 32 }
    ensures { result.found ≡ true → Stands numbers.now bytes.now 0 (width (get_or numbers.now 3 0)) row result.value }
{
    let count = numbers[3];
    if count == 0 {
        return MISSED;
    }
    let bits = bits_of(count);
    if 56 < bits {
        return number_at(numbers, bytes, 0, 64, row);
    }
    number_at(numbers, bytes, 0, bits, row)
}

// Internal: asks for the numbers of a Bitpacked column. A row of it.
fn bitpacked(numbers: &[u64; 12], bytes: &[u8], row: u32) -> Direct
    requires { get_or numbers.now 0 0 ≡ 0 }
    ensures { result.found ≡ true → (blocks : ℕ) (b : Block) → row_of numbers.now blocks b bytes.now row ≡ value result.value }
{
    let at = place_of(numbers, row);
    if !at.found {
        return MISSED;
    }
    let multiple = packed_at(numbers, bytes, at.value);
    if !multiple.found {
        return MISSED;
    }
    raised(numbers, multiple.value)
}

// Internal: asks for the numbers of a Linear column. A row of it.
fn linear(numbers: &[u64; 12], bytes: &[u8], row: u32) -> Direct
    requires { get_or numbers.now 0 0 ≡ 1 }
    ensures { result.found ≡ true → (blocks : ℕ) (b : Block) → row_of numbers.now blocks b bytes.now row ≡ value result.value }
{
    let at = place_of(numbers, row);
    if !at.found {
        return MISSED;
    }
    let bits = numbers[9];
    if bits == 0 {
        return MISSED;
    }
    if 56 < bits {
        return MISSED;
    }
    let packed = number_at(numbers, bytes, 0, bits, at.value);
    if !packed.found {
        return MISSED;
    }
    let line = Line {
        slope: numbers[7],
        intercept: numbers[8],
    };
    let value = word::add(line::eval(line, at.value), packed.value);
    let maximum = maximum_of(numbers);
    if !maximum.found {
        return MISSED;
    }
    if value < numbers[1] {
        return MISSED;
    }
    if maximum.value < value {
        return MISSED;
    }
    Direct { found: true, value }
}

// Internal: asks for the numbers of a Blockwise column. A row of it, with its block out of a table of so many.
fn blockwise(numbers: &[u64; 12], blocks: usize, block: Block, bytes: &[u8], row: u32) -> Direct
    requires { get_or numbers.now 0 0 ≡ 2 }
    ensures { result.found ≡ true → row_of numbers.now blocks block bytes.now row ≡ value result.value }
{
    if blocks as u64 <= word::add(numbers[10], row as u64) / 512 {
        return MISSED;
    }
    let at = place_of(numbers, row);
    if !at.found {
        return MISSED;
    }
    let bits = block.bits;
    if bits == 0 {
        return MISSED;
    }
    if 56 < bits {
        return MISSED;
    }
    let place = at.value % 512;
    let packed = number_at(numbers, bytes, block.start, bits, place);
    if !packed.found {
        return MISSED;
    }
    let line = block.line;
    raised(numbers, word::add(line::eval(line, place), packed.value))
}

// A row of the column of twelve numbers, with its block out of a table of so many.
pub fn row(numbers: &[u64; 12], blocks: usize, block: Block, bytes: &[u8], row: u32) -> Direct
    ensures { result.found ≡ true → row_of numbers.now blocks block bytes.now row ≡ value result.value }
{
    match numbers[0] {
        0 => bitpacked(numbers, bytes, row),
        1 => linear(numbers, bytes, row),
        2 => blockwise(numbers, blocks, block, bytes, row),
        _ => MISSED,
    }
}
