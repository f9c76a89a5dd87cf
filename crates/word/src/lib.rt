// Arithmetic on words: sums, differences and products modulo 2^64, as Rust's `wrapping_add` and its kin compute them, and
// what else of Rust's integers is not there as a function.
#![tactic(auto)]

pub mod divisor;

ghost use Rattle.std.specs.Prelude.{◌≡◌, ◌+◌, min, max, nat_le};
ghost use Rattle.format.specs.Word.{mod_add, mod_sub, mod_mul, signed32};

// a + b modulo 2^64.
pub fn add(a: u64, b: u64) -> u64
    ensures { result ≡ mod_add a b }
{
    std::num::wrapping_add_u64(a, b)
}

// a - b modulo 2^64.
pub fn sub(a: u64, b: u64) -> u64
    ensures { result ≡ mod_sub a b }
{
    std::num::wrapping_sub_u64(a, b)
}

// a * b modulo 2^64: the low halves' product, and the cross products 32 bits higher; the high halves' product lies above the
// word. No step needs more than 64 bits, and all compile to one multiplication.
pub fn mul(a: u64, b: u64) -> u64
    ensures { result ≡ mod_mul a b }
{
    let a0 = a % 0x1_0000_0000;
    let a1 = a >> 32;
    let b0 = b % 0x1_0000_0000;
    let b1 = b >> 32;
    let cross = std::num::wrapping_add_u64(a1 * b0, a0 * b1);
    std::num::wrapping_add_u64(a0 * b0, cross << 32)
}

// A 32-bit number read as signed, as a number modulo 2^64: Rust's `h as i32 as u64`. Moving it up by 2^31 within 32 bits
// and down again compiles to one sign extension.
pub fn sign_extend(h: u32) -> u64
    ensures { result ≡ signed32 h }
{
    sub((h as u64 + 0x8000_0000) % 0x1_0000_0000, 0x8000_0000)
}

// A byte as a word.
pub fn wide(x: u8) -> u64
    ensures { result ≡ x }
{
    x as u64
}

// The lesser of two numbers.
pub fn lesser(a: u64, b: u64) -> u64
    ensures { result ≡ min a b }
{
    if a < b { a } else { b }
}

// The larger of two numbers.
pub fn larger(a: u64, b: u64) -> u64
    ensures { result ≡ max a b }
{
    if a < b { b } else { a }
}

// Whether `size` bytes from `from` on end at `end` or before. The sum is not formed, so it cannot wrap.
pub fn ends_within(from: usize, size: usize, end: usize) -> bool
    ensures { result ≡ nat_le (from + size) end }
{
    if end < from {
        return false;
    }
    size <= end - from
}
