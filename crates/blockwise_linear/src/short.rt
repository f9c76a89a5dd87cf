// The short way through a footer, for blocks whose numbers are spelled in as few bytes as they can be: writers spell them so. It answers in plain numbers and a
// bool, each stored and loaded as a whole, for an enum with a value is stored in pieces and loaded in one, which has to wait for both. What the short way does not
// find is read the long way, in `reader`; so nothing is said of an answer that is not there.
ghost use Rattle.std.specs.Prelude.{◌≡◌, true, ℕ, None};
ghost use Rattle.format.specs.Outcome.{Outcome.value};
ghost use Rattle.format.specs.Varint.{read_varint};
ghost use Rattle.format.specs.Packing.{legal};
ghost use Rattle.format.specs.Opening.{read_fields};
ghost use Rattle.blockwise_linear.specs.Reader.{step_in, Small, Good};
ghost use Rattle.vint.specs.Meaning.{spelled_by};
ghost use Rattle.blockwise_linear.specs.Short.{short_field, short_fields, short_step};

use crate::reader::{Cursor, Step};
use format::{Block, Line};

// A number and the offset behind it, where there is one.
#[derive(Clone, Copy)]
struct Number {
    there: bool,
    value: u64,
    next: usize,
}

// A block's line and width and the offset behind them, likewise.
#[derive(Clone, Copy)]
struct Entry {
    there: bool,
    slope: u64,
    intercept: u64,
    bits: u8,
    next: usize,
}

// A block and the place behind it, likewise.
#[derive(Clone, Copy)]
pub(crate) struct Passed {
    pub there: bool,
    pub slope: u64,
    pub intercept: u64,
    pub bits: u8,
    pub at: usize,
    pub start: usize,
    pub left: u32,
}

const NO_NUMBER: Number = Number {
    there: false,
    value: 0,
    next: 0,
};

const NO_ENTRY: Entry = Entry {
    there: false,
    slope: 0,
    intercept: 0,
    bits: 0,
    next: 0,
};

const NO_STEP: Passed = Passed {
    there: false,
    slope: 0,
    intercept: 0,
    bits: 0,
    at: 0,
    start: 0,
    left: 0,
};

// Whether a varint whose last byte comes behind so many others is told to be spelled in as few bytes as it can be; one that is told is.
fn shortest(others: usize, last: u64) -> bool
    ensures { result ≡ true → (at : ℕ) → spelled_by at others last ≡ None }
{
    if others == 0 {
        return true;
    }
    last != 128
}

// The varint at an offset, where it is spelled so.
fn number_at(s: &[u8], at: usize) -> Number
    ensures { result.there ≡ true → read_varint s.now at ≡ value (short_field at result) }
{
    let mut number: u64 = 0;
    let mut scale: u64 = 1;
    let mut pos = at;
    for used in 0..9 {
        if s.len() <= pos {
            return NO_NUMBER;
        }
        let b = word::wide(s[pos]);
        if 128 <= b {
            return Number {
                there: shortest(used, b),
                value: number + (b - 128) * scale,
                next: pos + 1,
            };
        }
        number += b * scale;
        scale *= 128;
        pos += 1;
    }
    if s.len() <= pos {
        return NO_NUMBER;
    }
    Number {
        there: s[pos] == 129,
        value: number + 0x8000_0000_0000_0000,
        next: pos + 1,
    }
}

// Whether a width is told to be one that rows are packed by; one that is told is.
fn lawful(bits: u8) -> bool
    ensures { result ≡ true → legal bits ≡ true }
{
    if bits <= 56 {
        return true;
    }
    bits == 64
}

// The line and the width byte at an offset.
fn entry_at(s: &[u8], at: usize) -> Entry
    ensures { result.there ≡ true → read_fields s.now at ≡ value (short_fields result) }
{
    let slope = number_at(s, at);
    if !slope.there {
        return NO_ENTRY;
    }
    let intercept = number_at(s, slope.next);
    if !intercept.there {
        return NO_ENTRY;
    }
    let place = intercept.next;
    if s.len() <= place {
        return NO_ENTRY;
    }
    let bits = s[place];
    if !lawful(bits) {
        return NO_ENTRY;
    }
    Entry {
        there: true,
        slope: slope.value,
        intercept: intercept.value,
        bits,
        next: place + 1,
    }
}

// Internal: asks that the area's bytes can be counted. The block at a place.
pub(crate) fn step(bytes: &[u8], c: Cursor) -> Passed
    requires { Small c }
    ensures { result.there ≡ true → step_in bytes.now c ≡ value (short_step c result) }
{
    let end = crate::reader::footer_end(bytes);
    let e = entry_at(&bytes[..end], c.at);
    if !e.there {
        return NO_STEP;
    }
    let rows = crate::reader::block_rows(c.left);
    Passed {
        there: true,
        slope: e.slope,
        intercept: e.intercept,
        bits: e.bits,
        at: e.next,
        start: c.start + bitpacker::packed_len(rows as usize, e.bits),
        left: c.left - rows,
    }
}

// Internal: asks for a block that was checked, and that the area's bytes can be counted. The block at a place, the short way or the long one.
pub fn next_block(bytes: &[u8], c: Cursor) -> Step
    requires small { Small c }
    requires good { Good (step_in bytes.now c) }
    ensures { step_in bytes.now c ≡ value result }
{
    let p = step(bytes, c);
    if !p.there {
        return crate::reader::next_block(bytes, c);
    }
    Step {
        block: Block {
            line: Line {
                slope: p.slope,
                intercept: p.intercept,
            },
            bits: p.bits as u64,
            start: c.start as u64,
        },
        next: Cursor {
            at: p.at,
            start: p.start,
            left: p.left,
        },
        longer: None,
    }
}
