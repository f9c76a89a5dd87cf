// A part's line.
ghost use Rattle.std.specs.Prelude.{◌≡◌, ◌+◌, ◌≤◌, length};
ghost use Rattle.format.specs.Outcome.{Wrote};
ghost use Rattle.text_explain.specs.Explained.{part_max, area_said, said_in, said_text, place_text, part_line, part_text};

use crate::words::put_name;
use byte_part::naming::shape_of;
use format::{Codec, Column, Part, Shape};
use text::put::{put_byte, put_decimal, put_named};

// What a line says behind a part's name: the number that its bytes spell, the bits that a row has in the area, or nothing.
#[derive(Clone, Copy)]
pub enum Said {
    Number(u64),
    Bits(u8),
    Nothing,
}

// The bits a row of the area. Those of a Blockwise column's blocks are parts of their own, in the footer.
fn area_bits(codec: Codec, count: u64) -> Said
    ensures { result ≡ area_said codec count }
{
    match codec {
        Codec::Bitpacked => Said::Bits(bitpacker::compute_num_bits(count)),
        Codec::Linear(_, bits) => Said::Bits(bits),
        Codec::Blockwise => Said::Nothing,
    }
}

// By how a part is spelled, from its number and what is said of the area.
fn said_of(shape: Shape, value: u64, area: Said) -> Said
    ensures { result ≡ said_in shape value area }
{
    match shape {
        Shape::Varint | Shape::Byte | Shape::Four => Said::Number(value),
        Shape::Area => area,
        Shape::Behind | Shape::Spare => Said::Nothing,
    }
}

// Internal: asks for room of twenty-one bytes, and nothing takes more. Writes what is said behind a part's name, and returns the offset behind it.
fn put_said(out: &mut [u8], at: usize, said: Said) -> usize
    requires { at + 21 ≤ length out.old }
    ensures wrote { Wrote out.old at (said_text said) out.new result }
    ensures upper_bound { result ≤ at + 21 }
{
    match said {
        Said::Number(n) => put_named(out, at, b" ", n),
        Said::Bits(n) => put_named(out, at, b" bits ", n as u64),
        Said::Nothing => at,
    }
}

// Internal: asks for room of forty-two bytes, and no place takes more. Writes a part's offset and length, and returns the offset behind them.
fn put_place(out: &mut [u8], at: usize, first: usize, bytes: usize) -> usize
    requires { at + 42 ≤ length out.old }
    ensures wrote { Wrote out.old at (place_text first bytes) out.new result }
    ensures upper_bound { result ≤ at + 42 }
{
    let number = put_decimal(out, at, first as u64);
    let long = put_named(out, number, b" ", bytes as u64);
    put_byte(out, long, b' ')
}

// Internal: asks for room for a longest line. Writes a part's line, and returns the offset behind it.
fn put_line(out: &mut [u8], at: usize, column: Column, part: Part) -> usize
    requires { at + part_max ≤ length out.old }
    ensures wrote { Wrote out.old at (part_line column part) out.new result }
    ensures upper_bound { result ≤ at + part_max }
{
    let codec = column.codec;
    let name = part.name;
    let said = said_of(shape_of(name), part.value, area_bits(codec, column.count));
    let place = put_place(out, at, part.first, part.bytes);
    let words = put_name(out, place, name);
    let behind = put_said(out, words, said);
    put_byte(out, behind, b'\n')
}

// Internal: asks for room for a longest line. Writes a part's line, or nothing where it has no bytes, and returns the offset behind it.
pub(crate) fn put_part(out: &mut [u8], at: usize, column: Column, part: Part) -> usize
    requires { at + part_max ≤ length out.old }
    ensures wrote { Wrote out.old at (part_text column part) out.new result }
    ensures upper_bound { result ≤ at + part_max }
{
    if part.bytes == 0 {
        return at;
    }
    put_line(out, at, column, part)
}
