// How many bytes a part has, and the number that they spell.
ghost use Rattle.std.specs.Prelude.{◌≡◌, ◌-◌, min, get_or};
ghost use Rattle.format.specs.Parts.{behind_end, part_here};
ghost use Rattle.byte_part.specs.Walk.{Measures, Spells};

use format::{Codec, Column, Part, PartName, Shape};

// A part's bytes and number.
#[derive(Clone, Copy)]
pub struct Measured {
    pub bytes: usize,
    pub value: u64,
}

// a - b, or 0 where b is greater.
fn less(a: usize, b: usize) -> usize
    ensures { result ≡ a - b }
{
    if a < b { 0 } else { a - b }
}

// The lesser of two sizes.
fn lesser(a: usize, b: usize) -> usize
    ensures { result ≡ min a b }
{
    if a < b { a } else { b }
}

// The byte at an offset, 0 past the last.
fn byte_at(bytes: &[u8], at: usize) -> u64
    ensures { result ≡ get_or bytes.now at 0 }
{
    if at < bytes.len() {
        word::wide(bytes[at])
    } else {
        0
    }
}

// A varint; none where it can not be read.
fn spelling(bytes: &[u8], at: usize) -> Measured
    ensures { Spells bytes.now at result }
{
    match vint::read(bytes, at) {
        Ok(field) => Measured {
            bytes: field.used,
            value: field.value,
        },
        Err(_) => Measured { bytes: 0, value: 0 },
    }
}

// Where the bytes behind the area end.
fn behind_end(codec: Codec, bytes: &[u8]) -> usize
    ensures { result ≡ behind_end codec bytes.now }
{
    match codec {
        Codec::Bitpacked => bytes.len(),
        Codec::Linear(_, _) => bytes.len(),
        Codec::Blockwise => {
            let end = blockwise_linear::reader::footer_end(bytes);
            less(end, blockwise_linear::reader::footer_len(bytes))
        }
    }
}

// A part's bytes and number, by its shape and where it begins.
fn measure(column: Column, bytes: &[u8], shape: Shape, at: usize) -> Measured
    ensures { Measures bytes.now column shape at result }
{
    match shape {
        Shape::Varint => spelling(bytes, at),
        Shape::Byte => Measured {
            bytes: 1,
            value: byte_at(bytes, at),
        },
        Shape::Four => Measured {
            bytes: 4,
            value: blockwise_linear::reader::footer_len(bytes) as u64,
        },
        Shape::Area => Measured {
            bytes: column.size,
            value: 0,
        },
        Shape::Behind => {
            let codec = column.codec;
            Measured {
                bytes: less(behind_end(codec, bytes), at),
                value: 0,
            }
        }
        Shape::Spare => Measured {
            bytes: less(blockwise_linear::reader::footer_end(bytes), at),
            value: 0,
        },
    }
}

// The part of a name that begins at an offset.
pub(crate) fn part_here(column: Column, bytes: &[u8], name: PartName, at: usize) -> Part
    ensures { result ≡ part_here bytes.now column name at }
{
    let measured = measure(column, bytes, crate::naming::shape_of(name), at);
    Part {
        name,
        first: at,
        bytes: lesser(measured.bytes, less(bytes.len(), at)),
        value: measured.value,
    }
}
