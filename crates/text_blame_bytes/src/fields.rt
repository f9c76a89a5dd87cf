// Bytes that differ, and the first of them that is a field's.
ghost use Rattle.std.specs.Prelude.{◌≡◌, eqb, length, get_or};
ghost use Rattle.byte_part.specs.Bytes.{part_of};
ghost use Rattle.text_blame_bytes.specs.Fields.{is_field, field_or, first_field};
ghost use Rattle.format.specs.Refusals.{answered_by};

use byte_part::naming::shape_of;
use format::{Column, Part, PartName, Refusal, Shape};

// The byte at an offset, 0 past the last.
fn byte_at(bytes: &[u8], at: usize) -> u8
    ensures { result ≡ get_or bytes.now at 0 }
{
    bytes.get(at).copied().unwrap_or(0)
}

// Whether the bytes at an offset are the same.
pub fn same_at(left: &[u8], right: &[u8], offset: usize) -> bool
    ensures { result ≡ eqb (get_or left.now offset 0) (get_or right.now offset 0) }
{
    byte_at(left, offset) == byte_at(right, offset)
}

// Whether a part is a field, by how it is spelled: no rule reads the other parts, but for the area, whose bits are the rows'.
fn is_field(shape: Shape) -> bool
    ensures { result ≡ is_field shape }
{
    match shape {
        Shape::Varint | Shape::Byte | Shape::Four => true,
        Shape::Area | Shape::Behind | Shape::Spare => false,
    }
}

// The field of a part that was found at an offset.
fn field_in(part: Result<Part, Refusal>, offset: usize) -> Option<(usize, PartName)>
    ensures { result ≡ field_or (answered_by part) offset None }
{
    let name = part.ok()?.name;
    if is_field(shape_of(name)) {
        return Some((offset, name));
    }
    None
}

// The field of a byte that differs.
fn field_at(column: Column, left: &[u8], right: &[u8], offset: usize) -> Option<(usize, PartName)>
    ensures { result ≡ first_field (part_of left.now column) left.now right.now offset 1 }
{
    if same_at(left, right, offset) {
        return None;
    }
    field_in(byte_part::part_at(column, left, offset), offset)
}

// The first field that differs.
pub fn first_field(column: Column, left: &[u8], right: &[u8]) -> Option<(usize, PartName)>
    ensures { result ≡ first_field (part_of left.now column) left.now right.now 0 (length left.now) }
{
    (0..left.len()).find_map(|i| field_at(column, left, right, i))
}
