// Which parts a column has: the name of each by its number.
ghost use Rattle.std.specs.Prelude.{◌≡◌, [], ◌∷◌, ◌++◌};
ghost use Rattle.format.specs.Bodies.{block_count};
ghost use Rattle.format.specs.Parts.{head_names, names, block_names, shape_of};
ghost use Rattle.byte_part.specs.Names.{which_part, block_of};
ghost use Rattle.byte_part.specs.Walk.{nth, names_behind};
ghost use Rattle.format.specs.declared.PartName.TheVariants.{Area, Behind, Slope, Intercept, Width, Spare, FooterLength};

use format::{Codec, PartName, Shape};

// How a part is spelled.
pub fn shape_of(name: PartName) -> Shape
    ensures { result ≡ shape_of name }
{
    match name {
        PartName::Code => Shape::Byte,
        PartName::Minimum => Shape::Varint,
        PartName::Gcd => Shape::Varint,
        PartName::Count => Shape::Varint,
        PartName::Rows => Shape::Varint,
        PartName::Slope => Shape::Varint,
        PartName::Intercept => Shape::Varint,
        PartName::Width => Shape::Byte,
        PartName::Area => Shape::Area,
        PartName::Behind => Shape::Behind,
        PartName::BlockSlope(_) => Shape::Varint,
        PartName::BlockIntercept(_) => Shape::Varint,
        PartName::BlockWidth(_) => Shape::Byte,
        PartName::Spare => Shape::Spare,
        PartName::FooterLength => Shape::Four,
    }
}

// Which part a name is, by its number in the order of the enum.
pub fn which_part(name: PartName) -> u64
    ensures { result ≡ which_part name }
{
    match name {
        PartName::Code => 0,
        PartName::Minimum => 1,
        PartName::Gcd => 2,
        PartName::Count => 3,
        PartName::Rows => 4,
        PartName::Slope => 5,
        PartName::Intercept => 6,
        PartName::Width => 7,
        PartName::Area => 8,
        PartName::Behind => 9,
        PartName::BlockSlope(_) => 10,
        PartName::BlockIntercept(_) => 11,
        PartName::BlockWidth(_) => 12,
        PartName::Spare => 13,
        PartName::FooterLength => 14,
    }
}

// The number of a name's block, 0 where it is no block's.
pub fn block_of(name: PartName) -> u32
    ensures { result ≡ block_of name }
{
    match name {
        PartName::Code => 0,
        PartName::Minimum => 0,
        PartName::Gcd => 0,
        PartName::Count => 0,
        PartName::Rows => 0,
        PartName::Slope => 0,
        PartName::Intercept => 0,
        PartName::Width => 0,
        PartName::Area => 0,
        PartName::Behind => 0,
        PartName::BlockSlope(k) => k,
        PartName::BlockIntercept(k) => k,
        PartName::BlockWidth(k) => k,
        PartName::Spare => 0,
        PartName::FooterLength => 0,
    }
}

// The code byte and the head.
fn head_name(number: usize) -> Option<PartName>
    ensures { result ≡ nth head_names number }
{
    match number {
        0 => Some(PartName::Code),
        1 => Some(PartName::Minimum),
        2 => Some(PartName::Gcd),
        3 => Some(PartName::Count),
        4 => Some(PartName::Rows),
        _ => None,
    }
}

// Bitpacked, behind the head.
fn bitpacked_name(number: usize) -> Option<PartName>
    ensures { result ≡ nth (Area ∷ Behind ∷ []) number }
{
    match number {
        0 => Some(PartName::Area),
        1 => Some(PartName::Behind),
        _ => None,
    }
}

// Linear, behind the head.
fn linear_name(number: usize) -> Option<PartName>
    ensures { result ≡ nth (Slope ∷ Intercept ∷ Width ∷ Area ∷ Behind ∷ []) number }
{
    match number {
        0 => Some(PartName::Slope),
        1 => Some(PartName::Intercept),
        2 => Some(PartName::Width),
        3 => Some(PartName::Area),
        4 => Some(PartName::Behind),
        _ => None,
    }
}

// The footer behind its blocks' fields.
fn end_name(number: usize) -> Option<PartName>
    ensures { result ≡ nth (Spare ∷ FooterLength ∷ []) number }
{
    match number {
        0 => Some(PartName::Spare),
        1 => Some(PartName::FooterLength),
        _ => None,
    }
}

// The footer: three fields a block, and what stands behind them.
fn footer_name(blocks: u32, number: usize) -> Option<PartName>
    ensures { result ≡ nth (block_names 0 blocks ++ (Spare ∷ FooterLength ∷ [])) number }
{
    let behind = 3 * (blocks as usize);
    if behind <= number {
        return end_name(number - behind);
    }
    let k = (number / 3) as u32;
    match number % 3 {
        0 => Some(PartName::BlockSlope(k)),
        1 => Some(PartName::BlockIntercept(k)),
        _ => Some(PartName::BlockWidth(k)),
    }
}

// Blockwise, behind the head.
fn blockwise_name(blocks: u32, number: usize) -> Option<PartName>
    ensures { result ≡ nth (Area ∷ Behind ∷ (block_names 0 blocks ++ (Spare ∷ FooterLength ∷ []))) number }
{
    if number < 2 {
        return bitpacked_name(number);
    }
    footer_name(blocks, number - 2)
}

// How many blocks so many rows have, as the names of parts count them.
pub fn block_count(rows: u32) -> u32
    ensures { result ≡ block_count rows }
{
    format::block_count(rows) as u32
}

// Behind the head, by the codec.
fn name_behind(codec: Codec, rows: u32, number: usize) -> Option<PartName>
    ensures { result ≡ nth (names_behind codec rows) number }
{
    match codec {
        Codec::Bitpacked => bitpacked_name(number),
        Codec::Linear(_, _) => linear_name(number),
        Codec::Blockwise => blockwise_name(block_count(rows), number),
    }
}

// The name of part `number`.
pub(crate) fn name_at(codec: Codec, rows: u32, number: usize) -> Option<PartName>
    ensures { result ≡ nth (names codec rows) number }
{
    if number < 5 {
        return head_name(number);
    }
    name_behind(codec, rows, number - 5)
}
