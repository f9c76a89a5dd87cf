// What stands behind the head, by the codec.
ghost use Rattle.std.specs.Prelude.{◌≡◌, ◌+◌, ◌-◌, ◌*◌, ◌≤◌, min};
ghost use Rattle.format.specs.declared.PartName.TheVariants.{BlockSlope, BlockIntercept, BlockWidth};
ghost use Rattle.format.specs.Bodies.{block_count};
ghost use Rattle.format.specs.Stops.{stop_in, reach_area, reach_fields, reach_blocks, reach_body};
ghost use Rattle.format.specs.Word.{bytes_for};
ghost use Rattle.blockwise_linear.specs.Reader.{Small, up_to_length};
ghost use Rattle.byte_stop.specs.Meaning.{reached_by};

use crate::fields::Names;
use blockwise_linear::reader::Cursor;
use format::{Fields, Head, PartName, Stop};

// An area that begins at an offset and has to end before another.
fn area(at: usize, size: usize, end: usize) -> Option<Stop>
    ensures { result ≡ stop_in (reach_area at size end) }
{
    if word::ends_within(at, size, end) {
        return None;
    }
    Some(Stop {
        number: 10,
        name: PartName::Area,
        first: at,
    })
}

// Bitpacked: the area comes behind the head.
#[tactic(auto, unfolding(format::specs::Stops::reach_body))]
fn bitpacked(bytes: &[u8], head: Head) -> Option<Stop>
    ensures { result ≡ stop_in (reach_body 0 bytes.now head) }
{
    let width = bitpacker::compute_num_bits(head.count);
    let size = bitpacker::packed_len(head.rows as usize, width);
    area(head.next, size, bytes.len())
}

// Linear: the area comes behind the line and its width.
#[tactic(auto, unfolding(format::specs::Stops::reach_body))]
fn linear(bytes: &[u8], head: Head) -> Option<Stop>
    ensures { result ≡ stop_in (reach_body 1 bytes.now head) }
{
    let names = Names {
        slope: PartName::Slope,
        intercept: PartName::Intercept,
        width: PartName::Width,
    };
    match crate::fields::fields(bytes, head.next, names) {
        Ok(f) => {
            let size = bitpacker::packed_len(head.rows as usize, f.bits);
            area(f.next, size, bytes.len())
        }
        Err(t) => Some(t),
    }
}

// The rows of a block with so many rows from it on.
fn block_rows(left: u32) -> u32
    ensures { result ≡ min left 512 }
{
    if left < 512 { left } else { 512 }
}

// Internal: asks that the area's bytes can be counted. The place behind a block of so many bits, from its own place and the offset behind
// its fields.
fn behind(c: Cursor, bits: u8, next: usize) -> Cursor
    requires { Small c × (bits ≤ 64) }
    ensures { Small result × (result ≡ record { at = next; start = c.start + bytes_for (bits * min c.left 512); left = c.left - 512 }) }
{
    let rows = block_rows(c.left);
    Cursor {
        at: next,
        start: c.start + bitpacker::packed_len(rows as usize, bits),
        left: c.left - rows,
    }
}

// The fields of block k, read inside the footer's own bytes.
fn block(bytes: &[u8], at: usize, k: u32) -> Result<Fields, Stop>
    ensures { reached_by result ≡ reach_fields (BlockSlope k) (BlockIntercept k) (BlockWidth k) (up_to_length bytes.now) at }
{
    let end = blockwise_linear::reader::footer_end(bytes);
    let names = Names {
        slope: PartName::BlockSlope(k),
        intercept: PartName::BlockIntercept(k),
        width: PartName::BlockWidth(k),
    };
    crate::fields::fields(&bytes[..end], at, names)
}

// Internal: asks that the area's bytes can be counted. The fields of all blocks from a place on.
fn blocks(bytes: &[u8], place: Cursor) -> Result<usize, Stop>
    requires { Small place }
    ensures { reached_by result ≡ reach_blocks 0 (block_count place.left) (up_to_length bytes.now) place.at place.start place.left }
{
    let mut c = place;
    let mut k: u32 = 0;
    while 0 < c.left {
        let f = block(bytes, c.at, k)?;
        c = behind(c, f.bits, f.next);
        k += 1;
    }
    Ok(c.start)
}

// Blockwise: the footer's length, the blocks' fields in the footer, and the area between the head and the footer.
#[tactic(auto, unfolding(format::specs::Stops::reach_body))]
fn blockwise(bytes: &[u8], head: Head) -> Option<Stop>
    ensures { result ≡ stop_in (reach_body 2 bytes.now head) }
{
    let end = blockwise_linear::reader::footer_end(bytes);
    if !word::ends_within(head.next, 4, bytes.len()) {
        return Some(Stop {
            number: 10,
            name: PartName::FooterLength,
            first: head.next,
        });
    }
    if !word::ends_within(head.next, blockwise_linear::reader::footer_len(bytes), end) {
        return Some(Stop {
            number: 10,
            name: PartName::FooterLength,
            first: end,
        });
    }
    let footer = blockwise_linear::reader::first(bytes, head.rows);
    match blocks(bytes, footer) {
        Ok(size) => area(head.next, size, footer.at),
        Err(t) => Some(t),
    }
}

// The body of a codec, by its number.
pub(crate) fn body(code: u8, bytes: &[u8], head: Head) -> Option<Stop>
    ensures { result ≡ stop_in (reach_body code bytes.now head) }
{
    match code {
        0 => bitpacked(bytes, head),
        1 => linear(bytes, head),
        _ => blockwise(bytes, head),
    }
}
