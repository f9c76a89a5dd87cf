// Reading: opening a column behind its head.
//
// The footer is read twice. The first pass, here, reads every block's fields and adds up the area, before anything is decided;
// who needs the blocks takes them one after another, once they are known to be good. Both go the short way (`short`) where they can.
ghost use Rattle.std.specs.Prelude.{◌≡◌, ◌&&◌, ◌+◌, ◌-◌, min, leb, length, drop};
ghost use Rattle.format.specs.Outcome.{Outcome.value};
ghost use Rattle.format.specs.Packing.{bytes_num};
ghost use Rattle.format.specs.Opening.{open_blockwise, read_fields, column_in};
ghost use Rattle.blockwise_linear.specs.Reader.{last_in, up_to_length, step_in, blocks_from, area_in, column_over, first_cursor, Small, Good};
ghost use Rattle.format.specs.Refusals.{answered_by};

use format::{Block, Codec, Column, Fields, Head, Refusal};

// A place in the footer: the offset of the next block's fields, the byte of the area where that block starts, and the rows
// from it on.
#[derive(Clone, Copy)]
pub struct Cursor {
    pub at: usize,
    pub start: usize,
    pub left: u32,
}

// A block, the place behind it, and the offset of its first field that is spelled longer than need be.
#[derive(Clone, Copy)]
pub struct Step {
    pub block: Block,
    pub next: Cursor,
    pub longer: Option<usize>,
}

// Where the footer ends: four bytes before the end of the column.
pub fn footer_end(bytes: &[u8]) -> usize
    ensures { result ≡ length bytes.now - 4 }
{
    if bytes.len() < 4 {
        return 0;
    }
    bytes.len() - 4
}

// The footer's length: the bytes behind it, little end first.
pub fn footer_len(bytes: &[u8]) -> usize
    ensures { result ≡ bytes_num (drop (length bytes.now - 4) bytes.now) }
{
    let end = footer_end(bytes);
    let mut long: u64 = 0;
    for at in (end..bytes.len()).rev() {
        long = long * 256 + word::wide(bytes[at]);
    }
    long as usize
}

// Whether the footer and the four bytes of its length lie behind the head, which ends at `next`.
fn footer_fits(bytes: &[u8], next: usize) -> bool
    ensures { result ≡ (leb (next + 4) (length bytes.now) && leb (next + bytes_num (drop (length bytes.now - 4) bytes.now)) (length bytes.now - 4)) }
{
    if !word::ends_within(next, 4, bytes.len()) {
        return false;
    }
    word::ends_within(next, footer_len(bytes), footer_end(bytes))
}

// The place of the first block of so many rows: where the footer starts.
pub fn first(bytes: &[u8], rows: u32) -> Cursor
    ensures { result ≡ first_cursor bytes.now rows }
{
    let end = footer_end(bytes);
    let long = footer_len(bytes);
    let at = if end < long { 0 } else { end - long };
    Cursor {
        at,
        start: 0,
        left: rows,
    }
}

// The rows of a block with so many rows from it on: 512, in the last perhaps fewer.
pub(crate) fn block_rows(left: u32) -> u32
    ensures { result ≡ min left 512 }
{
    if left < 512 { left } else { 512 }
}

// The fields of a block, read inside the footer's own bytes.
fn fields_at(bytes: &[u8], at: usize) -> Result<Fields, Refusal>
    ensures { answered_by result ≡ read_fields (up_to_length bytes.now) at }
{
    let end = footer_end(bytes);
    line::fields_read(&bytes[..end], at)
}

// Internal: asks that the area's bytes can be counted. The block at a place; its fields are read inside the footer's own bytes.
#[tactic(auto, unfolding(crate::specs::Reader::step_in))]
fn step_read(bytes: &[u8], c: Cursor) -> Result<Step, Refusal>
    requires { Small c }
    ensures { answered_by result ≡ step_in bytes.now c }
{
    let fields = fields_at(bytes, c.at)?;
    let rows = block_rows(c.left);
    Ok(Step {
        block: Block {
            line: fields.line,
            bits: fields.bits as u64,
            start: c.start as u64,
        },
        next: Cursor {
            at: fields.next,
            start: c.start + bitpacker::packed_len(rows as usize, fields.bits),
            left: c.left - rows,
        },
        longer: fields.longer,
    })
}

// Internal: asks that the area's bytes can be counted. The first pass, the long way: every block from a place on is read, their
// area added up, and the first longer spelling kept.
fn check_any(bytes: &[u8], place: Cursor) -> Result<(usize, Option<usize>), Refusal>
    requires { Small place }
    ensures { answered_by result ≡ area_in (blocks_from bytes.now place) }
{
    let mut c = place;
    let mut longer = None;
    while 0 < c.left {
        let step = step_read(bytes, c)?;
        longer = longer.or(step.longer);
        c = step.next;
    }
    Ok((c.start, longer))
}

// Internal: asks the same. The first pass, the short way as long as it finds the blocks: then no number is spelled longer.
fn check(bytes: &[u8], place: Cursor) -> Result<(usize, Option<usize>), Refusal>
    requires { Small place }
    ensures { answered_by result ≡ area_in (blocks_from bytes.now place) }
{
    let mut c = place;
    while 0 < c.left {
        let p = crate::short::step(bytes, c);
        if !p.there {
            return check_any(bytes, place);
        }
        c = Cursor {
            at: p.at,
            start: p.start,
            left: p.left,
        };
    }
    Ok((c.start, None))
}

// The column of a head whose blocks were checked: its area has to end before the footer.
fn loaded(
    head: Head,
    size: usize,
    longer: Option<usize>,
    footer: usize,
) -> Result<(Column, Option<usize>), Refusal>
    ensures { answered_by result ≡ column_over head footer (size, longer) }
{
    if !word::ends_within(head.next, size, footer) {
        return Err(Refusal::AreaShort);
    }
    let column = head.column(head.next, size, Codec::Blockwise);
    Ok((column, head.longer.or(longer)))
}

// The column of a head: its area comes behind it.
pub fn load(bytes: &[u8], head: Head, room: usize) -> Result<(Column, Option<usize>), Refusal>
    ensures { answered_by result ≡ column_in (open_blockwise bytes.now head room) }
{
    if !footer_fits(bytes, head.next) {
        return Err(Refusal::AreaShort);
    }
    let blocks = format::block_count(head.rows);
    if room < blocks {
        return Err(Refusal::TableShort { blocks });
    }
    let footer = first(bytes, head.rows);
    let (size, longer) = check(bytes, footer)?;
    loaded(head, size, longer, footer.at)
}

// Internal: asks for a block that was checked, and that the area's bytes can be counted. The block at a place.
pub fn next_block(bytes: &[u8], c: Cursor) -> Step
    requires small { Small c }
    requires good { Good (step_in bytes.now c) }
    ensures { step_in bytes.now c ≡ value result }
{
    match step_read(bytes, c) {
        Ok(s) => s,
        Err(_) => Step {
            block: Block::default(),
            next: c,
            longer: None,
        },
    }
}

// The end of a footer: the width of the last block, 0 where there is none, the offset behind its fields, and where the footer
// starts and ends.
#[derive(Clone, Copy)]
pub struct Last {
    pub bits: u8,
    pub at: usize,
    pub start: usize,
    pub end: usize,
}

// The end of the footer of a column of so many rows.
pub fn footer_last(bytes: &[u8], rows: u32) -> Result<Last, Refusal>
    ensures { answered_by result ≡ last_in bytes.now rows }
{
    let end = footer_end(bytes);
    let start = first(bytes, rows).at;
    let blocks = format::block_count(rows);
    let mut bits: u8 = 0;
    let mut at = start;
    for _ in 0..blocks {
        let fields = fields_at(bytes, at)?;
        bits = fields.bits;
        at = fields.next;
    }
    Ok(Last {
        bits,
        at,
        start,
        end,
    })
}
