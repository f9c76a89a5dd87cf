// Writing: the estimate, the sizes of all blocks, and the body. A value is read as the number that its kind is stored as.
#![tactic(auto)]

ghost use Rattle.std.specs.Prelude.{◌≡◌, ◌++◌, map, ◌+◌, ◌-◌, ◌/◌, ◌^◌, ◌≤◌, ◌<◌, min as lesser, length, take, drop};
ghost use Rattle.format.specs.Outcome.{Wrote};
ghost use Rattle.format.specs.Packing.{packed, num_bytes};
ghost use Rattle.format.specs.Stats.{spell_head};
ghost use Rattle.format.specs.Stats as stated;
ghost use Rattle.format.specs.Line.{residuals};
ghost use Rattle.format.specs.Bodies.{normalised, blockwise};
ghost use Rattle.format.specs.Writing.{size_of};
ghost use Rattle.format.specs.Typed.{stored_as};
ghost use Rattle.stats.specs.Asked.{Sound, Describes};
ghost use Rattle.blockwise_estimator.specs.Writer.{normals, part_of, Above, Part, Fitted, BlockTakes, Room, Places, Placed, areas, entries, Takes, FewBytes};

use format::{ColumnStats, Kind, Line};

// A block's line, and the width of its residuals.
#[derive(Clone, Copy)]
struct Fit {
    line: Line,
    bits: u8,
}

// Bytes that blocks take in the area and in the footer.
#[derive(Clone, Copy)]
pub struct Sizes {
    pub area: usize,
    pub footer: usize,
}

// Where the next block's bytes go.
#[derive(Clone, Copy)]
struct Fronts {
    area: usize,
    footer: usize,
}

// Takes the line off each value, in the value's place.
fn to_residuals(ys: &mut [u64], line: Line)
    ensures { ys.new ≡ residuals line ys.old }
{
    for (i, y) in ys.iter_mut().enumerate() {
        *y = line::residual(line, i as u64, *y);
    }
}

// The greatest of some numbers, 0 of none.
fn greatest(ys: &[u64]) -> u64
    ensures { result ≡ stated.greatest ys.now }
{
    ys.iter().copied().max().unwrap_or(0)
}

// Trains a block, and leaves its residuals in its place.
fn fit_block(ys: &mut [u64]) -> Fit
    ensures { Fitted ys.old ys.new result }
{
    let line = line::train(ys);
    to_residuals(ys, line);
    let bits = bitpacker::compute_num_bits(greatest(ys));
    Fit { line, bits }
}

// Normalises the values from `at` on, as many as the block has room for. No other function of this file reads a value.
fn load(kind: Kind, values: &[u64], at: usize, minimum: u64, gcd: u64, block: &mut [u64])
    requires above { Above minimum gcd (stored_as kind values.now) }
    requires block_in_bounds { at + length block.old ≤ length values.now }
    ensures { block.new ≡ normals minimum gcd (take (length block.old) (drop at (stored_as kind values.now))) }
{
    let by = word::divisor::ready(gcd);
    for (i, x) in block.iter_mut().enumerate() {
        let v = monotonic_mapping::stored_of(kind, values[at + i]);
        *x = word::divisor::quotient(by, v - minimum);
    }
}

// The size of the block that begins with `left` values left: the last block is as long as it is.
fn part_size(left: usize) -> usize
    ensures { result ≡ lesser 512 left }
{
    if left < 512 { left } else { 512 }
}

// Loads a block and fits it.
fn fit_part(kind: Kind, values: &[u64], at: usize, minimum: u64, gcd: u64, block: &mut [u64]) -> Fit
    requires { Part minimum gcd (stored_as kind values.now) at (length block.old) }
    ensures { Fitted (part_of minimum gcd (stored_as kind values.now) at (length block.old)) block.new result }
{
    load(kind, values, at, minimum, gcd, block);
    fit_block(block)
}

// The bytes that a block takes.
fn part_sizes(kind: Kind, values: &[u64], at: usize, size: usize, minimum: u64, gcd: u64) -> Sizes
    requires { Part minimum gcd (stored_as kind values.now) at size }
    ensures { BlockTakes (part_of minimum gcd (stored_as kind values.now) at size) result }
{
    let mut block = [0u64; 512];
    let fit = fit_part(kind, values, at, minimum, gcd, &mut block[..size]);
    let area = bitpacker::packed_len(size, fit.bits);
    Sizes {
        area,
        footer: line::len(fit.line) + 1,
    }
}

// Internal: asks for fewer than 2^32 values, none below the minimum, and a gcd above 0. The bytes that all blocks of the
// normalised values take; of the values themselves, as an estimate counts them, with minimum 0 and gcd 1.
pub fn measure(kind: Kind, values: &[u64], minimum: u64, gcd: u64) -> Sizes
    requires above { Above minimum gcd (stored_as kind values.now) }
    requires values_len_bound { length values.now < 2 ^ 32 }
    ensures { Takes (normals minimum gcd (stored_as kind values.now)) result }
{
    let rows = values.len();
    let mut area: usize = 0;
    let mut footer: usize = 0;
    for at in (0..rows).step_by(512) {
        let size = part_size(rows - at);
        let sizes = part_sizes(kind, values, at, size, minimum, gcd);
        area += sizes.area;
        footer += sizes.footer;
    }
    Sizes { area, footer }
}

// Packs rows into the output from `at` on, and returns the offset behind them.
fn pack_at(rows: &[u64], bits: u8, out: &mut [u8], at: usize) -> usize
    requires { Room bits rows.now out.old at }
    ensures { Wrote out.old at (packed bits rows.now) out.new result }
{
    bitpacker::pack(rows, bits, &mut out[at..]);
    at + bitpacker::packed_len(rows.len(), bits)
}

// Writes a block through a buffer of its size: its residuals from `area` on, its entry from `footer` on.
fn part_through(
    kind: Kind,
    values: &[u64],
    at: usize,
    minimum: u64,
    gcd: u64,
    block: &mut [u64],
    out: &mut [u8],
    area: usize,
    footer: usize,
) -> Fronts
    requires part { Part minimum gcd (stored_as kind values.now) at (length block.old) }
    requires places { Places (part_of minimum gcd (stored_as kind values.now) at (length block.old)) out.old area footer }
    ensures { Placed (part_of minimum gcd (stored_as kind values.now) at (length block.old)) out.old area footer out.new result }
{
    let fit = fit_part(kind, values, at, minimum, gcd, block);
    let behind = pack_at(block, fit.bits, out, area);
    let end = line::fields_write(out, footer, fit.line, fit.bits);
    Fronts {
        area: behind,
        footer: end,
    }
}

// Writes the block of `size` values from `at` on: its residuals from `area` on, its entry from `footer` on.
fn part_write(
    kind: Kind,
    values: &[u64],
    at: usize,
    size: usize,
    minimum: u64,
    gcd: u64,
    out: &mut [u8],
    area: usize,
    footer: usize,
) -> Fronts
    requires part { Part minimum gcd (stored_as kind values.now) at size }
    requires places { Places (part_of minimum gcd (stored_as kind values.now) at size) out.old area footer }
    ensures { Placed (part_of minimum gcd (stored_as kind values.now) at size) out.old area footer out.new result }
{
    let mut block = [0u64; 512];
    part_through(
        kind,
        values,
        at,
        minimum,
        gcd,
        &mut block[..size],
        out,
        area,
        footer,
    )
}

// Writes all blocks' residuals at the front of the output behind the head, and all entries from `mid` on, behind the residuals;
// returns the end. Each block is trained once, and its bytes go to both places at once.
fn write_blocks(
    kind: Kind,
    values: &[u64],
    minimum: u64,
    gcd: u64,
    out: &mut [u8],
    mid: usize,
) -> usize
    requires above { Above minimum gcd (stored_as kind values.now) }
    requires mid_value { mid ≡ length (areas (normals minimum gcd (stored_as kind values.now))) }
    requires values_in_bounds { mid + length (entries (normals minimum gcd (stored_as kind values.now))) ≤ length out.old }
    ensures { Wrote out.old 0 (areas (normals minimum gcd (stored_as kind values.now)) ++ entries (normals minimum gcd (stored_as kind values.now))) out.new result }
{
    let rows = values.len();
    let mut area: usize = 0;
    let mut footer = mid;
    for at in (0..rows).step_by(512) {
        let size = part_size(rows - at);
        let fronts = part_write(kind, values, at, size, minimum, gcd, out, area, footer);
        area = fronts.area;
        footer = fronts.footer;
    }
    footer
}

// Stores a number's four bytes, little end first, and returns the offset behind them.
fn put_four(out: &mut [u8], at: usize, n: u32) -> usize
    requires { at + 4 ≤ length out.old }
    ensures { Wrote out.old at (num_bytes 4 n) out.new result }
{
    out[at] = (n % 0x100) as u8;
    out[at + 1] = (n / 0x100 % 0x100) as u8;
    out[at + 2] = (n / 0x1_0000 % 0x100) as u8;
    out[at + 3] = (n / 0x100_0000 % 0x100) as u8;
    at + 4
}

// Writes what stands behind the head, into the output there: all blocks' residuals, the footer, and its length in four bytes.
// Returns how many bytes they are.
fn write_rest(
    kind: Kind,
    values: &[u64],
    minimum: u64,
    gcd: u64,
    sizes: Sizes,
    out: &mut [u8],
) -> usize
    requires above { Above minimum gcd (stored_as kind values.now) }
    requires takes { Takes (normals minimum gcd (stored_as kind values.now)) sizes }
    requires footer_bound { sizes.footer < 2 ^ 32 }
    requires footer_in_bounds { sizes.area + sizes.footer + 4 ≤ length out.old }
    ensures { Wrote out.old 0 ((areas (normals minimum gcd (stored_as kind values.now)) ++ entries (normals minimum gcd (stored_as kind values.now))) ++ num_bytes 4 sizes.footer) out.new result }
{
    let end = write_blocks(kind, values, minimum, gcd, out, sizes.area);
    put_four(out, end, sizes.footer as u32)
}

// Internal: asks for statistics that a head can be made of, and for sizes that fewer than 2^32 values can have. The length of a body
// whose blocks take so much.
pub fn body_len(stats: ColumnStats, sizes: Sizes) -> usize
    requires sound { Sound stats }
    requires few_bytes { FewBytes sizes }
    ensures { result ≡ length (spell_head stats) + (sizes.area + sizes.footer) + 4 }
{
    stats::head_len(stats) + (sizes.area + sizes.footer) + 4
}

// Internal: asks for the values' own statistics. The size that choosing goes by: blocks of the values as they stand, less what the
// gcd is thought to save.
pub fn estimate(kind: Kind, values: &[u64], stats: ColumnStats) -> u64
    requires { Describes stats (stored_as kind values.now) }
    ensures { Some result ≡ size_of 2 stats (stored_as kind values.now) }
{
    let sizes = measure(kind, values, 0, 1);
    let whole = body_len(stats, sizes) as u64;
    let less = float::saving::saving_of(stats.gcd, stats.rows);
    if whole < less { 0 } else { whole - less }
}

// Internal: asks for the values' own statistics, what their blocks take, and room. Writes the body at an offset, and returns the
// offset behind it: the head, all blocks' residuals, the footer, and its length in four bytes, which it never outgrows.
pub fn serialize(
    kind: Kind,
    values: &[u64],
    stats: ColumnStats,
    sizes: Sizes,
    out: &mut [u8],
    at: usize,
) -> usize
    requires describes { Describes stats (stored_as kind values.now) }
    requires takes { Takes (map (normalised stats) (stored_as kind values.now)) sizes }
    requires values_in_bounds { at + length (blockwise stats (stored_as kind values.now)) ≤ length out.old }
    ensures { Wrote out.old at (blockwise stats (stored_as kind values.now)) out.new result }
{
    let start = stats::head_write(out, at, stats);
    let behind = write_rest(
        kind,
        values,
        stats.minimum,
        stats.gcd,
        sizes,
        &mut out[start..],
    );
    start + behind
}
