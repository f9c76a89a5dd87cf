// Writing: the fit, the estimate that it gives, and the body. A value is read as the number that its kind is stored as.
#![tactic(auto)]

ghost use Rattle.std.specs.Prelude.{◌≡◌, ◌++◌, ◌+◌, ◌*◌, ◌≤◌, ◌<◌, length, drop};
ghost use Rattle.format.specs.Outcome.{Wrote};
ghost use Rattle.format.specs.Word.{mod_add, mod_sub, bytes_for};
ghost use Rattle.format.specs.Packing.{packed};
ghost use Rattle.format.specs.Stats.{spell_head};
ghost use Rattle.format.specs.Line.{line_at, residuals, spell_line};
ghost use Rattle.format.specs.Bodies.{half, first_line, linear};
ghost use Rattle.format.specs.Typed.{stored_as};
ghost use Rattle.bitpacker.specs.Packer.{Packable};
ghost use Rattle.stats.specs.Asked.{Sound, Describes};
ghost use Rattle.linear_estimator.specs.Writer.{Spreads, Fits};

use bitpacker::BitPacker;
use format::{ColumnStats, Kind, Line};
use std::array;

// 2^63 - 1, by which residuals are moved up before they are compared: one a little below the line stays small too.
const HALF: u64 = 0x7fff_ffff_ffff_ffff;

// The least and the greatest deviation of some values.
#[derive(Clone, Copy)]
struct Spread {
    low: u64,
    high: u64,
}

// The final line, which no value lies under, and the width of what is left above it.
#[derive(Clone, Copy)]
pub struct Fit {
    pub line: Line,
    pub bits: u8,
}

// What is left of y above the line at x, moved up by a half.
fn deviation(line: Line, x: u64, y: u64) -> u64
    ensures { result ≡ mod_add (mod_sub y (line_at line x)) half }
{
    word::add(line::residual(line, x, y), HALF)
}

// The spread of all values around a line.
fn spread_of(kind: Kind, values: &[u64], line: Line) -> Spread
    requires { 0 < length values.now }
    ensures { Spreads line (stored_as kind values.now) result }
{
    let mut low = u64::MAX;
    let mut high = 0;
    for (i, value) in values.iter().enumerate() {
        let v = monotonic_mapping::stored_of(kind, *value);
        let d = deviation(line, i as u64, v);
        low = word::lesser(low, d);
        high = word::larger(high, d);
    }
    Spread { low, high }
}

// The line that training on the first 512 values gives. They go through a buffer: no part of the values is lent on.
fn first_line(kind: Kind, values: &[u64]) -> Line
    requires { 512 ≤ length values.now }
    ensures { result ≡ first_line (stored_as kind values.now) }
{
    let first: [u64; 512] = array::from_fn(|i| monotonic_mapping::stored_of(kind, values[i]));
    line::train(&first)
}

// Internal: asks for 512 values at least. Fits a line to them all.
pub fn fit_of(kind: Kind, values: &[u64]) -> Fit
    requires { 512 ≤ length values.now }
    ensures { Fits (stored_as kind values.now) result }
{
    let first = first_line(kind, values);
    let spread = spread_of(kind, values, first);
    let raised = word::add(first.intercept, spread.low);
    let line = Line {
        slope: first.slope,
        intercept: word::sub(raised, HALF),
    };
    let bits = bitpacker::compute_num_bits(spread.high - spread.low);
    Fit { line, bits }
}

// Internal: asks for statistics that a head can be made of, and a width. The length of the body.
pub fn estimate(stats: ColumnStats, fit: Fit) -> usize
    requires { Sound stats × (fit.bits ≤ 64) }
    ensures { result ≡ length (spell_head stats) + length (spell_line fit.line) + 1 + bytes_for (fit.bits * stats.rows) }
{
    let area = bitpacker::packed_len(stats.rows as usize, fit.bits);
    stats::head_len(stats) + line::len(fit.line) + 1 + area
}

// Packs what is left of the values above a line to the front of the output.
fn pack_residuals(kind: Kind, values: &[u64], line: Line, bits: u8, out: &mut [u8])
    requires { Packable bits (residuals line (stored_as kind values.now)) out.old }
    ensures { out.new ≡ packed bits (residuals line (stored_as kind values.now)) ++ drop (bytes_for (bits * length values.now)) out.old }
{
    let mut packer = BitPacker::new();
    for (i, value) in values.iter().enumerate() {
        let v = monotonic_mapping::stored_of(kind, *value);
        packer = packer.write(out, line::residual(line, i as u64, v), bits);
    }
    packer.close(out);
}

// Internal: asks for the values' own statistics and fit, and for room. Writes the body at an offset, and returns the offset behind it.
pub fn serialize(
    kind: Kind,
    values: &[u64],
    stats: ColumnStats,
    fit: Fit,
    out: &mut [u8],
    at: usize,
) -> usize
    requires describes { Describes stats (stored_as kind values.now) }
    requires fits { Fits (stored_as kind values.now) fit }
    requires values_in_bounds { at + length (linear stats (stored_as kind values.now)) ≤ length out.old }
    ensures { Wrote out.old at (linear stats (stored_as kind values.now)) out.new result }
{
    let line = fit.line;
    let bits = fit.bits;
    let behind = stats::head_write(out, at, stats);
    let start = line::fields_write(out, behind, line, bits);
    pack_residuals(kind, values, line, bits, &mut out[start..]);
    start + bitpacker::packed_len(values.len(), bits)
}
