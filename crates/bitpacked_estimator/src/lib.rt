// Writing: the estimate, and the body. A value is read as the number that its kind is stored as.
#![tactic(auto)]

ghost use Rattle.std.specs.Prelude.{◌≡◌, map, ◌++◌, ◌+◌, ◌*◌, ◌≤◌, length, drop};
ghost use Rattle.format.specs.Outcome.{Wrote};
ghost use Rattle.format.specs.Word.{bytes_for};
ghost use Rattle.format.specs.Packing.{width, packed};
ghost use Rattle.format.specs.Stats.{count_of, spell_head};
ghost use Rattle.format.specs.Bodies.{normalised, bitpacked};
ghost use Rattle.format.specs.Typed.{stored_as};
ghost use Rattle.bitpacker.specs.Packer.{Packable};
ghost use Rattle.stats.specs.Asked.{Sound, Describes};

use bitpacker::BitPacker;
use format::{ColumnStats, Kind};

// Internal: asks for statistics that a head can be made of. The length of the body.
pub fn estimate(stats: ColumnStats) -> usize
    requires { Sound stats }
    ensures { result ≡ length (spell_head stats) + bytes_for (width (count_of stats) * stats.rows) }
{
    let bits = bitpacker::compute_num_bits(stats::count_of(stats));
    stats::head_len(stats) + bitpacker::packed_len(stats.rows as usize, bits)
}

// Packs the normalised values to the front of the output. A value is normalised on its way into the packer, by a gcd that was made ready to divide by.
fn pack_normalised(kind: Kind, values: &[u64], stats: ColumnStats, bits: u8, out: &mut [u8])
    requires describes { Describes stats (stored_as kind values.now) }
    requires packable { Packable bits (map (normalised stats) (stored_as kind values.now)) out.old }
    ensures { out.new ≡ packed bits (map (normalised stats) (stored_as kind values.now)) ++ drop (bytes_for (bits * length values.now)) out.old }
{
    let minimum = stats.minimum;
    let gcd = word::divisor::ready(stats.gcd);
    let mut packer = BitPacker::new();
    for value in values {
        let v = monotonic_mapping::stored_of(kind, *value);
        packer = packer.write(out, word::divisor::quotient(gcd, v - minimum), bits);
    }
    packer.close(out);
}

// Internal: asks for the values' own statistics, and for room. Writes the body at an offset, and returns the offset behind it.
pub fn serialize(kind: Kind, values: &[u64], stats: ColumnStats, out: &mut [u8], at: usize) -> usize
    requires describes { Describes stats (stored_as kind values.now) }
    requires values_in_bounds { at + length (bitpacked stats (stored_as kind values.now)) ≤ length out.old }
    ensures { Wrote out.old at (bitpacked stats (stored_as kind values.now)) out.new result }
{
    let start = stats::head_write(out, at, stats);
    let bits = bitpacker::compute_num_bits(stats::count_of(stats));
    pack_normalised(kind, values, stats, bits, &mut out[start..]);
    start + bitpacker::packed_len(values.len(), bits)
}
