// Writing a column of numbers of 64 bits: the statistics of values, their sizes by codec, and their bytes. No argument makes a call fail but by a numbered refusal, and each contract
// says what a call answers and what every lent entry holds afterwards. Opening stands in `open_column`.
#![tactic(auto)]

ghost use Rattle.std.specs.Prelude.{◌≡◌, ◌^◌, ◌≤◌, ◌<◌, length, MatchResult};
ghost use Rattle.format.specs.declared.Refusal.TheVariants.{TooManyValues};
ghost use Rattle.format.specs.Typed.{stored_as};
ghost use Rattle.format.specs.Writing.{size_of};
ghost use Rattle.stats.specs.Asked.{Describes};
ghost use Rattle.u64_based.specs.Calls.{StatsAs, KindStatsAs, SizesAs, WritesAs, KindWritesAs};

use format::{ColumnStats, Kind, Refusal};

// What the choice compares of each codec.
#[derive(Clone, Copy)]
pub struct Sizes {
    pub bitpacked: Option<u64>,
    pub linear: Option<u64>,
    pub blockwise: Option<u64>,
}

// Refuses more values than a column can hold.
fn few(values: &[u64]) -> Result<(), Refusal>
    ensures { MatchResult result (λ _. length values.now < 2 ^ 32) (λ r. (r ≡ TooManyValues) × (2 ^ 32 ≤ length values.now)) }
{
    if 0xffff_ffff < values.len() {
        return Err(Refusal::TooManyValues);
    }
    Ok(())
}

// The statistics of some values.
pub fn column_stats(values: &[u64]) -> Result<ColumnStats, Refusal>
    ensures { StatsAs values.now result }
{
    column_stats_as(Kind::U64, values)
}

// The statistics of the numbers that values of a kind are stored as.
pub fn column_stats_as(kind: Kind, values: &[u64]) -> Result<ColumnStats, Refusal>
    ensures { KindStatsAs kind values.now result }
{
    few(values)?;
    Ok(stats_collector::collect(kind, values))
}

// Internal: asks for the values' own statistics, and for the number of a codec. What the choice compares of this codec.
#[tactic(auto, using(write_codec::proofs::Choosing::size_best))]
fn size_by(kind: Kind, values: &[u64], stats: ColumnStats, code: u8) -> Option<u64>
    requires describes { Describes stats (stored_as kind values.now) }
    requires code_bound { code ≤ 2 }
    ensures { result ≡ size_of code stats (stored_as kind values.now) }
{
    write_codec::choice::sized(kind, values, stats, code).map(|best| best.size)
}

// What the choice compares of each codec, for values of a kind: every codec is sized, whichever would be listed.
pub fn sizes_as(kind: Kind, values: &[u64]) -> Result<Sizes, Refusal>
    ensures { SizesAs kind values.now result }
{
    few(values)?;
    let stats = stats_collector::collect(kind, values);
    let bitpacked = size_by(kind, values, stats, 0);
    let linear = size_by(kind, values, stats, 1);
    let blockwise = size_by(kind, values, stats, 2);
    Ok(Sizes {
        bitpacked,
        linear,
        blockwise,
    })
}

// Writes the values by the listed codec that takes least.
pub fn serialize(values: &[u64], codecs: &[u8], out: &mut [u8]) -> Result<usize, Refusal>
    ensures { WritesAs values.now codecs.now result out.old out.new }
{
    serialize_as(Kind::U64, values, codecs, out)
}

// Writes values of a kind, as the numbers that they are stored as. Each pass over them reads a value as its stored number; no list of
// those is made.
pub fn serialize_as(
    kind: Kind,
    values: &[u64],
    codecs: &[u8],
    out: &mut [u8],
) -> Result<usize, Refusal>
    ensures { KindWritesAs kind values.now codecs.now result out.old out.new }
{
    few(values)?;
    if let Some(place) = write_codec::choice::unknown(codecs) {
        return Err(Refusal::UnknownCodec { place });
    }
    let stats = stats_collector::collect(kind, values);
    let codec = write_codec::choice::codec_for(kind, values, stats, codecs).ok_or(
        Refusal::NoCodecApplies,
    )?;
    write_codec::writer::put(kind, values, stats, codec, out)
}
