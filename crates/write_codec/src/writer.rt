// Writing the column of a codec: whether it has room, the code byte, and the body behind it.
ghost use Rattle.std.specs.Prelude.{◌∷◌, length};
ghost use Rattle.format.specs.Bodies.{bitpacked, linear, blockwise, column_by};
ghost use Rattle.format.specs.Listing.{code_of};
ghost use Rattle.format.specs.Typed.{stored_as};
ghost use Rattle.stats.specs.Asked.{Describes};
ghost use Rattle.linear_estimator.specs.Writer.{Fits};
ghost use Rattle.write_codec.specs.Choice.{AptCodec};
ghost use Rattle.write_codec.specs.Writing.{lent};
ghost use Rattle.format.specs.Calls.{StoredAs};

use format::{Codec, ColumnStats, Kind, Refusal};
use linear_estimator::Fit;

// A Bitpacked column, where there is room for it.
fn put_bitpacked(
    kind: Kind,
    values: &[u64],
    stats: ColumnStats,
    out: &mut [u8],
) -> Result<usize, Refusal>
    requires { Describes stats (stored_as kind values.now) }
    ensures { StoredAs (lent (0 ∷ bitpacked stats (stored_as kind values.now)) (length out.old)) result out.old out.new }
{
    let needed = 1 + bitpacked_estimator::estimate(stats);
    if out.len() < needed {
        return Err(Refusal::OutputShort { needed });
    }
    out[0] = 0;
    Ok(bitpacked_estimator::serialize(kind, values, stats, out, 1))
}

// A Linear column, where there is room for it.
fn put_linear(
    kind: Kind,
    values: &[u64],
    stats: ColumnStats,
    fit: Fit,
    out: &mut [u8],
) -> Result<usize, Refusal>
    requires describes { Describes stats (stored_as kind values.now) }
    requires fits { Fits (stored_as kind values.now) fit }
    ensures { StoredAs (lent (1 ∷ linear stats (stored_as kind values.now)) (length out.old)) result out.old out.new }
{
    let needed = 1 + linear_estimator::estimate(stats, fit);
    if out.len() < needed {
        return Err(Refusal::OutputShort { needed });
    }
    out[0] = 1;
    Ok(linear_estimator::serialize(kind, values, stats, fit, out, 1))
}

// A Blockwise column, where there is room for it.
fn put_blockwise(
    kind: Kind,
    values: &[u64],
    stats: ColumnStats,
    out: &mut [u8],
) -> Result<usize, Refusal>
    requires { Describes stats (stored_as kind values.now) }
    ensures { StoredAs (lent (2 ∷ blockwise stats (stored_as kind values.now)) (length out.old)) result out.old out.new }
{
    let sizes = blockwise_estimator::measure(kind, values, stats.minimum, stats.gcd);
    let needed = 1 + blockwise_estimator::body_len(stats, sizes);
    if out.len() < needed {
        return Err(Refusal::OutputShort { needed });
    }
    out[0] = 2;
    Ok(blockwise_estimator::serialize(kind, values, stats, sizes, out, 1))
}

// The column of a chosen codec, where there is room for it.
pub fn put(
    kind: Kind,
    values: &[u64],
    stats: ColumnStats,
    codec: Codec,
    out: &mut [u8],
) -> Result<usize, Refusal>
    requires describes { Describes stats (stored_as kind values.now) }
    requires apt_codec { AptCodec (stored_as kind values.now) codec }
    ensures { StoredAs (lent (column_by (code_of codec) (stored_as kind values.now)) (length out.old)) result out.old out.new }
{
    match codec {
        Codec::Bitpacked => put_bitpacked(kind, values, stats, out),
        Codec::Linear(line, bits) => put_linear(kind, values, stats, Fit { line, bits }, out),
        Codec::Blockwise => put_blockwise(kind, values, stats, out),
    }
}
