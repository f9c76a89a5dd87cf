// The choice of a codec: the smallest of those listed, and of equals the one that is listed first.
//
// One walk over the list is enough, and a codec is sized where it is met first: a codec that is not listed costs no pass over the values, and a
// repeat none either, for its first occurrence stands before it with the same size. Blockwise, where it is the only one, is not sized at all.
ghost use Rattle.std.specs.Prelude.{◌≡◌, true, List, [], ◌∷◌, ℕ, ◌≤◌};
ghost use Rattle.format.specs.Outcome.{Outcome.value};
ghost use Rattle.format.specs.Writing.{size_of, smaller, chosen, known, codec_of};
ghost use Rattle.format.specs.Typed.{stored_as};
ghost use Rattle.stats.specs.Asked.{Describes};
ghost use Rattle.write_codec.specs.Choice.{place_meaning, best_meaning, Apt, Stands, Names, sized_by, met_in, marking, Walked};

use format::{Codec, ColumnStats, Kind};

// The best codec of some, with its size. Linear comes with the line and the width that it was sized by.
#[derive(Clone, Copy)]
pub struct Best {
    pub codec: Codec,
    pub size: u64,
}

// The codecs that a walk over the list has met.
#[derive(Clone, Copy)]
struct Met {
    bitpacked: bool,
    linear: bool,
    blockwise: bool,
}

// Where such a walk stands.
#[derive(Clone, Copy)]
struct Walk {
    best: Option<Best>,
    met: Met,
}

// The first place of a byte that names no codec.
#[tactic(auto, using(crate::proofs::Choosing::unknown_found))]
pub fn unknown(codecs: &[u8]) -> Option<usize>
    ensures { place_meaning result ≡ known 0 codecs.now }
{
    codecs.iter().position(|code| 2 < *code)
}

// Of two, the one with the least size; on equal sizes, the first.
fn smaller_of(a: Option<Best>, b: Option<Best>) -> Option<Best>
    ensures { (best_meaning result ≡ smaller (best_meaning a) (best_meaning b)) × ((vs : List ℕ) → Apt vs a → Apt vs b → Apt vs result) }
{
    let Some(first) = a else {
        return b;
    };
    let Some(other) = b else {
        return a;
    };
    if first.size <= other.size { a } else { b }
}

// Linear with its size, where it applies.
#[tactic(auto, using(crate::proofs::Sizes::unsized_stored))]
fn sized_linear(kind: Kind, values: &[u64], stats: ColumnStats) -> Option<Best>
    requires { Describes stats (stored_as kind values.now) }
    ensures { Stands (stored_as kind values.now) (sized_by stats (stored_as kind values.now) 1) result }
{
    if values.len() < 512 {
        return None;
    }
    let fit = linear_estimator::fit_of(kind, values);
    let size = linear_estimator::estimate(stats, fit) as u64;
    let line = fit.line;
    let codec = Codec::Linear(line, fit.bits);
    Some(Best { codec, size })
}

// Internal: asks for the values' own statistics, and for the number of a codec. This codec with its size, where it applies.
pub fn sized(kind: Kind, values: &[u64], stats: ColumnStats, code: u8) -> Option<Best>
    requires describes { Describes stats (stored_as kind values.now) }
    requires code_bound { code ≤ 2 }
    ensures { Stands (stored_as kind values.now) (sized_by stats (stored_as kind values.now) code) result }
{
    match code {
        0 => {
            let size = bitpacked_estimator::estimate(stats) as u64;
            Some(Best {
                codec: Codec::Bitpacked,
                size,
            })
        }
        1 => sized_linear(kind, values, stats),
        _ => {
            let size = blockwise_estimator::estimate(kind, values, stats);
            Some(Best {
                codec: Codec::Blockwise,
                size,
            })
        }
    }
}

// Whether a codec was met.
fn is_met(met: Met, code: u8) -> bool
    requires { code ≤ 2 }
    ensures { result ≡ met_in met code }
{
    match code {
        0 => met.bitpacked,
        1 => met.linear,
        _ => met.blockwise,
    }
}

// With one codec more.
fn marked(met: Met, code: u8) -> Met
    requires { code ≤ 2 }
    ensures { result ≡ marking met code }
{
    match code {
        0 => Met {
            bitpacked: true,
            linear: met.linear,
            blockwise: met.blockwise,
        },
        1 => Met {
            bitpacked: met.bitpacked,
            linear: true,
            blockwise: met.blockwise,
        },
        _ => Met {
            bitpacked: met.bitpacked,
            linear: met.linear,
            blockwise: true,
        },
    }
}

// One listed codec further.
fn advance(kind: Kind, values: &[u64], stats: ColumnStats, walk: Walk, code: u8) -> Walk
    requires describes { Describes stats (stored_as kind values.now) }
    requires code_bound { code ≤ 2 }
    requires walked { Walked stats (stored_as kind values.now) walk }
    ensures { Walked stats (stored_as kind values.now) result × (best_meaning result.best ≡ smaller (best_meaning walk.best) (sized_by stats (stored_as kind values.now) code)) }
{
    let best = walk.best;
    let met = walk.met;
    if is_met(met, code) {
        return walk;
    }
    let better = smaller_of(best, sized(kind, values, stats, code));
    let more = marked(met, code);
    Walk {
        best: better,
        met: more,
    }
}

// The listed codec that takes least, with its size.
fn choose(kind: Kind, values: &[u64], stats: ColumnStats, codecs: &[u8]) -> Option<Best>
    requires describes { Describes stats (stored_as kind values.now) }
    requires codecs_value { known 0 codecs.now ≡ value tt }
    ensures { Stands (stored_as kind values.now) (chosen (λ c. size_of c stats (stored_as kind values.now)) codecs.now) result }
{
    let mut walk = Walk {
        best: None,
        met: Met {
            bitpacked: false,
            linear: false,
            blockwise: false,
        },
    };
    for code in codecs {
        walk = advance(kind, values, stats, walk, *code);
    }
    walk.best
}

// Whether a list is told to hold Blockwise alone; one that is told does.
#[tactic(auto, using(crate::proofs::Choosing::alone))]
fn only_blockwise(codecs: &[u8]) -> bool
    ensures { result ≡ true → codecs.now ≡ 2 ∷ [] }
{
    if codecs.len() == 1 {
        return codecs[0] == 2;
    }
    false
}

// Internal: asks for the values' own statistics, and that each byte of the list names a codec. The listed codec that takes least. To size Blockwise
// is to fit every block, which writing does again, so it is spared where there is nothing to compare.
#[tactic(auto, using(crate::proofs::Choosing::names_best))]
pub fn codec_for(kind: Kind, values: &[u64], stats: ColumnStats, codecs: &[u8]) -> Option<Codec>
    requires describes { Describes stats (stored_as kind values.now) }
    requires codecs_value { known 0 codecs.now ≡ value tt }
    ensures { Names (stored_as kind values.now) (codec_of (chosen (λ c. size_of c stats (stored_as kind values.now)) codecs.now)) result }
{
    if only_blockwise(codecs) {
        return Some(Codec::Blockwise);
    }
    choose(kind, values, stats, codecs).map(|best| best.codec)
}
