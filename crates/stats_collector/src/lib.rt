// The statistics of a list: least and greatest value, gcd of the differences, number of values.
#![tactic(auto)]

ghost use Rattle.std.specs.Prelude.{◌≡◌, true, ◌+◌, ◌^◌, ◌≤◌, ◌<◌, min, max, length};
ghost use Rattle.format.specs.Stats.{gcd, distance, stats_of};
ghost use Rattle.format.specs.Typed.{stored_as};
ghost use Rattle.word.specs.Divisors.{Ready};
ghost use Rattle.stats_collector.specs.Rests.{Rest};

use format::{ColumnStats, Kind};
use word::divisor::{Divisor, divides, ready};

// What was seen of a list: the least and the greatest of its values before a place.
#[derive(Clone, Copy)]
struct Seen {
    lo: u64,
    hi: u64,
    next: usize,
}

// The greatest common divisor, by Euclid's rule.
fn gcd_of(a: u64, b: u64) -> u64
    ensures { result ≡ gcd a b }
{
    let mut large = a;
    let mut small = b;
    while small != 0 {
        let rest = large % small;
        large = small;
        small = rest;
    }
    large
}

// How far two numbers are apart.
fn apart(a: u64, b: u64) -> u64
    ensures { result ≡ distance a b }
{
    if a < b { b - a } else { a - b }
}

// The gcd of a distance and of those before it, made ready to divide by.
fn joined(a: u64, b: u64, g: u64) -> Divisor
    ensures { (result.by ≡ gcd (distance a b) g) × Ready result }
{
    ready(gcd_of(apart(a, b), g))
}

// Whether a distance is told to leave the gcd of those before it as it is; where it is told, it does. With 1 any does, and none is worked out.
fn stays(a: u64, b: u64, g: Divisor) -> bool
    requires { Ready g }
    ensures { result ≡ true → g.by ≡ gcd (distance a b) g.by }
{
    if g.by == 1 {
        return true;
    }
    divides(g, apart(a, b))
}

// What was seen, with one value more.
fn extended(seen: Seen, v: u64) -> Seen
    requires { seen.next + 1 < 2 ^ 64 }
    ensures { (result.lo ≡ min seen.lo v) × (result.hi ≡ max seen.hi v) × (result.next ≡ seen.next + 1) }
{
    Seen {
        lo: word::lesser(seen.lo, v),
        hi: word::larger(seen.hi, v),
        next: seen.next + 1,
    }
}

// What was seen, with the values that follow, up to the first that may change the gcd. What works out another gcd stands outside of this loop, which the
// compiler then copies for a gcd of 1 and for each kind.
fn run(kind: Kind, values: &[u64], first: u64, g: Divisor, from: Seen) -> Seen
    requires ready { Ready g }
    requires rest { Rest (stored_as kind values.now) first g.by from }
    ensures { Rest (stored_as kind values.now) first g.by result × (from.next ≤ result.next) }
{
    let mut seen = from;
    for i in from.next..values.len() {
        let v = monotonic_mapping::stored_of(kind, values[i]);
        if !stays(v, first, g) {
            return seen;
        }
        seen = extended(seen, v);
    }
    seen
}

// Internal: asks for fewer than 2^32 values. The statistics of the numbers that they are stored as.
pub fn collect(kind: Kind, values: &[u64]) -> ColumnStats
    requires { length values.now < 2 ^ 32 }
    ensures { result ≡ stats_of (stored_as kind values.now) }
{
    let n = values.len();
    if n == 0 {
        return ColumnStats {
            minimum: 0,
            maximum: 0,
            gcd: 1,
            rows: 0,
        };
    }
    let first = monotonic_mapping::stored_of(kind, values[0]);
    let mut seen = Seen {
        lo: first,
        hi: first,
        next: 1,
    };
    let mut g = ready(0);
    while seen.next < n {
        let v = monotonic_mapping::stored_of(kind, values[seen.next]);
        g = joined(v, first, g.by);
        seen = run(kind, values, first, g, extended(seen, v));
    }
    ColumnStats {
        minimum: seen.lo,
        maximum: seen.hi,
        gcd: word::larger(g.by, 1),
        rows: n as u32,
    }
}
