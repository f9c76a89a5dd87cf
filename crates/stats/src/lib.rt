// The head of a column, which holds its statistics, and what is worked out of them: the bounds, and the value so many steps above the least.
#![tactic(auto)]

ghost use Rattle.std.specs.Option.{option_or};
ghost use Rattle.std.specs.Prelude.{◌≡◌, ◌+◌, ◌*◌, ◌^◌, ◌≤◌, ◌<◌, ltb, length};
ghost use Rattle.format.specs.Outcome.{Wrote};
ghost use Rattle.format.specs.Reading.{scaled};
ghost use Rattle.format.specs.Stats.{count_of, spell_head, read_head};
ghost use Rattle.stats.specs.Asked.{Sound};
ghost use Rattle.format.specs.Refusals.{answered_by};

use format::{Column, ColumnRow, ColumnStats, Field, Head, Refusal};

// Internal: asks for a gcd above 0 and a minimum that is not above the maximum. How many steps of the gcd lead from the minimum to the maximum.
pub fn count_of(stats: ColumnStats) -> u64
    requires { Sound stats }
    ensures { result ≡ count_of stats }
{
    (stats.maximum - stats.minimum) / stats.gcd
}

// Internal: asks for the same statistics. How many bytes their head takes.
pub fn head_len(stats: ColumnStats) -> usize
    requires { Sound stats }
    ensures { result ≡ length (spell_head stats) }
{
    let count = count_of(stats);
    vint::len(stats.minimum)
        + vint::len(stats.gcd)
        + vint::len(count)
        + vint::len(stats.rows as u64)
}

// Internal: asks for the same statistics, and for room. Writes their head at an offset, and returns the offset behind it.
pub fn head_write(out: &mut [u8], at: usize, stats: ColumnStats) -> usize
    requires { Sound stats × (at + length (spell_head stats) ≤ length out.old) }
    ensures { Wrote out.old at (spell_head stats) out.new result }
{
    let count = count_of(stats);
    let mut next = vint::write(out, at, stats.minimum);
    next = vint::write(out, next, stats.gcd);
    next = vint::write(out, next, count);
    vint::write(out, next, stats.rows as u64)
}

// Whether the maximum that a head states, minimum + count * gcd, is a number of 64 bits. Two factors below 2^32 are multiplied, which is what nearly
// all columns come to. Else the room above the minimum is divided by the gcd: a difference and a quotient of numbers of 64 bits have 64 bits too, so
// nothing can wrap.
pub fn bounds_fit(minimum: u64, count: u64, gcd: u64) -> bool
    ensures { result ≡ ltb (minimum + count * gcd) (2 ^ 64) }
{
    if gcd <= 0xffff_ffff {
        if count <= 0xffff_ffff {
            return count * gcd <= u64::MAX - minimum;
        }
    }
    if gcd == 0 {
        return true;
    }
    count <= (u64::MAX - minimum) / gcd
}

// Internal: asks for a maximum of 64 bits. The value so many steps of the gcd above the minimum, which stands in a row of the column.
pub fn scaled(column: Column, row: ColumnRow, multiple: u64) -> Result<u64, Refusal>
    requires { column.minimum + column.count * column.gcd < 2 ^ 64 }
    ensures { answered_by result ≡ scaled column row.0 multiple }
{
    if column.count < multiple {
        return Err(Refusal::OutOfBounds { row: row.0 });
    }
    Ok(column.minimum + column.gcd * multiple)
}

// The first of the head's numbers that is spelled longer than need be, by its offset.
fn spelled(minimum: Field, gcd: Field, count: Field, rows: Field) -> Option<usize>
    ensures { result ≡ option_or minimum.longer (option_or gcd.longer (option_or count.longer rows.longer)) }
{
    let later = gcd.longer.or(count.longer.or(rows.longer));
    minimum.longer.or(later)
}

// The head after the code byte, field by field.
#[tactic(auto, unfolding(format::specs::Stats::read_head))]
pub fn head_read(s: &[u8]) -> Result<Head, Refusal>
    ensures { answered_by result ≡ read_head s.now }
{
    let minimum = vint::read(s, 1)?;
    let gcd = vint::read(s, minimum.next)?;
    if gcd.value == 0 {
        return Err(Refusal::GcdZero);
    }
    let count = vint::read(s, gcd.next)?;
    if !bounds_fit(minimum.value, count.value, gcd.value) {
        return Err(Refusal::OutOfRange);
    }
    let rows = vint::read(s, count.next)?;
    if rows.value > 0xffff_ffff {
        return Err(Refusal::OutOfRange);
    }
    Ok(Head {
        minimum: minimum.value,
        gcd: gcd.value,
        count: count.value,
        rows: rows.value as u32,
        next: rows.next,
        longer: spelled(minimum, gcd, count, rows),
    })
}
