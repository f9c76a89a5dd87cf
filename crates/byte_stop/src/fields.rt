// Fields: the head, and a line with its width.
ghost use Rattle.std.specs.Prelude.{◌≡◌};
ghost use Rattle.format.specs.Refusals.{paper};
ghost use Rattle.format.specs.Stops.{during, reach_head, reach_fields};
ghost use Rattle.format.specs.Varint.{read_varint};
ghost use Rattle.byte_stop.specs.Meaning.{reached_by};

use format::{Field, Fields, Head, Line, PartName, Refusal, Stop};

// The names of a line's two parts and of its width's.
#[derive(Clone, Copy)]
pub struct Names {
    pub slope: PartName,
    pub intercept: PartName,
    pub width: PartName,
}

// Where a refusal of a part arose.
fn refused(refusal: Refusal, name: PartName, first: usize) -> Stop
    ensures { result ≡ record { number = (paper refusal).0; name = name; first = first } }
{
    Stop {
        number: refusal.number(),
        name,
        first,
    }
}

// A number that is a part of its own. Put where it is called: it hands a result on in another shape, and a call would copy it twice.
#[inline(always)]
fn number(s: &[u8], name: PartName, at: usize) -> Result<Field, Stop>
    ensures { reached_by result ≡ during name at (read_varint s.now at) }
{
    vint::read(s, at).map_err(|refusal| refused(refusal, name, at))
}

// The head after the code byte, field by field.
#[tactic(auto, unfolding(format::specs::Stops::reach_head))]
pub(crate) fn head(s: &[u8]) -> Result<Head, Stop>
    ensures { reached_by result ≡ reach_head s.now }
{
    let minimum = number(s, PartName::Minimum, 1)?;
    let gcd = number(s, PartName::Gcd, minimum.next)?;
    if gcd.value == 0 {
        return Err(refused(Refusal::GcdZero, PartName::Gcd, minimum.next));
    }
    let count = number(s, PartName::Count, gcd.next)?;
    if !stats::bounds_fit(minimum.value, count.value, gcd.value) {
        return Err(refused(Refusal::OutOfRange, PartName::Count, gcd.next));
    }
    let rows = number(s, PartName::Rows, count.next)?;
    if rows.value > 0xffff_ffff {
        return Err(refused(Refusal::OutOfRange, PartName::Rows, count.next));
    }
    Ok(Head {
        minimum: minimum.value,
        gcd: gcd.value,
        count: count.value,
        rows: rows.value as u32,
        next: rows.next,
        longer: minimum
            .longer
            .or(gcd.longer.or(count.longer.or(rows.longer))),
    })
}

// The line and the width byte at an offset.
#[tactic(auto, unfolding(format::specs::Stops::reach_fields, format::specs::Opening::read_width))]
pub(crate) fn fields(s: &[u8], at: usize, names: Names) -> Result<Fields, Stop>
    ensures { reached_by result ≡ reach_fields names.slope names.intercept names.width s.now at }
{
    let slope = number(s, names.slope, at)?;
    let intercept = number(s, names.intercept, slope.next)?;
    let place = intercept.next;
    let name = names.width;
    if s.len() <= place {
        return Err(refused(Refusal::BadField { offset: place }, name, place));
    }
    let bits = s[place];
    if bits > 56 && bits != 64 {
        return Err(refused(Refusal::IllegalWidth { offset: place }, name, place));
    }
    Ok(Fields {
        line: Line {
            slope: slope.value,
            intercept: intercept.value,
        },
        bits,
        next: place + 1,
        longer: slope.longer.or(intercept.longer),
    })
}
