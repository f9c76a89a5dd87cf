// A line over row numbers in whole numbers modulo 2^64, its training on a list of values, and its bytes.
#![tactic(auto)]

ghost use Rattle.std.specs.Prelude.{◌≡◌, [], ◌∷◌, ◌++◌, ◌+◌, ◌≤◌, ◌<◌, length};
ghost use Rattle.format.specs.Outcome.{Wrote};
ghost use Rattle.format.specs.Word.{mod_sub};
ghost use Rattle.format.specs.Line.{line_at, slope_of, nearer, intercept_of, trained, spell_line};
ghost use Rattle.format.specs.Opening.{read_fields};
ghost use Rattle.format.specs.Refusals.{answered_by};

use format::{Fields, Line, Refusal};

// The line at x.
pub fn eval(l: Line, x: u64) -> u64
    ensures { result ≡ line_at l x }
{
    let product = word::mul(x, l.slope);
    let climb = word::sign_extend((product >> 32) as u32);
    word::add(l.intercept, climb)
}

// What is left of y above the line at x, modulo 2^64.
pub fn residual(l: Line, x: u64, y: u64) -> u64
    ensures { result ≡ mod_sub y (line_at l x) }
{
    word::sub(y, eval(l, x))
}

// Internal: asks for a step. The slope that leads from y0 to yl in so many steps.
fn slope_of(y0: u64, yl: u64, steps: u64) -> u64
    requires { 0 < steps }
    ensures { result ≡ slope_of y0 yl steps }
{
    let rise = word::sub(yl, y0);
    if rise <= 0x8000_0000_0000_0000 {
        if rise < 0x8000_0000 {
            return rise * 0x1_0000_0000 / steps;
        }
        return 0;
    }
    let fall = word::sub(y0, yl);
    if fall < 0x8000_0000 {
        return u64::MAX - fall * 0x1_0000_0000 / steps;
    }
    0
}

// Of two numbers the one that is met first going up from base, modulo 2^64.
fn nearer_of(base: u64, a: u64, b: u64) -> u64
    ensures { result ≡ nearer base a b }
{
    if word::sub(a, base) <= word::sub(b, base) {
        a
    } else {
        b
    }
}

// Internal: asks for a value. The intercept of the line with this slope: of the values' offsets from it, the one that is met first
// going up from 2^32 - 1 below the first value.
fn intercept_of(ys: &[u64], slope: u64) -> u64
    requires { 0 < length ys.now }
    ensures { result ≡ intercept_of slope ys.now }
{
    let line = Line {
        slope,
        intercept: 0,
    };
    let base = word::sub(ys[0], 0xffff_ffff);
    let mut best = residual(line, 0, ys[0]);
    for i in 1..ys.len() {
        let offset = residual(line, i as u64, ys[i]);
        best = nearer_of(base, best, offset);
    }
    best
}

// The line that training on ys gives.
pub fn train(ys: &[u64]) -> Line
    ensures { result ≡ trained ys.now }
{
    let n = ys.len();
    if n < 2 {
        return Line {
            slope: 0,
            intercept: 0,
        };
    }
    let last = n - 1;
    let slope = slope_of(ys[0], ys[last], last as u64);
    let intercept = intercept_of(ys, slope);
    Line { slope, intercept }
}

// How many bytes a line takes.
pub fn len(l: Line) -> usize
    ensures { result ≡ length (spell_line l) }
{
    vint::len(l.slope) + vint::len(l.intercept)
}

// Internal: asks for room. Writes a line at an offset, and returns the offset behind it.
pub fn write(out: &mut [u8], at: usize, l: Line) -> usize
    requires { at + length (spell_line l) ≤ length out.old }
    ensures { Wrote out.old at (spell_line l) out.new result }
{
    let next = vint::write(out, at, l.slope);
    vint::write(out, next, l.intercept)
}

// The line and the width byte at an offset.
#[tactic(auto, unfolding(format::specs::Opening::read_fields, format::specs::Opening::read_width))]
pub fn fields_read(s: &[u8], at: usize) -> Result<Fields, Refusal>
    ensures { answered_by result ≡ read_fields s.now at }
{
    let slope = vint::read(s, at)?;
    let intercept = vint::read(s, slope.next)?;
    let place = intercept.next;
    if s.len() <= place {
        return Err(Refusal::BadField { offset: place });
    }
    let bits = s[place];
    if bits > 56 && bits != 64 {
        return Err(Refusal::IllegalWidth { offset: place });
    }
    Ok(Fields {
        line: Line {
            slope: slope.value,
            intercept: intercept.value,
        },
        bits,
        next: place + 1,
        longer: slope.longer.or(intercept.longer),
    })
}

// Internal: asks for room. Writes a line and its width byte at an offset, and returns the offset behind them.
pub fn fields_write(out: &mut [u8], at: usize, line: Line, bits: u8) -> usize
    requires { at + length (spell_line line) + 1 ≤ length out.old }
    ensures { Wrote out.old at (spell_line line ++ (bits ∷ [])) out.new result }
{
    let place = write(out, at, line);
    out[place] = bits;
    place + 1
}
