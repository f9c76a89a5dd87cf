// The varint: a number in one to ten bytes, seven bits a byte, lowest first, and 128 added to the last. It is read at an
// offset, measured, and written.
//
// Reading takes spellings that are longer than they need be, of up to ten bytes, and says so; writing gives the shortest.
#![tactic(auto)]

ghost use Rattle.std.specs.Prelude.{◌≡◌, ◌+◌, ◌^◌, ◌≤◌, ◌<◌, length};
ghost use Rattle.format.specs.Outcome.{Wrote};
ghost use Rattle.format.specs.Varint.{read_varint, spell};
ghost use Rattle.vint.specs.Meaning.{spelled_by, tenth_at};
ghost use Rattle.format.specs.Refusals.{answered_by};

use format::{Field, Refusal};

// The offset of a number whose last byte comes behind so many others, if it is spelled in more bytes than it need be: exactly if there
// are others and the last one adds nothing to them.
fn spelled(at: usize, others: usize, last: u8) -> Option<usize>
    ensures { result ≡ spelled_by at others last }
{
    if last != 128 {
        return None;
    }
    if others == 0 {
        return None;
    }
    Some(at)
}

// Internal: asks for a number below 2^63, which nine bytes from an offset on stand for; none of them ends the varint there. The byte at `pos`, the tenth, must:
// it may add one bit.
fn tenth(s: &[u8], at: usize, number: u64, pos: usize) -> Result<Field, Refusal>
    requires { number < 2 ^ 63 }
    ensures { answered_by result ≡ tenth_at s.now at number pos }
{
    if s.len() <= pos {
        return Err(Refusal::BadField { offset: at });
    }
    let b = s[pos];
    if b == 128 {
        return Ok(Field {
            value: number,
            next: pos + 1,
            used: 10,
            longer: Some(at),
        });
    }
    if b == 129 {
        return Ok(Field {
            value: number + 0x8000_0000_0000_0000,
            next: pos + 1,
            used: 10,
            longer: None,
        });
    }
    Err(Refusal::BadField { offset: at })
}

// The varint at an offset. It is refused where the bytes end before it does, where no byte of ten ends it, and where it is
// 2^64 or more: nine bytes hold 63 bits.
pub fn read(s: &[u8], at: usize) -> Result<Field, Refusal>
    ensures { answered_by result ≡ read_varint s.now at }
{
    let mut number: u64 = 0;
    let mut scale: u64 = 1;
    let mut pos = at;
    for used in 0..9 {
        if s.len() <= pos {
            return Err(Refusal::BadField { offset: at });
        }
        let last = s[pos];
        let b = word::wide(last);
        if 128 <= b {
            return Ok(Field {
                value: number + (b - 128) * scale,
                next: pos + 1,
                used: used + 1,
                longer: spelled(at, used, last),
            });
        }
        number += b * scale;
        scale *= 128;
        pos += 1;
    }
    tenth(s, at, number, pos)
}

// How many bytes the shortest spelling of a number takes.
pub fn len(v: u64) -> usize
    ensures { result ≡ length (spell v) }
{
    let mut rest = v;
    let mut n: usize = 0;
    while 128 <= rest {
        rest = rest / 128;
        n += 1;
    }
    n + 1
}

// Internal: asks for room. Writes the shortest spelling of a number at an offset, and returns the offset behind it.
pub fn write(out: &mut [u8], at: usize, v: u64) -> usize
    requires { at + length (spell v) ≤ length out.old }
    ensures { Wrote out.old at (spell v) out.new result }
{
    let mut rest = v;
    let mut pos = at;
    while 128 <= rest {
        out[pos] = (rest % 128) as u8;
        rest = rest / 128;
        pos += 1;
    }
    out[pos] = (rest + 128) as u8;
    pos + 1
}
