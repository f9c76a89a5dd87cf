// Lines and answers as text, and the number of a refused opening.
ghost use Rattle.std.specs.Prelude.{◌≡◌, ◌+◌, ◌≤◌, ◌++◌, length};
ghost use Rattle.io.specs.Counts.{IsPrefixLen};
ghost use Rattle.format.specs.Outcome.{Wrote};
ghost use Rattle.format.specs.Listing.{named, named_line, answer_text};
ghost use Rattle.text.specs.Refused.{refused_by};
ghost use Rattle.format.specs.Refusals.{answered_by};

use crate::put::{put_byte, put_decimal, put_named};
use format::{Column, Refusal};

// The number of a refused opening; an opened column has none, and 0 stands for it.
pub fn refusal_number(opened: Result<(Column, Option<usize>), Refusal>) -> u8
    ensures { result ≡ refused_by (answered_by opened) }
{
    match opened {
        Ok(_) => 0,
        Err(refusal) => refusal.number(),
    }
}

// Internal: asks for a name of at most a hundred bytes, so that the line has room. Writes a name and a number as a line, and returns its length.
#[tactic(auto, using(crate::proofs::Texts::named_most, crate::proofs::Texts::counts))]
pub fn named_line(name: &[u8], n: u64, out: &mut [u8; 128]) -> usize
    requires { length name.now ≤ 100 }
    ensures wrote { Wrote out.old 0 (named_line name.now n) out.new result }
    ensures prefix_len { IsPrefixLen result out.new }
{
    let at = put_named(out, 0, name, n);
    put_byte(out, at, b'\n')
}

// Internal: asks for a name of at most a hundred bytes. Writes a name and the number of a refused opening as a line, and returns its length.
pub fn refused_line(
    name: &[u8],
    opened: Result<(Column, Option<usize>), Refusal>,
    out: &mut [u8; 128],
) -> usize
    requires { length name.now ≤ 100 }
    ensures wrote { Wrote out.old 0 (named_line name.now (refused_by (answered_by opened))) out.new result }
    ensures prefix_len { IsPrefixLen result out.new }
{
    named_line(name, refusal_number(opened) as u64, out)
}

// Internal: asks for names of at most forty bytes, so that the line has room. Writes two names, each with a number, as a line, and returns its length.
#[tactic(auto, using(crate::proofs::Texts::named_most, crate::proofs::Texts::counts))]
pub fn pair_line(first: &[u8], n: u64, second: &[u8], m: u64, out: &mut [u8; 128]) -> usize
    requires { (length first.now ≤ 40) × (length second.now ≤ 40) }
    ensures wrote { Wrote out.old 0 (named first.now n ++ named_line second.now m) out.new result }
    ensures prefix_len { IsPrefixLen result out.new }
{
    let behind = put_named(out, 0, first, n);
    let end = put_named(out, behind, second, m);
    put_byte(out, end, b'\n')
}

// Internal: asks for room of twenty bytes, and no answer takes more. Writes what a row answers, and returns the offset behind it.
pub fn put_answer(out: &mut [u8], at: usize, answer: Result<u64, Refusal>) -> usize
    requires { at + 20 ≤ length out.old }
    ensures wrote { Wrote out.old at (answer_text (answered_by answer)) out.new result }
    ensures upper_bound { result ≤ at + 20 }
{
    match answer {
        Ok(v) => put_decimal(out, at, v),
        Err(refusal) => put_named(out, at, b"refused ", refusal.number() as u64),
    }
}
