// The listing's lines: the first, a refusal's, and a row's.
ghost use Rattle.std.specs.Prelude.{◌≡◌, ℕ, ◌+◌, ◌*◌, ◌^◌, ◌≤◌, ◌<◌, ◌++◌, length};
ghost use Rattle.io.specs.Counts.{IsPrefixLen};
ghost use Rattle.format.specs.Outcome.{Wrote};
ghost use Rattle.format.specs.Listing.{ascii, named, named_line, row_line, code_of};
ghost use Rattle.text_list.specs.Beginning.{column_line};
ghost use Rattle.text_list.specs.Chunk.{line_max};
ghost use Rattle.format.specs.Refusals.{answered_by};

use format::{Codec, Column, Refusal};
use text::lines::{named_line, put_answer};
use text::put::{put_byte, put_decimal, put_named};

// A codec's number.
fn code_of(codec: Codec) -> u8
    ensures { result ≡ code_of codec }
{
    match codec {
        Codec::Bitpacked => 0,
        Codec::Linear(_, _) => 1,
        Codec::Blockwise => 2,
    }
}

// Internal: asks for room of seventy-six bytes, and they take no more. Writes the bounds in a first line and its line feed at an offset, and returns the line's length.
#[tactic(auto, using(text::proofs::Texts::named_most, text::proofs::Texts::counts))]
fn put_bounds(line: &mut [u8; 128], at: usize, min: u64, max: u64, gcd: u64) -> usize
    requires { at + 76 ≤ 128 }
    ensures wrote { Wrote line.old at (named (ascii " min ") min ++ (named (ascii " max ") max ++ (named (ascii " gcd ") gcd ++ ascii "\n"))) line.new result }
    ensures prefix_len { IsPrefixLen result line.new }
{
    let a = put_named(line, at, b" min ", min);
    let b = put_named(line, a, b" max ", max);
    let c = put_named(line, b, b" gcd ", gcd);
    put_byte(line, c, b'\n')
}

// Internal: asks for a maximum of 64 bits. Writes the first line of an opened column at the start of a line, and returns its length.
#[tactic(auto, using(text::proofs::Texts::named_most, text::proofs::Texts::counts))]
pub(crate) fn column_line(column: Column, line: &mut [u8; 128]) -> usize
    requires { column.minimum + column.gcd * column.count < 2 ^ 64 }
    ensures wrote { Wrote line.old 0 (column_line column) line.new result }
    ensures prefix_len { IsPrefixLen result line.new }
{
    let codec = column.codec;
    let max = column.minimum + column.gcd * column.count;
    let rows = put_named(line, 0, b"codec ", code_of(codec) as u64);
    let min = put_named(line, rows, b" rows ", column.rows as u64);
    put_bounds(line, min, column.minimum, max, column.gcd)
}

// Writes a refusal's line at the start of a line, and returns its length.
pub(crate) fn refused_line(number: u8, out: &mut [u8; 128]) -> usize
    ensures wrote { Wrote out.old 0 (named_line (ascii "refused ") number) out.new result }
    ensures prefix_len { IsPrefixLen result out.new }
{
    named_line(b"refused ", number as u64, out)
}

// Internal: asks for room for a longest line. Writes a row's line at an offset, and returns the offset behind it.
#[tactic(auto, using(text::proofs::Texts::row_most))]
pub(crate) fn put_row(out: &mut [u8], at: usize, row: u32, answer: Result<u64, Refusal>) -> usize
    requires { at + line_max ≤ length out.old }
    ensures wrote { Wrote out.old at (row_line (λ (_ : ℕ). answered_by answer) row) out.new result }
    ensures upper_bound { result ≤ at + line_max }
{
    let number = put_decimal(out, at, row as u64);
    let space = put_byte(out, number, b' ');
    let end = put_answer(out, space, answer);
    put_byte(out, end, b'\n')
}
