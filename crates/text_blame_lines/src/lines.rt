// The lines of a blame.
ghost use Rattle.std.specs.Prelude.{◌+◌, ◌≤◌, ◌++◌, length};
ghost use Rattle.io.specs.Counts.{IsPrefixLen};
ghost use Rattle.format.specs.Listing.{ascii, named, named_line, answer_text};
ghost use Rattle.format.specs.Outcome.{Wrote};
ghost use Rattle.text_blame_lines.specs.Bytes.{lengths_line, field_line, part_name, byte_line, both_line};
ghost use Rattle.format.specs.Refusals.{answered_by};

use format::{Part, PartName, Refusal};
use text::lines::{pair_line, put_answer};
use text::put::{put_byte, put_named};
use text_explain::words::put_name;

// Writes the line of two lengths at the start of a line, and returns its length.
#[tactic(auto, unfolding(crate::specs::Bytes::lengths_line))]
pub fn lengths_line(left: usize, right: usize, line: &mut [u8; 128]) -> usize
    ensures wrote { Wrote line.old 0 (lengths_line left right) line.new result }
    ensures prefix_len { IsPrefixLen result line.new }
{
    pair_line(b"lengths differ ", left as u64, b" ", right as u64, line)
}

// Writes the line of a field that differs at the start of a line, and returns its length.
pub fn field_line(offset: usize, name: PartName, line: &mut [u8; 128]) -> usize
    ensures wrote { Wrote line.old 0 (field_line offset name) line.new result }
    ensures prefix_len { IsPrefixLen result line.new }
{
    let number = put_named(line, 0, b"fields differ at byte ", offset as u64);
    let space = put_byte(line, number, b' ');
    let words = put_name(line, space, name);
    put_byte(line, words, b'\n')
}

// Writes the last line, with two counts, at the start of a line, and returns its length.
pub fn count_line(bytes: usize, rows: u64, line: &mut [u8; 128]) -> usize
    ensures wrote { Wrote line.old 0 (named (ascii "bytes ") bytes ++ named_line (ascii " rows ") rows) line.new result }
    ensures prefix_len { IsPrefixLen result line.new }
{
    pair_line(b"bytes ", bytes as u64, b" rows ", rows, line)
}

// Internal: asks for room of twenty-six bytes, and no name takes more. Writes the name of the part that was found, and returns the offset behind it.
fn put_part(out: &mut [u8], at: usize, part: Result<Part, Refusal>) -> usize
    requires { at + 26 ≤ length out.old }
    ensures wrote { Wrote out.old at (part_name (answered_by part)) out.new result }
    ensures upper_bound { result ≤ at + 26 }
{
    match part {
        Ok(part) => put_name(out, at, part.name),
        Err(refusal) => put_named(out, at, b"refused ", refusal.number() as u64),
    }
}

// Internal: asks for room of fifty-three bytes, and no line takes more. Writes the line of a byte, and returns the offset behind it.
pub fn put_byte_line(out: &mut [u8], at: usize, offset: usize, part: Result<Part, Refusal>) -> usize
    requires { at + 53 ≤ length out.old }
    ensures wrote { Wrote out.old at (byte_line offset (answered_by part)) out.new result }
    ensures upper_bound { result ≤ at + 53 }
{
    let number = put_named(out, at, b"byte ", offset as u64);
    let space = put_byte(out, number, b' ');
    let words = put_part(out, space, part);
    put_byte(out, words, b'\n')
}

// Internal: asks for room of twenty-one bytes, and no answer takes more. Writes what a row answers behind a space, and returns the offset behind it.
fn put_spaced(out: &mut [u8], at: usize, answer: Result<u64, Refusal>) -> usize
    requires { at + 21 ≤ length out.old }
    ensures wrote { Wrote out.old at (ascii " " ++ answer_text (answered_by answer)) out.new result }
    ensures upper_bound { result ≤ at + 21 }
{
    let space = put_byte(out, at, b' ');
    put_answer(out, space, answer)
}

// Internal: asks for room of fifty-seven bytes, and no line takes more. Writes the line of a row, and returns the offset behind it.
pub fn put_row(
    out: &mut [u8],
    at: usize,
    row: u32,
    left: Result<u64, Refusal>,
    right: Result<u64, Refusal>,
) -> usize
    requires { at + 57 ≤ length out.old }
    ensures wrote { Wrote out.old at (both_line row (answered_by left) (answered_by right)) out.new result }
    ensures upper_bound { result ≤ at + 57 }
{
    let number = put_named(out, at, b"row ", row as u64);
    let first = put_spaced(out, number, left);
    let second = put_spaced(out, first, right);
    put_byte(out, second, b'\n')
}
