// A comparison's lines: a row's two answers.
ghost use Rattle.std.specs.Prelude.{◌≡◌, ◌+◌, ◌^◌, ◌≤◌, ◌<◌, length};
ghost use Rattle.format.specs.Outcome.{Wrote, pick};
ghost use Rattle.format.specs.Comparing.{equal_answers, absent, side_text, pair_line};
ghost use Rattle.text_compare.specs.Chunk.{pair_max, pair_text};
ghost use Rattle.format.specs.Refusals.{answered_by};

use format::{Refusal, equal_answers};
use text::lines::put_answer;
use text::put::{put_byte, put_decimal, put_text};

// How far a chunk is filled: so many lines, of so many bytes.
#[derive(Clone, Copy)]
pub(crate) struct Done {
    pub lines: u32,
    pub bytes: usize,
}

// Whether an answer says that there is no such row.
fn is_absent(answer: Result<u64, Refusal>) -> bool
    ensures { result ≡ absent (answered_by answer) }
{
    matches!(answer, Err(Refusal::NoSuchRow))
}

// Internal: asks for room of twenty bytes, and no answer takes more. Writes what a line says of one side, and returns the offset behind it.
fn put_side(out: &mut [u8], at: usize, answer: Result<u64, Refusal>) -> usize
    requires { at + 20 ≤ length out.old }
    ensures wrote { Wrote out.old at (side_text (answered_by answer)) out.new result }
    ensures upper_bound { result ≤ at + 20 }
{
    if is_absent(answer) {
        return put_text(out, at, b"none");
    }
    put_answer(out, at, answer)
}

// Internal: asks for room for a longest line. Writes a row's line at an offset, and returns the offset behind it.
#[tactic(auto, using(text::proofs::Texts::row_most))]
fn put_pair(
    out: &mut [u8],
    at: usize,
    row: u32,
    left: Result<u64, Refusal>,
    right: Result<u64, Refusal>,
) -> usize
    requires { at + pair_max ≤ length out.old }
    ensures wrote { Wrote out.old at (pair_line row (answered_by left) (answered_by right)) out.new result }
    ensures upper_bound { result ≤ at + pair_max }
{
    let number = put_decimal(out, at, row as u64);
    let first = put_byte(out, number, b' ');
    let between = put_side(out, first, left);
    let second = put_byte(out, between, b' ');
    let end = put_side(out, second, right);
    put_byte(out, end, b'\n')
}

// Internal: asks for room for a longest line, and that one more can be counted. A row further: its line, where the answers differ.
pub(crate) fn put_row(
    out: &mut [u8],
    done: Done,
    row: u32,
    left: Result<u64, Refusal>,
    right: Result<u64, Refusal>,
) -> Done
    requires pair_max_in_bounds { done.bytes + pair_max ≤ length out.old }
    requires lines_bound { done.lines + 1 < 2 ^ 32 }
    ensures wrote { Wrote out.old done.bytes (pair_text row (answered_by left) (answered_by right)) out.new result.bytes }
    ensures bytes_bound { result.bytes ≤ done.bytes + pair_max }
    ensures lines_value { result.lines ≡ done.lines + pick (equal_answers (answered_by left) (answered_by right)) 0 1 }
{
    if equal_answers(left, right) {
        return done;
    }
    let bytes = put_pair(out, done.bytes, row, left, right);
    Done {
        lines: done.lines + 1,
        bytes,
    }
}
