// The names of parts in words.
ghost use Rattle.std.specs.Prelude.{◌+◌, ◌≤◌, ◌<◌, length, ◌≡◌};
ghost use Rattle.format.specs.Outcome.{Wrote};
ghost use Rattle.text_explain.specs.Explained.{name_max, name_text};
ghost use Rattle.text_explain.specs.Words.{word_start, word, before};

use byte_part::naming::{block_of, which_part};
use format::PartName;
use text::put::{put_named, put_text};

// Where the words of each name begin among all names' words, in the order of `which_part`, and where the last end.
const STARTS: [usize; 16] = [0, 4, 11, 14, 19, 23, 28, 37, 42, 46, 52, 58, 68, 74, 79, 92];

// Internal: asks for a name's number, or the one behind the last. Where the words of name `which` begin.
fn start_of(which: usize) -> usize
    requires { which < 16 }
    ensures { result ≡ word_start which }
{
    STARTS[which]
}

// Internal: asks for a name's number, and for room for its words. Writes them, and returns the offset behind them.
fn put_word(out: &mut [u8], at: usize, which: usize) -> usize
    requires which_bound { which < 15 }
    requires which_in_bounds { at + length (word which) ≤ length out.old }
    ensures { Wrote out.old at (word which) out.new result }
{
    let words =
        *b"codeminimumgcdcountrowsslopeinterceptwidthareabehind slope intercept widthsparefooter length";
    let start = start_of(which);
    let end = start_of(which + 1);
    put_text(out, at, &words[start..end])
}

// Internal: asks for room. Writes the block that the words of its field follow, and returns the offset behind it; nothing for a name that is no block's.
fn put_block(out: &mut [u8], at: usize, which: usize, block: u32) -> usize
    requires { at + length (before which block) ≤ length out.old }
    ensures { Wrote out.old at (before which block) out.new result }
{
    if which < 10 {
        return at;
    }
    if 12 < which {
        return at;
    }
    put_named(out, at, b"block ", block as u64)
}

// Internal: asks for room for a longest name. Writes a part's name, and returns the offset behind it.
pub fn put_name(out: &mut [u8], at: usize, name: PartName) -> usize
    requires { at + name_max ≤ length out.old }
    ensures wrote { Wrote out.old at (name_text name) out.new result }
    ensures upper_bound { result ≤ at + name_max }
{
    let which = which_part(name) as usize;
    let behind = put_block(out, at, which, block_of(name));
    put_word(out, behind, which)
}
