// Compares the columns of two files, named as arguments, as text on standard output. The text is the library's, `text_compare`, which hands
// it out chunk by chunk; this program moves bytes.
#![tactic(auto)]

ghost use Rattle.std.specs.Prelude.{◌≤◌, length};
ghost use Rattle.text_compare.specs.Way.{hand_max};

use text_compare::way;

// Internal: asks for a buffer that has room for the longest line, so that each turn is handed on. Writes the comparison of some bytes with
// others, a bufferful at a time, until a write fails.
fn write_comparison(rt: &impl Print, left: &[u8], right: &[u8], out: &mut [u8])
    requires { hand_max ≤ length out.old }
{
    let mut at = way::begin();
    while way::more(at) {
        let handed = way::fill(at, left, right, out);
        let n = handed.bytes;
        if !tool_files::write_all(rt, &out[..n]) {
            return;
        }
        at = handed.way;
    }
}

fn main(rt: HostRuntime) {
    let mut left = tool_files::column_room();
    let mut right = tool_files::column_room();
    let n = tool_files::read_named(&rt, 1, &mut left);
    let m = tool_files::read_named(&rt, 2, &mut right);
    let mut out = io::large_buffer();
    write_comparison(&rt, &left[..n], &right[..m], &mut out);
}
