// Names the bytes at which the columns of two files, named as arguments, differ, with their parts and rows, as text on standard output. The
// text is the library's, `text_blame`, which hands it out chunk by chunk; this program moves bytes.
#![tactic(auto)]

ghost use Rattle.std.specs.Prelude.{◌≤◌, length};
ghost use Rattle.text_blame.specs.Way.{hand_max};

use text_blame::way;

// Internal: asks for a buffer that has room for the longest text of a byte, so that each turn is handed on. Writes the blame of some bytes
// and others, a bufferful at a time, until a write fails.
fn write_blame(rt: &impl Print, left: &[u8], right: &[u8], out: &mut [u8])
    requires { hand_max ≤ length out.old }
{
    let mut at = way::begin();
    while way::more(at) {
        let handed = way::fill(at, left, right, out);
        let n = handed.bytes;
        if !tool_files::write_all(rt, &out[..n]) {
            return;
        }
        at = handed.way;
    }
}

fn main(rt: HostRuntime) {
    let mut left = tool_files::column_room();
    let mut right = tool_files::column_room();
    let n = tool_files::read_named(&rt, 1, &mut left);
    let m = tool_files::read_named(&rt, 2, &mut right);
    let mut out = io::large_buffer();
    write_blame(&rt, &left[..n], &right[..m], &mut out);
}
