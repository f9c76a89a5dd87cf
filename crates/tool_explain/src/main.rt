// Lists the parts of the column on standard input as text on standard output. The text is the library's, `text_explain`, which hands it out
// chunk by chunk; this program moves bytes.
#![tactic(auto)]

ghost use Rattle.std.specs.Prelude.{◌≤◌, length};
ghost use Rattle.text_explain.specs.Way.{hand_max};

use text_explain::way;

// Internal: asks for a buffer that has room for the longest line, so that each turn is handed on. Writes the explanation of some bytes, a
// bufferful at a time, until a write fails.
fn write_explanation(rt: &impl Print, bytes: &[u8], out: &mut [u8])
    requires { hand_max ≤ length out.old }
{
    let mut at = way::begin();
    while way::more(at) {
        let handed = way::fill(at, bytes, out);
        let n = handed.bytes;
        if !tool_files::write_all(rt, &out[..n]) {
            return;
        }
        at = handed.way;
    }
}

fn main(rt: HostRuntime) {
    let mut bytes = tool_files::column_room();
    let n = tool_files::read_input(&rt, &mut bytes);
    let mut out = io::large_buffer();
    write_explanation(&rt, &bytes[..n], &mut out);
}
