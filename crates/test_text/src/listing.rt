// A case of `list`.
ghost use Rattle.std.specs.Prelude.{◌≤◌, length};
ghost use Rattle.text_list.specs.Way.{hand_max};

use text_list::way;

// Internal: asks for a buffer that has room for the longest line, so that each turn is handed some text. Writes the listing of some bytes,
// a bufferful at a time, until a write fails.
fn write_listing(rt: &impl Print, bytes: &[u8], out: &mut [u8])
    requires { hand_max ≤ length out.old }
{
    let mut at = way::begin();
    while way::more(at) {
        let handed = way::fill(at, bytes, out);
        let n = handed.bytes;
        if !tool_files::write_all(rt, &out[..n]) {
            return;
        }
        at = handed.way;
    }
}

// Writes a title and the listing of some bytes, through a small buffer.
pub(crate) fn show(rt: &impl Print, title: &[u8], bytes: &[u8]) {
    tool_files::write_all(rt, title);
    let mut out = io::buffer();
    write_listing(rt, bytes, &mut out);
}
