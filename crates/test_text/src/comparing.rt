// A case of `compare`, each column through a window.
ghost use Rattle.std.specs.Prelude.{ℕ, ◌+◌, ◌≤◌, List, length};
ghost use Rattle.text_compare.specs.Way.{hand_max};
ghost use Rattle.text_column.specs.Own.{Owned};

use format::{Window, WindowRow};
use text_column::own::Own;
use text_compare::way;
use tool_files::cases::length_at;

// The windows of the two sides.
#[derive(Clone, Copy)]
struct Windows {
    left: Window,
    right: Window,
}

// Internal: asks for eight bytes from an offset on. The window that they spell: its first row, and how many rows.
fn window_at(windows: &[u8], at: usize) -> Window
    requires { at + 8 ≤ length windows.now }
{
    Window {
        first: length_at(windows, at) as u32,
        rows: length_at(windows, at + 4) as u32,
    }
}

// A column narrowed to a window; as it was, where that is refused.
fn narrowed(own: Own, window: Window) -> Own
    ensures { (s : List ℕ) → Owned s own.column own.pass → Owned s result.column result.pass }
{
    match text_column::own::narrow(own, WindowRow(window.first), window.rows) {
        Ok(narrow) => narrow,
        Err((_, whole)) => whole,
    }
}

// Internal: asks for two columns, each opened of its bytes, and for a buffer that has room for the longest line. Writes their comparison, a
// bufferful at a time, until a write fails.
fn write_rows(rt: &impl Print, own: Own, left: &[u8], its: Own, right: &[u8], out: &mut [u8])
    requires owned { Owned left.now own.column own.pass }
    requires owned_2 { Owned right.now its.column its.pass }
    requires hand_max_in_bounds { hand_max ≤ length out.old }
{
    let mut at = way::over(own, its);
    while way::more(at) {
        let handed = way::fill(at, left, right, out);
        let n = handed.bytes;
        if !tool_files::write_all(rt, &out[..n]) {
            return;
        }
        at = handed.way;
    }
}

// Writes a title and the comparison of some bytes with others, each through its window.
fn show(rt: &impl Print, title: &[u8], left: &[u8], right: &[u8], windows: Windows) {
    tool_files::write_all(rt, title);
    let mut line = [0u8; 128];
    match text_compare::begin(left, right, &mut line) {
        Err(n) => {
            tool_files::write_all(rt, &line[..n]);
        }
        Ok((own, its)) => {
            let a = narrowed(own, windows.left);
            let b = narrowed(its, windows.right);
            let mut out = io::buffer();
            write_rows(rt, a, left, b, right, &mut out);
        }
    }
}

// The same with the windows as they are spelled: the left one's first row and how many rows, and then the right one's. Fewer bytes are no case.
pub(crate) fn show_case(rt: &impl Print, title: &[u8], left: &[u8], right: &[u8], windows: &[u8]) {
    if windows.len() < 16 {
        return;
    }
    let spelled = Windows {
        left: window_at(windows, 0),
        right: window_at(windows, 8),
    };
    show(rt, title, left, right, spelled);
}
