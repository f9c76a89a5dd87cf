// Shows the cases of a file, each below its title, through the calls that the programs make; a case's first number says which. tools/answers/texts.py
// wrote the file, and says what has to be printed.
#![tactic(auto)]

mod comparing;
mod listing;

ghost use Rattle.std.specs.Prelude.{◌<◌, length};

use tool_files::cases::length_at;

// Writes a title, and the report of a replay.
fn show_replay(rt: &impl Print, title: &[u8], bytes: &[u8], recording: &[u8]) {
    tool_files::write_all(rt, title);
    let mut line = [0u8; 128];
    let n = text_replay::report(bytes, recording, &mut line);
    tool_files::write_all(rt, &line[..n]);
}

// Writes a title, and the verdict on a column.
fn show_check(rt: &impl Print, title: &[u8], sheet: &[u8], bytes: &[u8], listed: &[u8]) {
    tool_files::write_all(rt, title);
    let mut values = [0u64; 65536];
    let mut line = [0u8; 128];
    let n = text_check::judge(sheet, bytes, listed, &mut values, &mut line);
    tool_files::write_all(rt, &line[..n]);
}

// Shows a case of `list` (a column), of `compare` (two columns and their windows), of `replay` (a column and a recording) or of `check` (a sheet, a column and values).
fn show(rt: &impl Print, word: usize, title: &[u8], first: &[u8], second: &[u8], third: &[u8]) {
    match word {
        0 => listing::show(rt, title, first),
        1 => comparing::show_case(rt, title, first, second, third),
        2 => show_replay(rt, title, first, second),
        _ => show_check(rt, title, first, second, third),
    }
}

// Internal: asks for an offset within the file. Shows the case that begins there: its word, the lengths of its title and of three pieces, then these. Returns
// the offset behind it, or the file's end where it is cut off.
fn show_case(rt: &impl Print, file: &[u8], at: usize) -> usize
    requires { at < length file.now }
    ensures { at < result }
{
    let size = file.len();
    if size - at < 20 {
        return size;
    }
    let title = at + 20;
    let first = title + length_at(file, at + 4);
    let second = first + length_at(file, at + 8);
    let third = second + length_at(file, at + 12);
    let end = third + length_at(file, at + 16);
    if size < end {
        return size;
    }
    show(
        rt,
        length_at(file, at),
        &file[title..first],
        &file[first..second],
        &file[second..third],
        &file[third..end],
    );
    end
}

// Shows the cases of a file.
fn show_all(rt: &impl Print, file: &[u8]) {
    let size = file.len();
    let mut at = 0;
    while at < size {
        at = show_case(rt, file, at);
    }
}

fn main(rt: HostRuntime) {
    let mut file = tool_files::cases::room();
    let n = tool_files::read_named(&rt, 1, &mut file);
    show_all(&rt, &file[..n]);
}
