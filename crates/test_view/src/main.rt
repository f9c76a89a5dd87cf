// Opens the columns of a file of cases for a view, each below its title, and asks the view for its rows; then the same by the calls on plain parameters. tools/answers/views.py wrote the
// file, and says what has to be printed.
#![tactic(auto)]

ghost use Rattle.std.specs.Prelude.{◌<◌, ◌≤◌, length};
ghost use Rattle.test_view.specs.Asked.{AskedAs};

use format::{Column, Refusal};
use text::lines::{named_line, pair_line};
use tool_files::cases::length_at;

// What a view of some bytes answers: its opening, its row count, and a row.
#[derive(Clone, Copy)]
struct Asked {
    answer: Result<(Column, Option<usize>), Refusal>,
    rows: u32,
    read: Result<u64, Refusal>,
}

// Opens a view, and asks it for its row count and a row. All that the program does with a view stands here.
fn ask(sheet: u32, bytes: &[u8], row: u32) -> Asked
    ensures { AskedAs sheet bytes.now row result }
{
    let opening = view::open(sheet, bytes);
    let rows = view::rows(opening.view);
    let read = view::row(opening.view, row);
    Asked {
        answer: opening.answer,
        rows,
        read,
    }
}

// Internal: asks for a name of at most forty bytes. Writes a row and what it answers as a line.
fn show_read(rt: &impl Print, name: &[u8], row: u32, read: Result<u64, Refusal>)
    requires { length name.now ≤ 40 }
{
    let mut line = [0u8; 128];
    let n = match read {
        Ok(v) => pair_line(name, row as u64, b" ", v, &mut line),
        Err(refusal) => pair_line(
            name,
            row as u64,
            b" refused ",
            refusal.number() as u64,
            &mut line,
        ),
    };
    tool_files::write_all(rt, &line[..n]);
}

// Writes the number of a refused opening as a line, and of a column nothing.
fn show_refused(rt: &impl Print, answer: Result<(Column, Option<usize>), Refusal>) {
    let mut line = [0u8; 128];
    if let Err(refusal) = answer {
        let n = named_line(b"refused ", refusal.number() as u64, &mut line);
        tool_files::write_all(rt, &line[..n]);
    }
}

// Writes how many rows a view has.
fn show_count(rt: &impl Print, rows: u32) {
    let mut line = [0u8; 128];
    let n = named_line(b"rows ", rows as u64, &mut line);
    tool_files::write_all(rt, &line[..n]);
}

// Writes what a view answers of a row.
fn show_row(rt: &impl Print, sheet: u32, bytes: &[u8], row: u32) {
    let asked = ask(sheet, bytes, row);
    show_read(rt, b"row ", row, asked.read);
}

// Of each row, and of the one behind them.
fn show_rows(rt: &impl Print, sheet: u32, bytes: &[u8], rows: u32) {
    for i in 0..=rows {
        show_row(rt, sheet, bytes, i);
    }
}

// Writes what a column answers of a row without a view.
fn show_plain_row(rt: &impl Print, column: Column, bytes: &[u8], row: u32) {
    let read = view::row_of(column, bytes, row);
    show_read(rt, b"plain row ", row, read);
}

// Of each row, and of the one behind them.
fn show_plain_rows(rt: &impl Print, column: Column, bytes: &[u8]) {
    for i in 0..=column.window.rows {
        show_plain_row(rt, column, bytes, i);
    }
}

// The same of what opens without a view, or the refusal.
fn show_plain(rt: &impl Print, sheet: u32, bytes: &[u8]) {
    let answer = view::open_plain(sheet, bytes);
    match answer {
        Ok((column, _)) => show_plain_rows(rt, column, bytes),
        Err(_) => show_refused(rt, answer),
    }
}

// Writes a title, what a view of some bytes answers, and what the plain calls do.
fn show(rt: &impl Print, title: &[u8], sheet: u32, bytes: &[u8]) {
    tool_files::write_all(rt, title);
    let asked = ask(sheet, bytes, 0);
    show_refused(rt, asked.answer);
    show_count(rt, asked.rows);
    show_rows(rt, sheet, bytes, asked.rows);
    show_plain(rt, sheet, bytes);
}

// Internal: asks for an offset within the file. Shows the case that begins there: the lengths of its title and its column, the sheet, then title and column. Returns the offset
// behind it, or the file's end where it is cut off.
fn show_case(rt: &impl Print, file: &[u8], at: usize) -> usize
    requires { at < length file.now }
    ensures { at < result }
{
    let size = file.len();
    if size - at < 12 {
        return size;
    }
    let title = at + 12;
    let column = title + length_at(file, at);
    let end = column + length_at(file, at + 4);
    if size < end {
        return size;
    }
    show(
        rt,
        &file[title..column],
        length_at(file, at + 8) as u32,
        &file[column..end],
    );
    end
}

// Shows the cases of a file.
fn show_all(rt: &impl Print, file: &[u8]) {
    let size = file.len();
    let mut at = 0;
    // No range: each case says where the next one begins.
    while at < size {
        at = show_case(rt, file, at);
    }
}

fn main(rt: HostRuntime) {
    let mut file = tool_files::cases::room();
    let n = tool_files::read_named(&rt, 1, &mut file);
    show_all(&rt, &file[..n]);
}
