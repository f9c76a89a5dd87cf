// Columns that the Rust wrote, with their lists: each list is written again and held to its column byte by byte, and each column is checked against its list under sheet 2, which
// what is written passes. tools/answers/written.py takes the cases out of the stored answers, and says what has to be printed.
#![tactic(auto)]

ghost use Rattle.std.specs.Prelude.{◌≡◌, ◌≤◌, ◌<◌, length};

use format::Kind;
use text::lines::named_line;
use tool_files::cases::length_at;

// The longest list, the longest column, and the blocks of such a list.
const VALUES: usize = 1056;

const BYTES: usize = 8704;

const BLOCKS: usize = 3;

// The kind of a case's values, by its number.
fn kind_of(number: usize) -> Kind {
    match number {
        1 => Kind::I64,
        2 => Kind::Date,
        3 => Kind::Bool,
        4 => Kind::F64,
        _ => Kind::U64,
    }
}

// Internal: asks for the list's length, which it keeps. Puts words of eight bytes each, little end first, into its front while it has room; how many.
fn take(words: &[u8], values: &mut [u64; VALUES]) -> usize
    requires { length values.old ≡ 1056 }
    ensures { (result ≤ 1056) × (length values.new ≡ 1056) }
{
    let n = (words.len() / 8).min(VALUES);
    for i in 0..n {
        values[i] = bitpacker::get(words, 64, i as u32);
    }
    n
}

// Writes a list, and says whether the column is just what is written, or the refusal.
fn show_written(rt: &impl Print, kind: Kind, values: &[u64], codecs: &[u8], column: &[u8]) {
    let mut out = [0u8; BYTES];
    match u64_based::serialize_as(kind, values, codecs, &mut out) {
        Err(why) => {
            let mut line = [0u8; 128];
            let n = named_line(b"refused ", why.number() as u64, &mut line);
            tool_files::write_all(rt, &line[..n]);
        }
        Ok(n) => {
            if n == column.len() && out.starts_with(column) {
                tool_files::write_all(rt, b"written as stored\n");
            } else {
                tool_files::write_all(rt, b"written otherwise\n");
            }
        }
    }
}

// Says whether a column is passed for a list.
fn show_checked(rt: &impl Print, kind: Kind, values: &[u64], column: &[u8]) {
    let opened = open_column::open_plain_under(2, column, BLOCKS);
    if check_verdict::verdict_on(kind, opened, column, values).is_ok() {
        tool_files::write_all(rt, b"yes\n");
    } else {
        tool_files::write_all(rt, b"no\n");
    }
}

// Writes a case's title, and what is said of its list and its column; a list that is refused has none.
fn show_list(
    rt: &impl Print,
    title: &[u8],
    kind: Kind,
    values: &[u64],
    codecs: &[u8],
    column: &[u8],
) {
    tool_files::write_all(rt, title);
    show_written(rt, kind, values, codecs, column);
    if 0 < column.len() {
        show_checked(rt, kind, values, column);
    }
}

// The same, of a list as its words and a kind as its number.
fn show(rt: &impl Print, title: &[u8], kind: usize, codecs: &[u8], words: &[u8], column: &[u8]) {
    let mut values = [0u64; VALUES];
    let n = take(words, &mut values);
    show_list(rt, title, kind_of(kind), &values[..n], codecs, column);
}

// Internal: asks for an offset within the file. Shows the case that begins there: the lengths of its title, its codecs, its values and its column, the number of its kind, then these. Returns the offset
// behind it, or the file's end where it is cut off.
fn show_case(rt: &impl Print, file: &[u8], at: usize) -> usize
    requires { at < length file.now }
    ensures { at < result }
{
    let size = file.len();
    if size - at < 20 {
        return size;
    }
    let title = at + 20;
    let codecs = title + length_at(file, at);
    let words = codecs + length_at(file, at + 4);
    let column = words + length_at(file, at + 8);
    let end = column + length_at(file, at + 12);
    if size < end {
        return size;
    }
    show(
        rt,
        &file[title..codecs],
        length_at(file, at + 16),
        &file[codecs..words],
        &file[words..column],
        &file[column..end],
    );
    end
}

// Shows the cases of a file.
fn show_all(rt: &impl Print, file: &[u8]) {
    let size = file.len();
    let mut at = 0;
    while at < size {
        at = show_case(rt, file, at);
    }
}

fn main(rt: HostRuntime) {
    let mut file = tool_files::cases::room();
    let n = tool_files::read_named(&rt, 1, &mut file);
    show_all(&rt, &file[..n]);
}
