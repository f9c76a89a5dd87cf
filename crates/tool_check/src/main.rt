// Checks a column against a list of values: the sheet, the column's file and the values' file are its arguments. It writes the verdict on standard output. The text is the
// library's, `text_check`; this program moves bytes.
#![tactic(auto)]

// Writes the verdict.
fn write_verdict(rt: &impl Print, sheet: &[u8], bytes: &[u8], file: &[u8]) {
    let mut values = [0u64; 65536];
    let mut line = [0u8; 128];
    let n = text_check::judge(sheet, bytes, file, &mut values, &mut line);
    tool_files::write_all(rt, &line[..n]);
}

// Room for a file of values, and a byte more than is taken of it.
fn values_room() -> [u8; 524289] {
    [0u8; 524289]
}

fn main(rt: HostRuntime) {
    let mut sheet = io::buffer();
    let long = tool_files::read_argument(&rt, 1, &mut sheet);
    let mut bytes = tool_files::column_room();
    let mut file = values_room();
    let n = tool_files::read_named(&rt, 2, &mut bytes);
    let m = tool_files::read_named(&rt, 3, &mut file);
    write_verdict(&rt, &sheet[..long], &bytes[..n], &file[..m]);
}
