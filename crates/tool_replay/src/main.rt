// Replays a recording over a column, both files named as arguments, and writes what that reports on standard output. The text is the library's, `text_replay`; this
// program moves bytes.
#![tactic(auto)]

// Writes the report of a replay.
fn write_report(rt: &impl Print, bytes: &[u8], recording: &[u8]) {
    let mut line = [0u8; 128];
    let n = text_replay::report(bytes, recording, &mut line);
    tool_files::write_all(rt, &line[..n]);
}

// Room for a recording, and a byte more than is taken of it.
fn recording_room() -> [u8; 262145] {
    [0u8; 262145]
}

fn main(rt: HostRuntime) {
    let mut bytes = tool_files::column_room();
    let mut recording = recording_room();
    let n = tool_files::read_named(&rt, 1, &mut bytes);
    let m = tool_files::read_named(&rt, 2, &mut recording);
    write_report(&rt, &bytes[..n], &recording[..m]);
}
