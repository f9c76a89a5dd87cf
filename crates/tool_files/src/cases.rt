// Files of cases, for the programs that show them: a case is the lengths of its parts, four bytes each, little end first, and then these.
ghost use Rattle.std.specs.Prelude.{◌≡◌, ◌+◌, ◌^◌, ◌≤◌, ◌<◌, length};
ghost use Rattle.tool_files.specs.Lengths.{four_bytes, length_at};

// Room for a file of cases, as long as they come.
pub fn room() -> [u8; 524288]
    ensures { length result ≡ 524288 }
{
    [0u8; 524288]
}

// Four bytes as a number, little end first.
fn joined(a: u8, b: u8, c: u8, d: u8) -> usize
    ensures { (result ≡ four_bytes a b c d) × (result < 2 ^ 32) }
{
    a as usize + 256 * (b as usize) + 65536 * (c as usize) + 16777216 * (d as usize)
}

// Internal: asks for four bytes from an offset on. The length that they spell.
pub fn length_at(file: &[u8], at: usize) -> usize
    requires { at + 4 ≤ length file.now }
    ensures { (result ≡ length_at file.now at) × (result < 2 ^ 32) }
{
    joined(file[at], file[at + 1], file[at + 2], file[at + 3])
}
