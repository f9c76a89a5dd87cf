// Standard input, files that a program's arguments name, and standard output.
#![tactic(auto)]

pub mod cases;

ghost use Rattle.std.specs.Prelude.{◌≡◌, length};
ghost use Rattle.io.specs.Counts.{IsPrefixLen};

use std::env::Env;
use std::fs;
use std::io::Read;
use std::rt::Files;

// Room for a column, and a byte more than a program takes of it, so that a longer one is told by its length. A function of its own: what calls it need not carry the
// array's entries through its proof.
pub fn column_room() -> [u8; 65537]
    ensures { length result ≡ 65537 }
{
    [0u8; 65537]
}

// Reads into the bytes until they are full, the input ends or a read fails, and returns how many it put at their start.
fn read_full(from: &mut impl Read, bytes: &mut [u8]) -> usize
    ensures { IsPrefixLen result bytes.new }
{
    let mut done = 0;
    while done < bytes.len() {
        match from.read(&mut bytes[done..]) {
            Ok(0) | Err(_) => break,
            Ok(n) => done += n,
        }
    }
    done
}

// Reads what a reader gives, as far as there is room, and returns how many bytes there are; where it cannot be read to its end, there are none.
fn read_whole(from: &mut impl Read, bytes: &mut [u8]) -> usize
    ensures { IsPrefixLen result bytes.new }
{
    let n = read_full(from, bytes);
    // A read that fails ends `read_full` as the end of the file does; reading on tells them apart.
    let mut more = [0u8; 1];
    if from.read(&mut more).is_err() {
        return 0;
    }
    n
}

// Reads standard input so.
pub fn read_input(rt: &impl Input, bytes: &mut [u8]) -> usize
    ensures { IsPrefixLen result bytes.new }
{
    read_whole(&mut rt.reader(), bytes)
}

// Puts an argument at the start of the bytes and returns its length: 0 where it is missing, or longer than there is room.
pub fn read_argument(rt: &impl Env, argument: usize, bytes: &mut [u8]) -> usize
    ensures { IsPrefixLen result bytes.new }
{
    rt.arg(argument, bytes).unwrap_or(0)
}

// Reads the file that is so named.
fn read_file(rt: &impl Files, name: &[u8], bytes: &mut [u8]) -> usize
    ensures { IsPrefixLen result bytes.new }
{
    let Ok(path) = str::from_utf8(name) else {
        return 0;
    };
    match fs::open(rt, path) {
        Ok(mut file) => read_whole(&mut file, bytes),
        Err(_) => 0,
    }
}

// Reads the file that an argument names so. One that cannot be opened has no bytes; so has a missing argument, whose name is empty.
pub fn read_named(rt: &(impl Env + Files), argument: usize, bytes: &mut [u8]) -> usize
    ensures { IsPrefixLen result bytes.new }
{
    let mut name = io::buffer();
    let long = read_argument(rt, argument, &mut name);
    read_file(rt, &name[..long], bytes)
}

// Writes all of the bytes to standard output; false where a write fails, when some of them may have been written.
pub fn write_all(rt: &impl Print, bytes: &[u8]) -> bool {
    rt.write_all(bytes).is_ok()
}
