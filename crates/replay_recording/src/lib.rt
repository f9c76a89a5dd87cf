// What a recording holds: its header, its records and its row numbers, each looked at where it stands. A number that leaves the recording is 0, so no call asks for anything.
#![tactic(auto)]

ghost use Rattle.std.specs.Prelude.{◌≡◌, ◌&&◌, ◌||◌, ◌+◌, ◌*◌, ◌^◌, ◌<◌, leb, eqb};
ghost use Rattle.format.specs.Replaying.{number_at, header_of, record_at, listed_at, apart, placed, regions, is_recording};

use format::{Recorded, Recording};

// The number that four bytes stand for, little end first.
fn joined(a: u8, b: u8, c: u8, d: u8) -> u32
    ensures { result ≡ a + 256 * (b + 256 * (c + 256 * d)) }
{
    a as u32 + 256 * (b as u32 + 256 * (c as u32 + 256 * (d as u32)))
}

// The number in four bytes at an offset.
fn four_at(recording: &[u8], at: usize) -> u32
    ensures { result ≡ number_at 4 recording.now at }
{
    let long = recording.len();
    if long < 4 {
        return 0;
    }
    if long - 4 < at {
        return 0;
    }
    joined(
        recording[at],
        recording[at + 1],
        recording[at + 2],
        recording[at + 3],
    )
}

// The number in eight bytes.
fn eight_at(recording: &[u8], at: usize) -> u64
    ensures { result ≡ number_at 8 recording.now at }
{
    let long = recording.len();
    if long < 8 {
        return 0;
    }
    if long - 8 < at {
        return 0;
    }
    let low = four_at(recording, at) as u64;
    let high = four_at(recording, at + 4) as u64;
    low + 0x1_0000_0000 * high
}

// The header.
pub fn header_of(recording: &[u8]) -> Recording
    ensures { result ≡ header_of recording.now }
{
    Recording {
        records: four_at(recording, 0),
        start: four_at(recording, 4),
        numbers: four_at(recording, 8),
        list: four_at(recording, 12),
    }
}

// Record k.
pub fn record_at(recording: &[u8], head: Recording, k: u32) -> Recorded
    ensures { result ≡ record_at head recording.now k }
{
    let at = head.start as usize + 32 * (k as usize);
    Recorded {
        low: eight_at(recording, at),
        high: eight_at(recording, at + 8),
        first: four_at(recording, at + 16),
        end: four_at(recording, at + 20),
        place: four_at(recording, at + 24),
        many: four_at(recording, at + 28),
    }
}

// The row number n places behind a place of the list.
pub fn listed_at(recording: &[u8], head: Recording, place: u32, n: u32) -> u32
    ensures { result ≡ listed_at head recording.now (place + n) }
{
    four_at(
        recording,
        head.list as usize + 4 * (place as usize + n as usize),
    )
}

// Internal: asks for a region that can be counted. Whether a region of n entries, of so many bytes together, lies behind the header, in a recording of so many bytes.
fn in_place(n: u32, bytes: u64, at: u32, long: usize) -> bool
    requires { bytes < 2 ^ 40 }
    ensures { result ≡ (eqb n 0 || (leb 16 at && leb (at + bytes) long)) }
{
    if n == 0 {
        return true;
    }
    if at < 16 {
        return false;
    }
    at as u64 + bytes <= long as u64
}

// Whether the two regions do not overlap.
fn are_apart(head: Recording) -> bool
    ensures { result ≡ apart head }
{
    if head.records == 0 {
        return true;
    }
    if head.numbers == 0 {
        return true;
    }
    let start = head.start as u64;
    let list = head.list as u64;
    if start + 32 * (head.records as u64) <= list {
        return true;
    }
    list + 4 * (head.numbers as u64) <= start
}

// Whether record k's row numbers stand in the list.
fn stands(recording: &[u8], head: Recording, k: u32) -> bool
    ensures { result ≡ leb ((record_at head recording.now k).place + (record_at head recording.now k).many) head.numbers }
{
    let item = record_at(recording, head, k);
    item.place as u64 + item.many as u64 <= head.numbers as u64
}

// Whether every record's do.
fn all_stand(recording: &[u8], head: Recording) -> bool
    ensures { result ≡ placed head recording.now 0 head.records }
{
    (0..head.records).all(|k| stands(recording, head, k))
}

// Whether the regions lie where they may.
fn regions_fit(head: Recording, long: usize) -> bool
    ensures { result ≡ regions head long }
{
    if !in_place(head.records, 32 * (head.records as u64), head.start, long) {
        return false;
    }
    if !in_place(head.numbers, 4 * (head.numbers as u64), head.list, long) {
        return false;
    }
    are_apart(head)
}

// Whether a recording is one: one pass over its records.
pub fn is_recording(recording: &[u8]) -> bool
    ensures { result ≡ is_recording recording.now }
{
    if recording.len() < 16 {
        return false;
    }
    let head = header_of(recording);
    if !regions_fit(head, recording.len()) {
        return false;
    }
    all_stand(recording, head)
}
