// Looking rows up: a walk whose first pass counts the rows in the range, and whose second stores them, reading only where the count leaves open which they are. `sweeping` is one pass for both, where few are found.
#![tactic(auto)]

ghost use Rattle.std.specs.Prelude.{◌≡◌, Bool, true, false, List, ℕ, ◌+◌, ◌-◌, ◌%◌, ◌^◌, ◌≤◌, ◌<◌, length, Ok};
ghost use Rattle.std.proofs.lemmas.List.Edits.{sets};
ghost use Rattle.format.specs.Outcome.{Outcome, pick};
ghost use Rattle.format.specs.Lookup.{looked_up, within};
ghost use Rattle.read_chunk.specs.Rows.{rows_among};
ghost use Rattle.read_lookup.specs.Rests.{rows_from, DoneAs};
ghost use Rattle.read_lookup.specs.Sweeps.{blockless};
ghost use Rattle.read_walk.specs.Walks.{Kept.rows_of, next_chunk, Going, left, InPass, Walking, Keeps};

pub mod sweeping;

use format::{Block, Codec, Column, Window, WindowRow};
use read_chunk::cut;
use read_walk::Walk;

// Internal: asks for rows below 2^32, and no more entries before `at` than rows before `row`. Stores the rows whose values lie in the range, the first value's row being `row`, from entry `at` on, where the list has
// room for them, and returns the entry behind them. The values are lost.
fn store_within(
    values: &mut [u64],
    low: u64,
    high: u64,
    row: u32,
    found: &mut [u32],
    at: usize,
) -> usize
    requires { (row + length values.old ≤ 2 ^ 32) × (at ≤ row) }
    ensures value { result ≡ at + length (rows_among (within low high) row values.old) }
    ensures found_after { result ≤ length found.old → found.new ≡ sets found.old at (rows_among (within low high) row values.old) }
{
    let n = read_scan::gather_rows(values, low, high, row);
    let end = at + n;
    if end <= found.len() {
        read_scan::copy_rows(&values[..n], found, at);
    }
    end
}

// How a lookup of the rows from `first` to `end`, cut to a window's rows, begins; where there are none, it is over.
pub fn begin(window: Window, first: u32, end: u32) -> Walk
    ensures { (read : ℕ → Outcome ℕ) (test : ℕ → Bool) (list : List ℕ) → Walking (rows_of test) read window (looked_up read window.rows test first end (length list)) list result list }
{
    let last = cut(end, window.rows);
    Walk {
        base: window.first,
        first,
        end: last,
        at: first,
        n: 0,
        storing: false,
        going: first < last,
        answer: Ok(0),
    }
}

// Internal: asks for rows below 2^32, and no more entries before `at` than rows before `row`. How many of the rows lie in the range, the first value's row being `row`; in a pass that stores they are stored
// from entry `at` on, where the list has room for them, and the values are lost.
fn keep(
    storing: bool,
    values: &mut [u64],
    low: u64,
    high: u64,
    row: u32,
    found: &mut [u32],
    at: usize,
) -> usize
    requires { (row + length values.old ≤ 2 ^ 32) × (at ≤ row) }
    ensures value { result ≡ length (rows_among (within low high) row values.old) }
    ensures found_after { (storing ≡ true → at + result ≤ length found.old) → found.new ≡ pick storing (sets found.old at (rows_among (within low high) row values.old)) found.old }
{
    if !storing {
        return read_scan::count_within(values, low, high);
    }
    store_within(values, low, high, row, found, at) - at
}

// One turn through a buffer of the chunk's size.
fn step_through(
    column: Column,
    blocks: usize,
    block: Block,
    bytes: &[u8],
    low: u64,
    high: u64,
    w: Walk,
    values: &mut [u64],
    found: &mut [u32],
) -> Walk
    requires { Going w × (w.base ≡ column.window.first) × (w.end ≤ column.window.rows) × (length values.old ≡ next_chunk w) }
    ensures keeps { Keeps (rows_of (within low high)) column blocks block bytes.now w result found.old found.new }
    ensures result_bound { left result < left w }
{
    let size = values.len();
    let decoded = read_row::reader::decode(column, blocks, block, bytes, WindowRow(w.at), values);
    let room = found.len();
    let storing = read_walk::stores(w, decoded);
    let n = keep(storing, values, low, high, w.at, found, w.n);
    read_walk::behind(w, decoded, size, n, room)
}

// Internal: asks for a lookup that is going on over rows of the window. One turn that reads the chunk at hand, with its block out of a table of so many.
fn step_reading(
    column: Column,
    blocks: usize,
    block: Block,
    bytes: &[u8],
    low: u64,
    high: u64,
    w: Walk,
    found: &mut [u32],
) -> Walk
    requires { Going w × (w.base ≡ column.window.first) × (w.end ≤ column.window.rows) }
    ensures keeps { Keeps (rows_of (within low high)) column blocks block bytes.now w result found.old found.new }
    ensures result_bound { left result < left w }
{
    let mut buffer = [0u64; 512];
    let size = read_walk::chunk_of(w);
    step_through(
        column,
        blocks,
        block,
        bytes,
        low,
        high,
        w,
        &mut buffer[..size],
        found,
    )
}

// Internal: asks for a lookup that is going on. Whether the rows left lie in one chunk, and a list with so much room has an entry for each.
fn is_single(w: Walk, room: usize) -> bool
    requires { Going w }
    ensures { result ≡ true → (w.end - w.at ≤ 512 - (w.base + w.at) % 512) × (w.end - w.at ≤ room) }
{
    let rows = (w.end - w.at) as usize;
    if read_walk::chunk_of(w) < rows {
        return false;
    }
    rows <= room
}

// Internal: asks for a lookup that is going on. While it has found nothing, the rows done are left out of what it walks over, so that the second pass does not come back to them; and where the rows left lie in one chunk,
// there is no second pass: they are stored as they are found.
fn trimmed(w: Walk, room: usize) -> Walk
    requires { Going w }
    ensures going { Going result × (result.base ≡ w.base) × (result.end ≡ w.end) × (result.at ≡ w.at) × (left result ≤ left w) }
    ensures by_index { (test : ℕ → Bool) (read : ℕ → Outcome ℕ) (window : Window) (o : Outcome (List ℕ)) (before list : List ℕ) → room ≡ length before → Walking (rows_of test) read window o before w list → Walking (rows_of test) read window o before result list }
{
    if w.storing {
        return w;
    }
    if w.n != 0 {
        return w;
    }
    let answer = w.answer;
    let storing = is_single(w, room);
    Walk {
        base: w.base,
        first: w.at,
        end: w.end,
        at: w.at,
        n: 0,
        storing,
        going: true,
        answer,
    }
}

// Internal: asks for room, and for rows below 2^32. Stores `n` rows, one after the other, the first being `row`, from entry `at` on.
fn put_all(found: &mut [u32], at: usize, row: u32, n: usize)
    requires { (at + n ≤ length found.old) × (row + n ≤ 2 ^ 32) }
    ensures { found.new ≡ sets found.old at (rows_from row n) }
{
    for (i, entry) in found[at..at + n].iter_mut().enumerate() {
        *entry = row + i as u32;
    }
}

// Internal: asks for a lookup that is going on. Whether its second pass, which is to find `total` rows, is done without reading: none is left to find, or as many as there are rows left,
// which are then stored.
fn is_done(w: Walk, total: usize, found: &mut [u32]) -> bool
    requires { Going w }
    ensures { (test : ℕ → Bool) (read : ℕ → Outcome ℕ) (window : Window) (o : Outcome (List ℕ)) (before : List ℕ) → w.storing ≡ true → 512 < w.end - w.first → w.answer ≡ Ok total → InPass (rows_of test) read window o before w found.old → DoneAs result o w.answer before found.old found.new }
{
    if total <= w.n {
        return true;
    }
    if total - w.n != (w.end - w.at) as usize {
        return false;
    }
    if found.len() < total {
        return false;
    }
    put_all(found, w.n, w.at, total - w.n);
    true
}

// Internal: asks for a lookup that is going on. Whether it is done without reading more rows, by what its first pass counted; of one over at most 512 rows this is not asked.
fn is_told(w: Walk, found: &mut [u32]) -> bool
    requires { Going w }
    ensures { (test : ℕ → Bool) (read : ℕ → Outcome ℕ) (window : Window) (o : Outcome (List ℕ)) (before : List ℕ) → InPass (rows_of test) read window o before w found.old → DoneAs result o w.answer before found.old found.new }
{
    if !w.storing {
        return false;
    }
    if w.end - w.first <= 512 {
        return false;
    }
    let answer = w.answer;
    match answer {
        Ok(total) => is_done(w, total, found),
        Err(_) => false,
    }
}

// Whether a lookup is swept: it is at the beginning of its first pass, over a column without blocks.
fn is_swept(codec: Codec, w: Walk) -> bool
    ensures { result ≡ true → (w.at ≡ w.first) × (w.storing ≡ false) × (blockless codec ≡ true) }
{
    if w.storing {
        return false;
    }
    if w.at != w.first {
        return false;
    }
    sweeping::is_blockless(codec)
}

// Internal: asks for a lookup that is going on over rows of the window. One turn that reads: at the beginning of a column without blocks as many chunks as a sweep does, else the chunk at hand.
fn step_on(
    column: Column,
    blocks: usize,
    block: Block,
    bytes: &[u8],
    low: u64,
    high: u64,
    w: Walk,
    found: &mut [u32],
) -> Walk
    requires { Going w × (w.base ≡ column.window.first) × (w.end ≤ column.window.rows) }
    ensures keeps { Keeps (rows_of (within low high)) column blocks block bytes.now w result found.old found.new }
    ensures result_bound { left result < left w }
{
    let codec = column.codec;
    if is_swept(codec, w) {
        return sweeping::sweep(column, blocks, block, bytes, low, high, w, found);
    }
    step_reading(column, blocks, block, bytes, low, high, w, found)
}

// Internal: asks for a lookup that is going on over rows of the window. One turn: the chunk at hand, with its block out of a table of so many, or all that is left, where the count tells it.
pub fn step(
    column: Column,
    blocks: usize,
    block: Block,
    bytes: &[u8],
    low: u64,
    high: u64,
    w: Walk,
    found: &mut [u32],
) -> Walk
    requires { Going w × (w.base ≡ column.window.first) × (w.end ≤ column.window.rows) }
    ensures keeps { Keeps (rows_of (within low high)) column blocks block bytes.now w result found.old found.new }
    ensures result_bound { left result < left w }
{
    if is_told(w, found) {
        let answer = w.answer;
        return read_walk::over(w, answer);
    }
    let room = found.len();
    step_on(
        column,
        blocks,
        block,
        bytes,
        low,
        high,
        trimmed(w, room),
        found,
    )
}
