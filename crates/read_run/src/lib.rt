// Decoding a run of rows: a walk that stores the value of every row.
#![tactic(auto)]

ghost use Rattle.std.specs.Prelude.{◌≡◌, true, false, List, ℕ, ◌+◌, ◌-◌, ◌/◌, ◌%◌, ◌^◌, ◌≤◌, ◌<◌, length};
ghost use Rattle.std.proofs.lemmas.List.Edits.{sets};
ghost use Rattle.format.specs.Outcome.{Outcome, pick};
ghost use Rattle.format.specs.Reading.{block_at, row_in, row_at};
ghost use Rattle.format.specs.Runs.{read_run, decoded};
ghost use Rattle.read_row.specs.Chunks.{Chunk};
ghost use Rattle.read_run.specs.Places.{PlacedAs};
ghost use Rattle.read_walk.specs.Walks.{Kept.all_values, next_chunk, Going, left, Walking, Keeps};

use format::{Block, Column, Refusal, Window, WindowRow};
use read_walk::Walk;

// A run that is over before it begins.
fn settled(first: u32, answer: Result<usize, Refusal>) -> Walk
    ensures { (result.going ≡ false) × (result.answer ≡ answer) }
{
    Walk {
        base: 0,
        first,
        end: first,
        at: first,
        n: 0,
        storing: false,
        going: false,
        answer,
    }
}

// How a run of `n` rows from `first` on in a window begins: where it leaves the rows, or has none, it is over.
pub fn begin(window: Window, first: u32, n: usize) -> Walk
    ensures { (read : ℕ → Outcome ℕ) (list : List ℕ) → length list ≡ n → Walking all_values read window (decoded read window.rows first n) list result list }
{
    if window.rows < first {
        return settled(first, Err(Refusal::NoSuchRow));
    }
    if ((window.rows - first) as usize) < n {
        return settled(first, Err(Refusal::NoSuchRow));
    }
    if n == 0 {
        return settled(first, Ok(0));
    }
    let end = first + n as u32;
    let at = read_row::reader::column_row(window.first, WindowRow(first));
    Walk {
        base: window.first,
        first,
        end,
        at: first,
        n: 0,
        storing: end - first <= 512 - at.0 % 512,
        going: true,
        answer: Ok(n),
    }
}

// Internal: asks for room. Copies values into a list from an entry on, in a pass that stores.
fn keep(storing: bool, values: &[u64], out: &mut [u64], at: usize)
    requires { at + length values.now ≤ length out.old }
    ensures { out.new ≡ pick storing (sets out.old at values.now) out.old }
{
    if !storing {
        return;
    }
    read_chunk::copy(values, out, at);
}

// One turn through a buffer of the chunk's size.
fn step_through(
    column: Column,
    blocks: usize,
    block: Block,
    bytes: &[u8],
    w: Walk,
    values: &mut [u64],
    out: &mut [u64],
) -> Walk
    requires { Going w × (w.base ≡ column.window.first) × (w.end ≤ column.window.rows) × (length values.old ≡ next_chunk w) × (length out.old ≡ w.end - w.first) × (w.n ≡ w.at - w.first) }
    ensures keeps { Keeps all_values column blocks block bytes.now w result out.old out.new }
    ensures result_bound { left result < left w }
{
    let size = values.len();
    let decoded = read_row::reader::decode(column, blocks, block, bytes, WindowRow(w.at), values);
    let room = out.len();
    let storing = read_walk::stores(w, decoded);
    keep(storing, values, out, w.n);
    read_walk::behind(w, decoded, size, size, room)
}

// Internal: asks for a chunk, and its entries in a list. Decodes the chunk where it is to stand; where a row is refused, what stands there then is not told.
fn decode_there(
    column: Column,
    blocks: usize,
    block: Block,
    bytes: &[u8],
    first: u32,
    out: &mut [u64],
    from: usize,
    size: usize,
) -> Result<(), Refusal>
    requires { Chunk column.window.rows column.window.first first size × (from + size ≤ length out.old) }
    ensures { PlacedAs (read_run (row_in column blocks block bytes.now) first size) result size from out.old out.new }
{
    let to = from + size;
    read_row::reader::decode(
        column,
        blocks,
        block,
        bytes,
        WindowRow(first),
        &mut out[from..to],
    )
}

// Internal: asks for a run of more than the chunk at hand, in its second pass, where no row is refused. One turn, with no buffer.
fn step_straight(
    column: Column,
    blocks: usize,
    block: Block,
    bytes: &[u8],
    w: Walk,
    size: usize,
    out: &mut [u64],
) -> Walk
    requires { Going w × (w.base ≡ column.window.first) × (w.end ≤ column.window.rows) × (size ≡ next_chunk w) × (length out.old ≡ w.end - w.first) × (w.n ≡ w.at - w.first) × (w.storing ≡ true) × (size < w.end - w.first) }
    ensures keeps { Keeps all_values column blocks block bytes.now w result out.old out.new }
    ensures result_bound { left result < left w }
{
    let room = out.len();
    let decoded = decode_there(column, blocks, block, bytes, w.at, out, w.n, size);
    read_walk::behind(w, decoded, size, size, room)
}

// Internal: asks for a pass that looks. One turn: whether the chunk has values.
fn step_looking(
    column: Column,
    blocks: usize,
    block: Block,
    bytes: &[u8],
    w: Walk,
    size: usize,
    room: usize,
) -> Walk
    requires { Going w × (w.base ≡ column.window.first) × (w.end ≤ column.window.rows) × (size ≡ next_chunk w) × (w.storing ≡ false) }
    ensures walking { (table : List Block) (before list : List ℕ) (o : Outcome (List ℕ)) → blocks ≡ length table → block ≡ block_at table ((w.base + w.at) % 2 ^ 32 / 512) → room ≡ length list → Walking all_values (row_at column table bytes.now) column.window o before w list → Walking all_values (row_at column table bytes.now) column.window o before result list }
    ensures result_bound { left result < left w }
{
    let decoded = read_bounds::look(column, blocks, block, bytes, w.at, size);
    read_walk::behind(w, decoded, size, size, room)
}

// Internal: asks for what `step` asks. One turn with a buffer: of a run that is one chunk, since a refused one leaves the list.
fn step_buffered(
    column: Column,
    blocks: usize,
    block: Block,
    bytes: &[u8],
    w: Walk,
    out: &mut [u64],
) -> Walk
    requires { Going w × (w.base ≡ column.window.first) × (w.end ≤ column.window.rows) × (length out.old ≡ w.end - w.first) × (w.n ≡ w.at - w.first) }
    ensures keeps { Keeps all_values column blocks block bytes.now w result out.old out.new }
    ensures result_bound { left result < left w }
{
    let mut buffer = [0u64; 512];
    let size = read_walk::chunk_of(w);
    step_through(column, blocks, block, bytes, w, &mut buffer[..size], out)
}

// Internal: asks for a run that is going on over rows of the window, and a list of its length. One turn: the chunk at hand, with its block out of a table of so many.
pub fn step(
    column: Column,
    blocks: usize,
    block: Block,
    bytes: &[u8],
    w: Walk,
    out: &mut [u64],
) -> Walk
    requires { Going w × (w.base ≡ column.window.first) × (w.end ≤ column.window.rows) × (length out.old ≡ w.end - w.first) × (w.n ≡ w.at - w.first) }
    ensures keeps { Keeps all_values column blocks block bytes.now w result out.old out.new }
    ensures result_bound { left result < left w }
{
    let size = read_walk::chunk_of(w);
    let room = out.len();
    if !w.storing {
        return step_looking(column, blocks, block, bytes, w, size, room);
    }
    if size < room {
        return step_straight(column, blocks, block, bytes, w, size, out);
    }
    step_buffered(column, blocks, block, bytes, w, out)
}
