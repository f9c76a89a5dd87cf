// One pass in place of two, for a column without blocks where few rows are found: the rows wait in a buffer until the last chunk is read, and are stored then.
ghost use Rattle.std.specs.Prelude.{◌≡◌, Bool, true, false, List, ℕ, ◌+◌, ◌-◌, ◌^◌, ◌≤◌, ◌<◌, length};
ghost use Rattle.format.specs.Outcome.{Outcome, Outcome.value};
ghost use Rattle.format.specs.Word.{AllBelow};
ghost use Rattle.format.specs.Lookup.{within};
ghost use Rattle.format.specs.Reading.{row_in, row_at};
ghost use Rattle.format.specs.Runs.{read_run};
ghost use Rattle.read_chunk.specs.Rows.{rows_among};
ghost use Rattle.read_row.specs.Chunks.{Chunk};
ghost use Rattle.read_lookup.specs.Sweeps.{SweptAs, blockless};
ghost use Rattle.format.specs.Calls.{StoredAs};
ghost use Rattle.read_walk.specs.Walks.{Kept.rows_of, kept, Going, left, InPass, Walking};

use format::{Block, Codec, Column, Refusal, Window, WindowRow};
use read_walk::Walk;

// Internal: asks for a chunk. Its rows with values of the range, in a list of its size from the front on.
fn sweep_chunk(
    column: Column,
    blocks: usize,
    block: Block,
    bytes: &[u8],
    low: u64,
    high: u64,
    at: u32,
    part: &mut [u64],
) -> Result<(u32, usize), Refusal>
    requires { Chunk column.window.rows column.window.first at (length part.old) }
    ensures { SweptAs (within low high) (row_in column blocks block bytes.now) at (at + length part.old) 0 result part.old part.new }
{
    let size = part.len();
    match read_row::reader::decode(column, blocks, block, bytes, WindowRow(at), part) {
        Ok(()) => {
            let n = read_scan::gather_few(part, low, high, at);
            Ok((at + size as u32, n))
        }
        Err(why) => Err(why),
    }
}

// Internal: asks for a chunk, and room for it behind `n` entries of a list. Its rows with values of the range, behind them.
fn sweep_there(
    column: Column,
    blocks: usize,
    block: Block,
    bytes: &[u8],
    low: u64,
    high: u64,
    at: u32,
    size: usize,
    list: &mut [u64],
    n: usize,
) -> Result<(u32, usize), Refusal>
    requires { Chunk column.window.rows column.window.first at size × (n + size ≤ length list.old) }
    ensures { SweptAs (within low high) (row_in column blocks block bytes.now) at (at + size) n result list.old list.new }
{
    let to = n + size;
    sweep_chunk(
        column,
        blocks,
        block,
        bytes,
        low,
        high,
        at,
        &mut list[n..to],
    )
}

// Internal: asks for rows of the window, at least one, and a list of 2,048 entries. Answers the row behind those done, and how many were found. The rows from `first` on with values of the range, at the list's front: up to `end`, or as long as a chunk more has room.
fn sweep_rows(
    column: Column,
    blocks: usize,
    block: Block,
    bytes: &[u8],
    low: u64,
    high: u64,
    first: u32,
    end: u32,
    list: &mut [u64],
) -> Result<(u32, usize), Refusal>
    requires { (first < end) × (end ≤ column.window.rows) × (length list.old ≡ 2048) }
    ensures { SweptAs (within low high) (row_in column blocks block bytes.now) first end 0 result list.old list.new }
{
    let mut at = first;
    let mut n = 0;
    // No range of rows steps by chunks: where one ends depends on where it begins.
    while at < end {
        if 1536 < n {
            return Ok((at, n));
        }
        let row = read_row::reader::column_row(column.window.first, WindowRow(at));
        let size = read_chunk::chunk_size(row, end - at);
        match sweep_there(column, blocks, block, bytes, low, high, at, size, list, n) {
            Ok((to, m)) => {
                at = to;
                n += m;
            }
            Err(why) => return Err(why),
        }
    }
    Ok((at, n))
}

// Internal: asks for rows below 2^32. The end of a lookup that found these rows.
fn store(w: Walk, rows: &[u64], found: &mut [u32]) -> Walk
    requires { AllBelow (2 ^ 32) rows.now }
    ensures { (result.going ≡ false) × ((test : ℕ → Bool) (values : List ℕ) → rows.now ≡ rows_among test w.first values → StoredAs (kept (rows_of test) (length found.old) w.first values) result.answer found.old found.new) }
{
    let n = rows.len();
    if found.len() < n {
        return read_walk::over(w, Err(Refusal::ListShort { found: n }));
    }
    read_scan::copy_rows(rows, found, 0);
    read_walk::over(w, Ok(n))
}

// Internal: asks for a lookup at its beginning, and rows below 2^32, no more than were read. Behind the rows before `at`, where these were found: it goes on with its first pass, or all is stored.
fn settle(w: Walk, at: u32, rows: &[u64], found: &mut [u32]) -> Walk
    requires { Going w × (w.at ≡ w.first) × (w.storing ≡ false) × AllBelow (2 ^ 32) rows.now × (w.first < at) × (length rows.now ≤ at - w.first) }
    ensures by_index { (test : ℕ → Bool) (read : ℕ → Outcome ℕ) (window : Window) (o : Outcome (List ℕ)) (before values : List ℕ) → at ≤ w.end → InPass (rows_of test) read window o before w found.old → read_run read w.first (at - w.first) ≡ value values → rows.now ≡ rows_among test w.first values → Walking (rows_of test) read window o before result found.new }
    ensures result_bound { left result < left w }
{
    if at < w.end {
        let answer = w.answer;
        return Walk {
            base: w.base,
            first: w.first,
            end: w.end,
            at,
            n: rows.len(),
            storing: false,
            going: true,
            answer,
        };
    }
    store(w, rows, found)
}

// Whether a column of this codec has no blocks.
pub fn is_blockless(codec: Codec) -> bool
    ensures { result ≡ blockless codec }
{
    match codec {
        Codec::Bitpacked => true,
        Codec::Linear(_, _) => true,
        Codec::Blockwise => false,
    }
}

// One turn through a buffer.
fn sweep_through(
    column: Column,
    blocks: usize,
    block: Block,
    bytes: &[u8],
    low: u64,
    high: u64,
    w: Walk,
    list: &mut [u64],
    found: &mut [u32],
) -> Walk
    requires { Going w × (w.end ≤ column.window.rows) × (w.at ≡ w.first) × (w.storing ≡ false) × (blockless column.codec ≡ true) × (length list.old ≡ 2048) }
    ensures walking { (table : List Block) (before : List ℕ) (o : Outcome (List ℕ)) → blocks ≡ length table → Walking (rows_of (within low high)) (row_at column table bytes.now) column.window o before w found.old → Walking (rows_of (within low high)) (row_at column table bytes.now) column.window o before result found.new }
    ensures result_bound { left result < left w }
{
    match sweep_rows(
        column, blocks, block, bytes, low, high, w.first, w.end, list,
    ) {
        Ok((at, n)) => settle(w, at, &list[..n], found),
        Err(why) => read_walk::over(w, Err(why)),
    }
}

// Internal: asks for a lookup at the beginning of its first pass, over rows of the window of a column without blocks. One turn: as far as a buffer has room for the rows found.
pub fn sweep(
    column: Column,
    blocks: usize,
    block: Block,
    bytes: &[u8],
    low: u64,
    high: u64,
    w: Walk,
    found: &mut [u32],
) -> Walk
    requires { Going w × (w.end ≤ column.window.rows) × (w.at ≡ w.first) × (w.storing ≡ false) × (blockless column.codec ≡ true) }
    ensures walking { (table : List Block) (before : List ℕ) (o : Outcome (List ℕ)) → blocks ≡ length table → Walking (rows_of (within low high)) (row_at column table bytes.now) column.window o before w found.old → Walking (rows_of (within low high)) (row_at column table bytes.now) column.window o before result found.new }
    ensures result_bound { left result < left w }
{
    let mut list = [0u64; 2048];
    sweep_through(
        column,
        blocks,
        block,
        bytes,
        low,
        high,
        w,
        &mut list[..2048],
        found,
    )
}
