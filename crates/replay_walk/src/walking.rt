// A replay under way: a chunk comes with its block, whoever has the blocks. Found rows are compared with the recorded ones as they come, so no list is lent.
ghost use Rattle.std.specs.Prelude.{◌≡◌, true, false, List, ◌∷◌, ◌++◌, ℕ, ◌+◌, ◌-◌, ◌*◌, ◌/◌, ◌%◌, ◌^◌, ◌≤◌, ◌<◌, length, Some, Ok};
ghost use Rattle.format.specs.Outcome.{Outcome, Outcome.value, pick};
ghost use Rattle.format.specs.Lookup.{within};
ghost use Rattle.format.specs.Reading.{column_row};
ghost use Rattle.format.specs.Replaying.{same_rows};
ghost use Rattle.format.specs.Runs.{read_run};
ghost use Rattle.read_row.specs.Chunks.{DecodedAs, chunk_size};
ghost use Rattle.read_chunk.specs.Rows.{rows_among};
ghost use Rattle.replay_walk.specs.Walking.{to_come, Onward, UnderWay, OnHand, Replaying, left, Keeps, Meets};

use format::{Block, Column, Recorded, Recording, Refusal, Report, WindowRow};
use read_chunk::{cut, within};
use replay_recording::{header_of, is_recording, listed_at, record_at};

// Record k is at hand: its rows before `at` are done, and the first n recorded ones were found among them. While the replay is going on there are rows left; then its answer stands.
#[derive(Clone, Copy)]
pub struct Walk {
    pub head: Recording,
    pub k: u32,
    pub item: Recorded,
    pub at: u32,
    pub end: u32,
    pub n: u32,
    pub going: bool,
    pub answer: Result<Report, Refusal>,
}

// Whether rows that were found are the recorded ones so far, and how many recorded ones that makes.
#[derive(Clone, Copy)]
pub struct Met {
    pub same: bool,
    pub n: u32,
}

// The block of the chunk at hand, as the column counts the window's rows.
pub fn block_of(column: Column, w: Walk) -> usize
    ensures { result ≡ column_row column w.at % 2 ^ 32 / 512 }
{
    read_row::reader::block_of(column, WindowRow(w.at))
}

// Internal: asks that no more are met than recorded. One row with its value, of which n recorded rows came before: it is not looked for, it is the next recorded one, or it differs.
fn met_one(recording: &[u8], head: Recording, item: Recorded, row: u32, value: u64, n: u32) -> Met
    requires { n ≤ item.many }
    ensures by_index { (rest : List ℕ) → same_rows (pick (within item.low item.high value) (row ∷ rest) rest) (to_come head recording.now item n) ≡ pick result.same (same_rows rest (to_come head recording.now item result.n)) false }
    ensures n_le_many { result.n ≤ item.many }
{
    if !within(item.low, item.high, value) {
        return Met { same: true, n };
    }
    if item.many <= n {
        return Met { same: false, n };
    }
    if listed_at(recording, head, item.place, n) != row {
        return Met { same: false, n };
    }
    Met {
        same: true,
        n: n + 1,
    }
}

// Internal: asks for rows below 2^32, and that no more are met than recorded. The same for the values of some rows, the first being `row`.
fn met_all(
    recording: &[u8],
    head: Recording,
    item: Recorded,
    row: u32,
    values: &[u64],
    before: u32,
) -> Met
    requires { (row + length values.now ≤ 2 ^ 32) × (before ≤ item.many) }
    ensures meets { Meets head recording.now item (rows_among (within item.low item.high) row values.now) before result.n result.same }
    ensures n_le_many { result.n ≤ item.many }
{
    let mut n = before;
    for (i, value) in values.iter().enumerate() {
        let met = met_one(recording, head, item, row + i as u32, *value, n);
        if !met.same {
            return met;
        }
        n = met.n;
    }
    Met { same: true, n }
}

// The end of a replay, with its answer.
fn over(answer: Result<Report, Refusal>) -> Walk
    ensures { (result.going ≡ false) × (result.answer ≡ answer) }
{
    Walk {
        head: Recording::default(),
        k: 0,
        item: Recorded::default(),
        at: 0,
        end: 0,
        n: 0,
        going: false,
        answer,
    }
}

// Internal: asks for a record at hand. The end of a replay at that record, which differs.
fn differs(w: Walk) -> Walk
    requires { w.k < w.head.records }
    ensures { (result.going ≡ false) × (result.answer ≡ Ok (record { differing = Some w.k; run = w.k + 1 })) }
{
    over(Ok(Report {
        differing: Some(w.k),
        run: w.k + 1,
    }))
}

// Internal: asks for a record, or for the end of the records. Goes on with the records from k on: the first that has rows to read is at hand. One that has none agrees
// if nothing is recorded of it.
fn go_on(rows: u32, recording: &[u8], head: Recording, k: u32) -> Walk
    requires { k ≤ head.records }
    ensures by_index { (read : ℕ → Outcome ℕ) → Onward read rows recording.now head k → Replaying read rows recording.now result }
    ensures result_bound { left result < (head.records - k) * 2 ^ 32 + 2 ^ 32 }
{
    for i in k..head.records {
        let item = record_at(recording, head, i);
        let end = cut(item.end, rows);
        if item.first < end {
            return Walk {
                head,
                k: i,
                item,
                at: item.first,
                end,
                n: 0,
                going: true,
                answer: Ok(Report {
                    differing: None,
                    run: 0,
                }),
            };
        }
        if 0 < item.many {
            return over(Ok(Report {
                differing: Some(i),
                run: i + 1,
            }));
        }
    }
    over(Ok(Report {
        differing: None,
        run: head.records,
    }))
}

// How a replay begins: with the test of the recording, before any lookup.
pub fn begin(rows: u32, recording: &[u8]) -> Walk
    ensures { (read : ℕ → Outcome ℕ) → Replaying read rows recording.now result }
{
    if !is_recording(recording) {
        return over(Err(Refusal::BadRecording));
    }
    go_on(rows, recording, header_of(recording), 0)
}

// Internal: asks for a record at hand, and a chunk of its rows. Behind a chunk whose rows were met, n recorded ones with those before: goes on with the record's rows behind it, or with the next record.
fn behind(rows: u32, recording: &[u8], w: Walk, size: usize, n: u32) -> Walk
    requires { (w.going ≡ true) × (0 < size) × (w.at + size ≤ w.end) × (w.k < w.head.records) × (n ≤ w.item.many) }
    ensures by_index { (read : ℕ → Outcome ℕ) (values : List ℕ) → OnHand read rows recording.now w → read_run read w.at size ≡ value values → ((rest : List ℕ) → same_rows (rows_among (within w.item.low w.item.high) w.at values ++ rest) (to_come w.head recording.now w.item w.n) ≡ same_rows rest (to_come w.head recording.now w.item n)) → Replaying read rows recording.now result }
    ensures result_bound { left result < left w }
{
    let at = w.at + size as u32;
    let head = w.head;
    let item = w.item;
    if at < w.end {
        return Walk {
            head,
            k: w.k,
            item,
            at,
            end: w.end,
            n,
            going: true,
            answer: Ok(Report {
                differing: None,
                run: 0,
            }),
        };
    }
    if n < item.many {
        return differs(w);
    }
    go_on(rows, recording, head, w.k + 1)
}

// Internal: asks for a record at hand, and a chunk of its rows. Behind a chunk that was decoded, and whose rows were met or not: a refused row, or one that was not recorded, ends the replay.
fn turned(
    rows: u32,
    recording: &[u8],
    w: Walk,
    decoded: Result<(), Refusal>,
    size: usize,
    met: Met,
) -> Walk
    requires { (w.going ≡ true) × (0 < size) × (w.at + size ≤ w.end) × (w.k < w.head.records) × (met.n ≤ w.item.many) }
    ensures by_index { (read : ℕ → Outcome ℕ) (values : List ℕ) → OnHand read rows recording.now w → DecodedAs (read_run read w.at size) decoded values → Meets w.head recording.now w.item (rows_among (within w.item.low w.item.high) w.at values) w.n met.n met.same → Replaying read rows recording.now result }
    ensures result_bound { left result < left w }
{
    if let Err(_) = decoded {
        return differs(w);
    }
    if !met.same {
        return differs(w);
    }
    behind(rows, recording, w, size, met.n)
}

// Internal: asks for a record at hand, and a list of its chunk's size. One turn through it.
fn step_through(
    column: Column,
    blocks: usize,
    block: Block,
    bytes: &[u8],
    recording: &[u8],
    w: Walk,
    values: &mut [u64],
) -> Walk
    requires { UnderWay column.window.rows w × (length values.old ≡ chunk_size (column_row column w.at) (w.end - w.at)) }
    ensures keeps { Keeps column blocks block bytes.now recording.now w result }
    ensures result_bound { left result < left w }
{
    let size = values.len();
    let decoded = read_row::reader::decode(column, blocks, block, bytes, WindowRow(w.at), values);
    let met = met_all(recording, w.head, w.item, w.at, values, w.n);
    turned(column.window.rows, recording, w, decoded, size, met)
}

// Internal: asks for a replay that is going on over rows of the window. One turn: the chunk at hand, with its block out of a table of so many.
pub fn step(
    column: Column,
    blocks: usize,
    block: Block,
    bytes: &[u8],
    recording: &[u8],
    w: Walk,
) -> Walk
    requires { UnderWay column.window.rows w }
    ensures keeps { Keeps column blocks block bytes.now recording.now w result }
    ensures result_bound { left result < left w }
{
    let mut buffer = [0u64; 512];
    let at = read_row::reader::column_row(column.window.first, WindowRow(w.at));
    let size = read_chunk::chunk_size(at, w.end - w.at);
    step_through(
        column,
        blocks,
        block,
        bytes,
        recording,
        w,
        &mut buffer[..size],
    )
}
