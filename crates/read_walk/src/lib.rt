// A walk over the rows from `first` to `end`, chunk by chunk, in two passes: the first sees that no row is refused and counts what is to be stored, the second
// stores. A run that lies in one chunk needs no first pass: where it is refused, nothing was stored. The table is looked into by the entry points; here a
// chunk comes with its block.
#![tactic(auto)]

ghost use Rattle.std.specs.Prelude.{◌≡◌, false, List, ℕ, ◌+◌, ◌/◌, ◌%◌, ◌^◌, ◌≤◌, ◌<◌, length};
ghost use Rattle.std.proofs.lemmas.List.Edits.{sets};
ghost use Rattle.format.specs.declared.Window.{Window};
ghost use Rattle.format.specs.Outcome.{Outcome, Outcome.value, pick};
ghost use Rattle.format.specs.Calls.{StoredAs};
ghost use Rattle.format.specs.Runs.{read_run};
ghost use Rattle.read_row.specs.Chunks.{DecodedAs};
ghost use Rattle.read_walk.specs.Walks.{Kept, entries, next_chunk, Going, left, stores, InPass, Walking};

use format::{ColumnRow, Refusal, WindowRow};

// A walk under way: in the pass at hand, the rows before `at` are done, and `n` entries were found for them. While it is going on, it stores or only looks; then
// its answer stands. A lookup that has turned to its second pass has its answer before it is over. Row 0 is row `base` of the column.
#[derive(Clone, Copy)]
pub struct Walk {
    pub base: u32,
    pub first: u32,
    pub end: u32,
    pub at: u32,
    pub n: usize,
    pub storing: bool,
    pub going: bool,
    pub answer: Result<usize, Refusal>,
}

// The column's row that the chunk at hand begins with.
fn row_of(w: Walk) -> ColumnRow
    ensures { result.0 ≡ (w.base + w.at) % 2 ^ 32 }
{
    read_row::reader::column_row(w.base, WindowRow(w.at))
}

// The block of the chunk at hand.
pub fn block_of(w: Walk) -> usize
    ensures { result ≡ (w.base + w.at) % 2 ^ 32 / 512 }
{
    blockwise_rows::reader::split(row_of(w)).block
}

// Internal: asks for a walk that is going on. The rows of the chunk at hand.
pub fn chunk_of(w: Walk) -> usize
    requires { w.at < w.end }
    ensures { result ≡ next_chunk w }
{
    read_chunk::chunk_size(row_of(w), w.end - w.at)
}

// The end of a walk, with its answer.
pub fn over(w: Walk, answer: Result<usize, Refusal>) -> Walk
    ensures { (result.going ≡ false) × (result.answer ≡ answer) }
{
    Walk {
        base: w.base,
        first: w.first,
        end: w.end,
        at: w.at,
        n: w.n,
        storing: w.storing,
        going: false,
        answer,
    }
}

// Internal: asks for a walk that is going on, and the chunk at hand. Behind the chunk, for whose rows `n` entries were found, and stored if the pass stores: goes on with the
// rows behind it, or with the second pass; it is over where all is stored, where nothing is to be stored, or where the list has no room.
fn advanced(w: Walk, size: usize, n: usize, room: usize) -> Walk
    requires { Going w × (size ≡ next_chunk w) × (n ≤ size) }
    ensures walking { (k : Kept) (read : ℕ → Outcome ℕ) (window : Window) (o : Outcome (List ℕ)) (before list values : List ℕ) → InPass k read window o before w list → read_run read w.at size ≡ value values → n ≡ length (entries k w.at values) → room ≡ length before → Walking k read window o before result (pick w.storing (sets list w.n (entries k w.at values)) list) }
    ensures result_bound { left result < left w }
{
    let at = w.at + size as u32;
    let total = w.n + n;
    let answer = w.answer;
    if at < w.end {
        return Walk {
            base: w.base,
            first: w.first,
            end: w.end,
            at,
            n: total,
            storing: w.storing,
            going: true,
            answer,
        };
    }
    if w.storing {
        return over(w, Ok(total));
    }
    if room < total {
        return over(w, Err(Refusal::ListShort { found: total }));
    }
    if total == 0 {
        return over(w, Ok(0));
    }
    Walk {
        base: w.base,
        first: w.first,
        end: w.end,
        at: w.first,
        n: 0,
        storing: true,
        going: true,
        answer: Ok(total),
    }
}

// Whether a chunk is stored: the pass stores, and the chunk has its values.
pub fn stores(w: Walk, decoded: Result<(), Refusal>) -> bool
    ensures { result ≡ stores w decoded }
{
    match decoded {
        Ok(()) => w.storing,
        Err(_) => false,
    }
}

// Internal: asks for a walk that is going on, and the chunk at hand. Behind the chunk that was decoded: a refused row ends the walk, or it goes on.
pub fn behind(w: Walk, decoded: Result<(), Refusal>, size: usize, n: usize, room: usize) -> Walk
    requires { Going w × (size ≡ next_chunk w) × (n ≤ size) }
    ensures walking { (k : Kept) (read : ℕ → Outcome ℕ) (window : Window) (o : Outcome (List ℕ)) (before list values : List ℕ) → InPass k read window o before w list → DecodedAs (read_run read w.at size) decoded values → n ≡ length (entries k w.at values) → room ≡ length before → Walking k read window o before result (pick (stores w decoded) (sets list w.n (entries k w.at values)) list) }
    ensures result_bound { left result < left w }
{
    match decoded {
        Ok(()) => advanced(w, size, n, room),
        Err(why) => over(w, Err(why)),
    }
}

// What a walk that is over found.
pub fn answer(w: Walk) -> Result<usize, Refusal>
    ensures { (o : Outcome (List ℕ)) (before list : List ℕ) → StoredAs o w.answer before list → StoredAs o result before list }
{
    w.answer
}
