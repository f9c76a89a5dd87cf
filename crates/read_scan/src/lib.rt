// Loops over a plain list of values, the first being some row: the rows whose values lie in a range, counted or gathered.
#![tactic(auto)]

ghost use Rattle.std.specs.Prelude.{◌≡◌, true, ℕ, ◌+◌, ◌/◌, ◌^◌, ◌≤◌, ◌<◌, length, take};
ghost use Rattle.std.proofs.lemmas.List.Edits.{sets};
ghost use Rattle.format.specs.Outcome.{pick};
ghost use Rattle.format.specs.Word.{AllBelow};
ghost use Rattle.format.specs.Lookup.{within};
ghost use Rattle.read_chunk.specs.Rows.{rows_among};
ghost use Rattle.read_scan.specs.Counts.{OutsideOf};
ghost use Rattle.read_scan.specs.Gatherings.{Bare, Gathers};

// One more than `n` if a value lies in the range: if it lies no further above the low end than the high end does, modulo 2^64, which is one comparison and no branch.
fn tallied(n: usize, low: u64, high: u64, value: u64) -> usize
    requires { n + 1 < 2 ^ 64 }
    ensures { result ≡ pick (within low high value) (n + 1) n }
{
    if high < low {
        return n;
    }
    let span = high - low;
    if word::sub(value, low) <= span {
        return n + 1;
    }
    n
}

// How many of some values lie in the range, one comparison a value.
fn count_any(values: &[u64], low: u64, high: u64) -> usize
    ensures by_index { (r : ℕ) → result ≡ length (rows_among (within low high) r values.now) }
    ensures upper_bound { result ≤ length values.now }
{
    let mut n = 0;
    for value in values {
        n = tallied(n, low, high, *value);
    }
    n
}

// Internal: asks for a range of at most 2^63 values. A word whose top bit is set exactly if a value lies outside the range: it is that of how far the value lies above the low end, or of what is then left of the range.
fn beyond(low: u64, span: u64, value: u64) -> u64
    requires { (span < 2 ^ 63) × (low + span < 2 ^ 64) }
    ensures { result / 2 ^ 63 ≡ pick (within low (low + span) value) 0 1 }
{
    let above = word::sub(value, low);
    above | word::sub(span, above)
}

// Internal: asks for the same, and a count with room. One more than `n` if a value lies outside the range.
fn passed_over(n: usize, low: u64, span: u64, value: u64) -> usize
    requires { (span < 2 ^ 63) × (low + span < 2 ^ 64) × (n + 1 < 2 ^ 64) }
    ensures { result ≡ pick (within low (low + span) value) n (n + 1) }
{
    let outside = beyond(low, span, value) >> 63;
    n + outside as usize
}

// Internal: asks for a range of at most 2^63 values. How many of some values lie outside it: no comparison, which the compiler would have to make up out of other operations where it works on two values at once.
fn count_outside(values: &[u64], low: u64, span: u64) -> usize
    requires { (span < 2 ^ 63) × (low + span < 2 ^ 64) }
    ensures { OutsideOf low (low + span) result values.now }
{
    let mut n = 0;
    for value in values {
        n = passed_over(n, low, span, *value);
    }
    n
}

// How many of some values lie in the range.
pub fn count_within(values: &[u64], low: u64, high: u64) -> usize
    ensures by_index { (r : ℕ) → result ≡ length (rows_among (within low high) r values.now) }
    ensures upper_bound { result ≤ length values.now }
{
    if high < low {
        return count_any(values, low, high);
    }
    let span = high - low;
    if 0x8000_0000_0000_0000 <= span {
        return count_any(values, low, high);
    }
    values.len() - count_outside(values, low, span)
}

// Internal: asks for rows below 2^32, and for a part of the values. Goes on gathering: where the rows found among the values before `from` stand in the first `n` entries, those before `to` stand there then, and it returns how many.
// Each row is put there, and the next one over it if its value lies outside the range, so that no branch is to be guessed. No row is put behind its own value, so that the values to come stand as they were.
fn gather_part(
    values: &mut [u64],
    low: u64,
    high: u64,
    row: u32,
    from: usize,
    to: usize,
    n: usize,
) -> usize
    requires { (row + length values.old ≤ 2 ^ 32) × (n ≤ from) × (from ≤ to) × (to ≤ length values.old) }
    ensures { Gathers (within low high) row n from result to values.old values.new }
{
    let mut m = n;
    // By index: the entry that is written stands before the value that is read, or is the same.
    for i in from..to {
        let value = values[i];
        values[m] = (row + i as u32) as u64;
        m = tallied(m, low, high, value);
    }
    m
}

// Internal: asks for rows below 2^32. Puts the rows whose values lie in the range, the first value's row being `row`, over the values, from the front on, and returns how many.
pub fn gather_rows(values: &mut [u64], low: u64, high: u64, row: u32) -> usize
    requires { row + length values.old ≤ 2 ^ 32 }
    ensures { (result ≤ length values.old) × (take result values.new ≡ rows_among (within low high) row values.old) }
{
    let all = values.len();
    gather_part(values, low, high, row, 0, all, 0)
}

// Internal: asks for a range of at most 2^63 values, and for 16 values. Whether none of them lies in it: true only if so.
fn is_bare(values: &[u64], from: usize, low: u64, span: u64) -> bool
    requires { (span < 2 ^ 63) × (low + span < 2 ^ 64) × (from + 16 ≤ length values.now) }
    ensures { result ≡ true → Bare (within low (low + span)) from (from + 16) values.now }
{
    let mut seen = u64::MAX;
    for value in &values[from..from + 16] {
        seen &= beyond(low, span, *value);
    }
    0x8000_0000_0000_0000 <= seen
}

// Internal: asks for a range of at most 2^63 values, rows below 2^32, and 16 values. Goes on gathering over them, which are passed over where none lies in the range.
fn gather_group(values: &mut [u64], low: u64, span: u64, row: u32, from: usize, n: usize) -> usize
    requires { (span < 2 ^ 63) × (low + span < 2 ^ 64) × (from + 16 ≤ length values.old) × (row + length values.old ≤ 2 ^ 32) × (n ≤ from) }
    ensures { Gathers (within low (low + span)) row n from result (from + 16) values.old values.new }
{
    if is_bare(values, from, low, span) {
        return n;
    }
    gather_part(values, low, low + span, row, from, from + 16, n)
}

// Internal: asks for a range of at most 2^63 values, and rows below 2^32. As `gather_rows`, by groups of 16.
fn gather_groups(values: &mut [u64], low: u64, span: u64, row: u32) -> usize
    requires { (span < 2 ^ 63) × (low + span < 2 ^ 64) × (row + length values.old ≤ 2 ^ 32) }
    ensures { (result ≤ length values.old) × (take result values.new ≡ rows_among (within low (low + span)) row values.old) }
{
    let all = values.len();
    let groups = all / 16;
    let mut n = 0;
    for group in 0..groups {
        n = gather_group(values, low, span, row, 16 * group, n);
    }
    gather_part(values, low, low + span, row, 16 * groups, all, n)
}

// Internal: asks for rows below 2^32. As `gather_rows`, and faster where few rows are found.
pub fn gather_few(values: &mut [u64], low: u64, high: u64, row: u32) -> usize
    requires { row + length values.old ≤ 2 ^ 32 }
    ensures { (result ≤ length values.old) × (take result values.new ≡ rows_among (within low high) row values.old) }
{
    if high < low {
        return gather_rows(values, low, high, row);
    }
    let span = high - low;
    if 0x8000_0000_0000_0000 <= span {
        return gather_rows(values, low, high, row);
    }
    gather_groups(values, low, span, row)
}

// Internal: asks for room, and for rows below 2^32. Copies rows into a list from entry `at` on.
pub fn copy_rows(rows: &[u64], found: &mut [u32], at: usize)
    requires { (at + length rows.now ≤ length found.old) × AllBelow (2 ^ 32) rows.now }
    ensures { found.new ≡ sets found.old at rows.now }
{
    // By index: of entries written through a `zip` over `iter_mut` a proof knows nothing.
    for (i, row) in rows.iter().enumerate() {
        found[at + i] = *row as u32;
    }
}
