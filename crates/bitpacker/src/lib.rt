// The width of a number, and numbers packed at a width: one behind the other without gap, lowest bit first.
//
// Both ways go through a word of eight bytes. A packer fills one and stores it whole; a reader loads the eight bytes from
// a row's first bit on, which hold all of a row of a legal width. That is why the widths 57 to 63 are left out.
#![tactic(auto)]

ghost use Rattle.std.specs.Prelude.{◌≡◌, true, List, [], ◌++◌, ℕ, ◌+◌, ◌-◌, ◌*◌, ◌/◌, ◌%◌, ◌^◌, ◌≤◌, ◌<◌, length, take, drop, leb};
ghost use Rattle.format.specs.Word.{bytes_for};
ghost use Rattle.format.specs.Packing.{width, legal, bits_of, bytes_of, packed, bytes_num, num_bytes, unpack};
ghost use Rattle.bitpacker.specs.Packer.{Packs, Writable, Closable, Packable};
ghost use Rattle.bitpacker.specs.Runs.{Part, Unpacked, Groups, Singly, Reached};

// The width of `n`: its bit length, where 57 to 63 become 64.
pub fn compute_num_bits(n: u64) -> u8
    ensures { result ≡ width n }
{
    let bits = 64 - u64::leading_zeros(n);
    if bits <= 56 { bits as u8 } else { 64 }
}

// Internal: asks for fewer than 2^32 rows of at most 64 bits. How many bytes they fill.
pub fn packed_len(rows: usize, width: u8) -> usize
    requires { (rows < 2 ^ 32) × (width ≤ 64) }
    ensures { result ≡ bytes_for (width * rows) }
{
    ((width as usize) * rows + 7) / 8
}

// Stores the `n` lowest bytes of `word` from `at` on, little end first. Where `n` is a literal 8 the compiled code has one
// store.
fn put(out: &mut [u8], at: usize, word: u64, n: usize)
    requires { (at + n ≤ length out.old) × (n ≤ 8) }
    ensures { out.new ≡ take at out.old ++ num_bytes n word ++ drop (at + n) out.old }
{
    out[at..at + n].copy_from_slice(&word.to_le_bytes()[..n]);
}

// Numbers on their way into bytes: `at` bytes stand written, a word of eight at a time, and `held` bits, fewer than 64,
// wait in `hold` for their word to fill.
#[derive(Clone, Copy)]
pub struct BitPacker {
    pub at: usize,
    pub held: u32,
    pub hold: u64,
}

impl BitPacker {
    // Nothing packed yet.
    pub fn new() -> BitPacker
        ensures { (out : List ℕ) → Packs [] out result out }
    {
        BitPacker {
            at: 0,
            held: 0,
            hold: 0,
        }
    }

    // Internal: asks that the number has `width` bits and that there is room for them. Packs one number more.
    pub fn write(self, out: &mut [u8], value: u64, width: u8) -> BitPacker
        requires { Writable width value self out.old }
        ensures { (bits before : List ℕ) → Packs bits before self out.old → Packs (bits ++ bits_of width value) before result out.new }
    {
        let at = self.at;
        let held = self.held;
        let low = self.hold + (value << held);
        let bits = held + width as u32;
        if bits < 64 {
            return BitPacker {
                at,
                held: bits,
                hold: low,
            };
        }
        put(out, at, low, 8);
        // Two shifts, since one by 64 is none: `held` may be 0.
        BitPacker {
            at: at + 8,
            held: bits - 64,
            hold: (value >> 1) >> (63 - held),
        }
    }

    // Internal: asks for room for what is held. Writes it, the last byte filled up with zero bits.
    pub fn close(self, out: &mut [u8])
        requires { Closable self out.old }
        ensures { (bits before : List ℕ) → Packs bits before self out.old → out.new ≡ bytes_of (bytes_for (length bits)) bits ++ drop (bytes_for (length bits)) before }
    {
        let at = self.at;
        let left = (self.held as usize + 7) / 8;
        put(out, at, self.hold, left);
    }
}

// Internal: asks that the values fit the width and the output has room for them. Packs them to its front, and leaves what
// stands behind as it is.
pub fn pack(values: &[u64], width: u8, out: &mut [u8])
    requires { Packable width values.now out.old }
    ensures { out.new ≡ packed width values.now ++ drop (bytes_for (width * length values.now)) out.old }
{
    let mut packer = BitPacker::new();
    for value in values {
        packer = packer.write(out, *value, width);
    }
    packer.close(out);
}

// The `n` bytes from `at` on as a number, little end first. Where `n` is a literal 8 the compiled code has one load for the
// loop.
fn gather(area: &[u8], at: usize, n: usize) -> u64
    requires { (at + n ≤ length area.now) × (n ≤ 8) }
    ensures { result ≡ bytes_num (take n (drop at area.now)) }
{
    let mut word: u64 = 0;
    for k in (0..n).rev() {
        let byte = area[at + k] as u64;
        word = word * 256 + byte;
    }
    word
}

// The number whose `width` lowest bits are set. A shift by 64 would be none, so the full word is a case of its own.
fn mask(width: u8) -> u64
    requires { width ≤ 64 }
    ensures { result ≡ 2 ^ width - 1 }
{
    if width < 64 {
        (1u64 << width) - 1
    } else {
        u64::MAX
    }
}

// The `width` bits of `word` from bit `shift` on.
fn field(word: u64, shift: usize, width: u8) -> u64
    requires { (shift < 64) × (width ≤ 64) }
    ensures { result ≡ word / 2 ^ shift % 2 ^ width }
{
    (word >> shift) & mask(width)
}

// The bytes from `at` on as a number, little end first, of an area of fewer than eight.
fn fetch_short(area: &[u8], at: usize) -> u64
    requires { length area.now < 8 }
    ensures { result ≡ bytes_num (take 8 (drop at area.now)) }
{
    if area.len() <= at {
        return 0;
    }
    gather(area, at, area.len() - at)
}

// The bytes from `at` on as a number, little end first, where at most seven are left of an area of more: the last eight, without those before `at`. A shift
// instead of a loop, so that a loop over rows keeps its numbers in registers.
fn fetch_last(area: &[u8], at: usize) -> u64
    requires { (8 ≤ length area.now) × (length area.now < at + 8) }
    ensures { result ≡ bytes_num (take 8 (drop at area.now)) }
{
    if area.len() <= at {
        return 0;
    }
    let start = area.len() - 8;
    gather(area, start, 8) >> (8 * (at - start))
}

// The bytes from `at` on as a number, little end first: eight of them, or as many as there are. Whether the area has eight at all does not depend on
// the place, so that a loop over rows tests once a row.
fn fetch(area: &[u8], at: usize) -> u64
    ensures { result ≡ bytes_num (take 8 (drop at area.now)) }
{
    if area.len() < 8 {
        return fetch_short(area, at);
    }
    if area.len() - 8 < at {
        return fetch_last(area, at);
    }
    gather(area, at, 8)
}

// Internal: asks for a legal width. The number whose first bit is `bit`, of an area packed at `width` bits; what lies past the area's end counts as
// zero bits.
pub fn get_at(area: &[u8], width: u8, bit: usize) -> u64
    requires { legal width ≡ true }
    ensures { (index : ℕ) → bit ≡ index * width → result ≡ unpack width area.now index }
{
    let word = fetch(area, bit / 8);
    field(word, bit % 8, width)
}

// Internal: asks for the same. The number at `index`.
pub fn get(area: &[u8], width: u8, index: u32) -> u64
    requires { legal width ≡ true }
    ensures { result ≡ unpack width area.now index }
{
    get_at(area, width, (index as usize) * (width as usize))
}

// The numbers of the rows from `first + from` to `first + to`, one by one.
fn singly(area: &[u8], width: u8, first: u32, from: usize, to: usize, out: &mut [u64])
    requires { Singly width first from to (length out.old) }
    ensures { Unpacked width area.now first from out.old → Unpacked width area.now first to out.new }
{
    let step = width as usize;
    let mut bit = (first as usize + from) * step;
    for value in &mut out[from..to] {
        *value = get_at(area, width, bit);
        bit += step;
    }
}

// Eight bytes from `at` on as a number, little end first.
fn eight(area: &[u8], at: usize) -> u64
    requires { at + 8 ≤ length area.now }
    ensures { result ≡ bytes_num (take 8 (drop at area.now)) }
{
    gather(area, at, 8)
}

// Number `k` of eight that start with byte `at`, of `8 * whole + rest` bits each. Where `rest` and `k` are literals the byte and the shift are, but for the multiple of `whole`.
fn part(area: &[u8], at: usize, whole: usize, rest: usize, k: usize, width: u8) -> u64
    requires { Part (length area.now) at whole rest k width }
    ensures { (index : ℕ) → index * width ≡ 8 * at + k * width → result ≡ unpack width area.now index }
{
    let word = eight(area, at + k * whole + k * rest / 8);
    field(word, k * rest % 8, width)
}

// Puts it to its entry.
fn put_part(
    area: &[u8],
    at: usize,
    whole: usize,
    rest: usize,
    k: usize,
    width: u8,
    out: &mut [u64],
    i: usize,
)
    requires { Part (length area.now) at whole rest k width × (i + k < length out.old) }
    ensures { (first : ℕ) → (first + i) * width ≡ 8 * at → Unpacked width area.now first (i + k) out.old → Unpacked width area.now first (i + k + 1) out.new }
{
    out[i + k] = part(area, at, whole, rest, k, width);
}

// The eight numbers that start with byte `at`, to the entries from `i` on.
fn put_eight(
    area: &[u8],
    at: usize,
    whole: usize,
    rest: usize,
    width: u8,
    out: &mut [u64],
    i: usize,
)
    requires { Part (length area.now) at whole rest 7 width × (i + 8 ≤ length out.old) }
    ensures { (first : ℕ) → (first + i) * width ≡ 8 * at → Unpacked width area.now first i out.old → Unpacked width area.now first (i + 8) out.new }
{
    put_part(area, at, whole, rest, 0, width, out, i);
    put_part(area, at, whole, rest, 1, width, out, i);
    put_part(area, at, whole, rest, 2, width, out, i);
    put_part(area, at, whole, rest, 3, width, out, i);
    put_part(area, at, whole, rest, 4, width, out, i);
    put_part(area, at, whole, rest, 5, width, out, i);
    put_part(area, at, whole, rest, 6, width, out, i);
    put_part(area, at, whole, rest, 7, width, out, i);
}

// The numbers of the rows from `first + from` on, eight rows at a time: such a row starts with a byte, and so does the eighth behind it.
fn groups(area: &[u8], width: u8, rest: usize, first: u32, from: usize, to: usize, out: &mut [u64])
    requires { Groups width rest first from to (length area.now) (length out.old) }
    ensures { Unpacked width area.now first from out.old → Unpacked width area.now first to out.new }
{
    let step = width as usize;
    let whole = step / 8;
    let mut at = (first as usize + from) * step / 8;
    let mut i = from;
    // Counted by hand: with `step_by` a group costs more instructions, and with a count of groups a short run.
    while i < to {
        put_eight(area, at, whole, rest, width, out, i);
        at += step;
        i += 8;
    }
}

// The same, with a loop of its own for each rest of the width by 8, which alone decides the eight shifts: in each they are literals. There is no other rest.
fn groups_by_rest(area: &[u8], width: u8, first: u32, from: usize, to: usize, out: &mut [u64])
    requires { Groups width (width % 8) first from to (length area.now) (length out.old) }
    ensures { Unpacked width area.now first from out.old → Unpacked width area.now first to out.new }
{
    match width % 8 {
        0 => groups(area, width, 0, first, from, to, out),
        1 => groups(area, width, 1, first, from, to, out),
        2 => groups(area, width, 2, first, from, to, out),
        3 => groups(area, width, 3, first, from, to, out),
        4 => groups(area, width, 4, first, from, to, out),
        5 => groups(area, width, 5, first, from, to, out),
        6 => groups(area, width, 6, first, from, to, out),
        7 => groups(area, width, 7, first, from, to, out),
        _ => singly(area, width, first, from, to, out),
    }
}

// Whether eight bytes can be loaded at every row before `row`, in an area of `size` bytes.
fn loads_before(size: usize, width: u8, row: usize) -> bool
    requires { (row ≤ 2 ^ 32) × (width ≤ 64) }
    ensures { result ≡ leb (row * width / 8 + 8) size }
{
    row * (width as usize) / 8 + 8 <= size
}

// The entry up to which whole groups of eight from entry `from` on can be loaded: all of them, or all but the last eight groups, or none.
fn groups_end(size: usize, width: u8, first: u32, from: usize, rows: usize) -> usize
    requires { (first + rows ≤ 2 ^ 32) × (width ≤ 64) }
    ensures { from < result → Reached width first from result size rows }
{
    if rows < from {
        return from;
    }
    let all = rows - (rows - from) % 8;
    if loads_before(size, width, first as usize + all) {
        return all;
    }
    if all < 64 {
        return from;
    }
    if loads_before(size, width, first as usize + (all - 64)) {
        return all - 64;
    }
    from
}

// Internal: asks for a legal width and rows below 2^32. The numbers of the rows from `first` on, as many as the list has room for: eight at a time from the first row that
// starts with a byte whatever the width, as far as the area has eight bytes to load at each, and the others one by one.
pub fn get_run(area: &[u8], width: u8, first: u32, out: &mut [u64])
    requires { (legal width ≡ true) × (first + length out.old ≤ 2 ^ 32) }
    ensures { Unpacked width area.now first (length out.old) out.new }
{
    let rows = out.len();
    let from = ((8 - first % 8) % 8) as usize;
    let to = groups_end(area.len(), width, first, from, rows);
    if to <= from {
        singly(area, width, first, 0, rows, out);
        return;
    }
    singly(area, width, first, 0, from, out);
    groups_by_rest(area, width, first, from, to, out);
    singly(area, width, first, to, rows, out);
}
