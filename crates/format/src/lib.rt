// The format: the types that every crate shares. What the bytes of a column mean is defined in specs/, in the order of the rules; the
// demands on those definitions are stated in specs/Demands.antt and proved in proofs/.
#![tactic(auto)]

ghost use Rattle.std.specs.Prelude.{◌≡◌, get_or};
ghost use Rattle.format.specs.Comparing.{equal_answers};
ghost use Rattle.format.specs.Refusals.{paper, answered_by};
ghost use Rattle.format.specs.Bodies.{block_count};
ghost use Rattle.format.specs.Opening.{column_of};

// Why a call refuses: a case for each number, with what it also returns (specs/Refusals.antt has the table).
#[derive(Clone, Copy)]
pub enum Refusal {
    TooManyValues,
    UnknownCodec { place: usize },
    NoCodecApplies,
    OutputShort { needed: usize },
    NotAColumn,
    BadField { offset: usize },
    GcdZero,
    OutOfRange,
    IllegalWidth { offset: usize },
    AreaShort,
    TableShort { blocks: usize },
    NoSuchRow,
    Unfit,
    OutOfBounds { row: u32 },
    ListShort { found: usize },
    OverLimit,
    Offending { offset: usize },
    UnknownSheet,
    BadRecording,
    NotForView,
}

impl Refusal {
    // The refusal's number in the table.
    pub fn number(self) -> u8
        ensures { result ≡ (paper self).0 }
    {
        match self {
            Refusal::TooManyValues => 1,
            Refusal::UnknownCodec { place: _ } => 2,
            Refusal::NoCodecApplies => 3,
            Refusal::OutputShort { needed: _ } => 4,
            Refusal::NotAColumn => 5,
            Refusal::BadField { offset: _ } => 6,
            Refusal::GcdZero => 7,
            Refusal::OutOfRange => 8,
            Refusal::IllegalWidth { offset: _ } => 9,
            Refusal::AreaShort => 10,
            Refusal::TableShort { blocks: _ } => 11,
            Refusal::NoSuchRow => 12,
            Refusal::Unfit => 13,
            Refusal::OutOfBounds { row: _ } => 14,
            Refusal::ListShort { found: _ } => 15,
            Refusal::OverLimit => 16,
            Refusal::Offending { offset: _ } => 17,
            Refusal::UnknownSheet => 18,
            Refusal::BadRecording => 19,
            Refusal::NotForView => 20,
        }
    }

    // The value that a refusal also returns, 0 where it returns none.
    pub fn also(self) -> u64
        ensures { result ≡ get_or (paper self).1 0 0 }
    {
        match self {
            Refusal::TooManyValues => 0,
            Refusal::UnknownCodec { place } => place as u64,
            Refusal::NoCodecApplies => 0,
            Refusal::OutputShort { needed } => needed as u64,
            Refusal::NotAColumn => 0,
            Refusal::BadField { offset } => offset as u64,
            Refusal::GcdZero => 0,
            Refusal::OutOfRange => 0,
            Refusal::IllegalWidth { offset } => offset as u64,
            Refusal::AreaShort => 0,
            Refusal::TableShort { blocks } => blocks as u64,
            Refusal::NoSuchRow => 0,
            Refusal::Unfit => 0,
            Refusal::OutOfBounds { row } => row as u64,
            Refusal::ListShort { found } => found as u64,
            Refusal::OverLimit => 0,
            Refusal::Offending { offset } => offset as u64,
            Refusal::UnknownSheet => 0,
            Refusal::BadRecording => 0,
            Refusal::NotForView => 0,
        }
    }
}

// Whether two answers are equal: refusals are by their numbers.
pub fn equal_answers(left: Result<u64, Refusal>, right: Result<u64, Refusal>) -> bool
    ensures { result ≡ equal_answers (answered_by left) (answered_by right) }
{
    match (left, right) {
        (Ok(v), Ok(w)) => v == w,
        (Err(a), Err(b)) => a.number() == b.number(),
        _ => false,
    }
}

// Statistics of a list of values.
#[derive(Clone, Copy)]
pub struct ColumnStats {
    pub minimum: u64,
    pub maximum: u64,
    pub gcd: u64,
    pub rows: u32,
}

// A line in whole numbers: the slope has 32 bits after the point.
#[repr(C)]
#[derive(Clone, Copy, Default)]
pub struct Line {
    pub slope: u64,
    pub intercept: u64,
}

// An opened column's codec, with that codec's own numbers.
#[derive(Clone, Copy)]
pub enum Codec {
    Bitpacked,
    Linear(Line, u8),
    Blockwise,
}

// The rows of a column that are shown: `rows` of them, from the column's row `first` on.
#[derive(Clone, Copy)]
pub struct Window {
    pub first: u32,
    pub rows: u32,
}

// An opened column. Its packed area is `size` bytes from `start` on; its rows are read through its window.
#[derive(Clone, Copy)]
pub struct Column {
    pub minimum: u64,
    pub gcd: u64,
    pub count: u64,
    pub rows: u32,
    pub start: usize,
    pub size: usize,
    pub window: Window,
    pub codec: Codec,
}

// A block of a Blockwise column: its line, the width of its packed numbers, and its start byte, counted from the area's start.
#[repr(C)]
#[derive(Clone, Copy, Default)]
pub struct Block {
    pub line: Line,
    pub bits: u64,
    pub start: u64,
}

// How many blocks so many rows have.
pub fn block_count(rows: u32) -> usize
    ensures { result ≡ block_count rows }
{
    (rows as usize + 511) / 512
}

// Where a row's packed number stands: number `row`, of `bits` bits, of a run that starts at byte `start` of the area.
#[derive(Clone, Copy)]
pub struct Place {
    pub start: u64,
    pub row: u32,
    pub bits: u64,
}

// A row of a column's window, a row of the column, and a row of one block: three counts.
#[derive(Clone, Copy)]
pub struct WindowRow(pub u32);

#[derive(Clone, Copy)]
pub struct ColumnRow(pub u32);

#[derive(Clone, Copy)]
pub struct BlockRow(pub u32);

// A number that was read from the bytes, the offset behind it, how many bytes it took, and its offset if it is spelled longer than need be.
#[derive(Clone, Copy)]
pub struct Field {
    pub value: u64,
    pub next: usize,
    pub used: usize,
    pub longer: Option<usize>,
}

// A head that was read, the offset behind it, and the offset of its first number that is spelled longer than need be, if there is one.
#[derive(Clone, Copy)]
pub struct Head {
    pub minimum: u64,
    pub gcd: u64,
    pub count: u64,
    pub rows: u32,
    pub next: usize,
    pub longer: Option<usize>,
}

impl Head {
    // The column of a head, with its area and its codec. Its window is the whole column.
    pub fn column(self, start: usize, size: usize, codec: Codec) -> Column
        ensures { result ≡ column_of self start size codec }
    {
        let window = Window {
            first: 0,
            rows: self.rows,
        };
        Column {
            minimum: self.minimum,
            gcd: self.gcd,
            count: self.count,
            rows: self.rows,
            start,
            size,
            window,
            codec,
        }
    }
}

// A line and a width that were read, the offset behind them, and the offset of the line's first number that is spelled longer than need be, if there is one.
#[derive(Clone, Copy)]
pub struct Fields {
    pub line: Line,
    pub bits: u8,
    pub next: usize,
    pub longer: Option<usize>,
}

// What the values of a column are. A list of them is lent as words: a signed number or a date by its two's complement bits, a float by
// its bits, since a NaN's bits are no number of the language, a bool as 0 or any other word.
#[derive(Clone, Copy)]
pub enum Kind {
    U64,
    I64,
    Date,
    Bool,
    F64,
}

// The first and the last stored number of a range.
#[derive(Clone, Copy)]
pub struct Range {
    pub low: u64,
    pub high: u64,
}

// The header of a recording of lookups: how many records it has, from which offset on, and how many row numbers, from which on.
#[derive(Clone, Copy, Default)]
pub struct Recording {
    pub records: u32,
    pub start: u32,
    pub numbers: u32,
    pub list: u32,
}

// A recorded lookup: its range of values, its rows, the place of its first row number in the list, and how many there are.
#[derive(Clone, Copy, Default)]
pub struct Recorded {
    pub low: u64,
    pub high: u64,
    pub first: u32,
    pub end: u32,
    pub place: u32,
    pub many: u32,
}

// Replaying recorded lookups: the record whose rows differ, if one does, and how many records were run.
#[derive(Clone, Copy)]
pub struct Report {
    pub differing: Option<u32>,
    pub run: u32,
}

// Why a column is not that of a list: the first reason.
#[derive(Clone, Copy)]
pub enum Mismatch {
    Unopened(Refusal),
    Counts { column: u32, list: usize },
    Unequal { row: u32 },
    Minimum,
    Gcd,
    Maximum,
}

// What a part of a column's bytes is: a field of the head, of Linear's line or of a block by its number; the packed area; the bytes behind it; what is left over in
// the footer, and the footer's length.
#[derive(Clone, Copy)]
pub enum PartName {
    Code,
    Minimum,
    Gcd,
    Count,
    Rows,
    Slope,
    Intercept,
    Width,
    Area,
    Behind,
    BlockSlope(u32),
    BlockIntercept(u32),
    BlockWidth(u32),
    Spare,
    FooterLength,
}

// How a part is spelled: a varint, one byte, the footer's length in four; or bytes that are no one number.
#[derive(Clone, Copy)]
pub enum Shape {
    Varint,
    Byte,
    Four,
    Area,
    Behind,
    Spare,
}

// A part: what it is, the offset of its first byte, how many bytes it has, and the number that they spell, 0 where they spell none.
#[derive(Clone, Copy)]
pub struct Part {
    pub name: PartName,
    pub first: usize,
    pub bytes: usize,
    pub value: u64,
}

// Where opening stops: the number of its refusal, the part that was being read, and the offset where that begins.
#[derive(Clone, Copy)]
pub struct Stop {
    pub number: u8,
    pub name: PartName,
    pub first: usize,
}
