// Kinds of values by their numbers: 0 plain numbers, 1 signed numbers, 2 dates, 3 bools, 4 floats.
ghost use Rattle.std.specs.Prelude.{◌≡◌};
ghost use Rattle.c_numbers.specs.Kinds.{kind_from, kind_of, sheet_of};
ghost use Rattle.format.specs.Refusals.{answered_by};

use format::{Kind, Refusal};

// The kind of a number, if it is one.
pub fn kind_from(number: u32) -> Result<Kind, Refusal>
    ensures { answered_by result ≡ kind_from number }
{
    match number {
        0 => Ok(Kind::U64),
        1 => Ok(Kind::I64),
        2 => Ok(Kind::Date),
        3 => Ok(Kind::Bool),
        4 => Ok(Kind::F64),
        _ => Err(Refusal::Unfit),
    }
}

// That kind; plain numbers where the number is none.
pub fn kind_of(known: Result<Kind, Refusal>) -> Kind
    ensures { result ≡ kind_of known }
{
    known.unwrap_or(Kind::U64)
}

// The sheet to open under: 0, which is none, where the number is no kind.
pub fn sheet_of(known: Result<Kind, Refusal>, sheet: u32) -> u32
    ensures { result ≡ sheet_of known sheet }
{
    if known.is_ok() { sheet } else { 0 }
}
