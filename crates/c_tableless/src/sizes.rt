// What the choice compares of each codec, as three numbers: that of a codec that does not apply is 2^64 - 1.
ghost use Rattle.std.specs.Prelude.{◌≡◌};
ghost use Rattle.u64_based.specs.Calls.{sizes_meaning};
ghost use Rattle.c_numbers.specs.Explaining.{Tells};
ghost use Rattle.c_tableless.specs.Calls.{sizes_from, size_number, sizes_told};

use c_numbers::kinds::kind_from;
use c_numbers::{ACCEPTED, told};
use format::Refusal;
use u64_based::Sizes;

// What the choice compares of each codec, for a list of values of a kind.
pub fn sizes(kind: u32, values: &[u64]) -> Result<Sizes, Refusal>
    ensures { sizes_meaning result ≡ sizes_from kind values.now }
{
    u64_based::sizes_as(kind_from(kind)?, values)
}

// The number of one.
fn size_number(size: Option<u64>) -> u64
    ensures { result ≡ size_number size }
{
    size.unwrap_or(u64::MAX)
}

// What sizing found: Bitpacked, Linear, Blockwise.
pub fn sizes_told(answer: Result<Sizes, Refusal>, numbers: &mut [u64; 3], refusal: &mut [u64; 2])
    ensures { Tells (sizes_told (sizes_meaning answer)) refusal.new numbers.old numbers.new }
{
    match answer {
        Ok(sizes) => {
            *numbers = [
                size_number(sizes.bitpacked),
                size_number(sizes.linear),
                size_number(sizes.blockwise),
            ];
            *refusal = ACCEPTED;
        }
        Err(q) => {
            *refusal = told(q);
        }
    }
}
