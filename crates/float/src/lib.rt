// What f32 makes of 64-bit numbers: a number as f32, which the language casts to only where nothing is lost, and the saving of a gcd. Each function rounds once.
#![tactic(auto)]

pub mod saving;

ghost use Rattle.std.specs.Prelude.{◌≡◌, ◌*◌, ◌^◌, ◌<◌, pos};
ghost use Rattle.std.specs.Float.{binary32};
ghost use Rattle.std.specs.Float.Ieee.{of_int};

// The f32 nearest to an n below 2^48. Each half is an f32 exactly, so only the sum rounds.
fn of_halves(n: u64) -> f32
    requires { n < 2 ^ 48 }
    ensures { result ≡ of_int binary32 (pos n) }
{
    ((n / 0x100_0000) as f32) * 16777216.0 + ((n % 0x100_0000) as f32)
}

// The f32 nearest to n * 2^16, for an n below 2^48. Again only the sum rounds.
fn of_upper_halves(n: u64) -> f32
    requires { n < 2 ^ 48 }
    ensures { result ≡ of_int binary32 (pos (n * 2 ^ 16)) }
{
    ((n / 0x100_0000) as f32) * 1099511627776.0 + ((n % 0x100_0000) as f32) * 65536.0
}

// Rust's `n as f32`, the f32 nearest to n, a tie to the even one. Of a number of more than 48 bits the upper 48 are kept; if the
// others are not all 0 the last kept is set, so that no tie arises where there is none.
pub(crate) fn nearest(n: u64) -> f32
    ensures { result ≡ of_int binary32 (pos n) }
{
    if n < 0x1_0000_0000_0000 {
        return of_halves(n);
    }
    if n % 0x1_0000 == 0 {
        return of_upper_halves(n / 0x1_0000);
    }
    of_upper_halves(n / 0x2_0000 * 2 + 1)
}
