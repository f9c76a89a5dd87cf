// A divisor made ready, so that its multiples are told, and divided, by multiplications.
//
// It is 2^shift times an odd number, which has an inverse modulo 2^64. A multiple shifted down, times the inverse, is the quotient; whether a number is a
// multiple is told by multiplying back. So nothing but the time rests on the inverse: with a wrong one the plain division would be made.
ghost use Rattle.std.specs.Prelude.{◌≡◌, ◌/◌, ◌%◌, ◌<◌, true};
ghost use Rattle.word.specs.Divisors.{Ready};

// A divisor, the power of two in it, the inverse of what is left, and the largest number whose product with it has 64 bits.
#[derive(Clone, Copy)]
pub struct Divisor {
    pub by: u64,
    pub shift: u32,
    pub inverse: u64,
    pub most: u64,
}

// A turn of Newton's rule for the inverse of an odd number modulo 2^64: it doubles the low bits that are right.
fn closer(odd: u64, x: u64) -> u64 {
    crate::mul(x, crate::sub(2, crate::mul(odd, x)))
}

// The inverse of an odd number modulo 2^64. The number is its own inverse modulo 8, so five turns give 96 bits.
fn inverse_of(odd: u64) -> u64 {
    let six = closer(odd, odd);
    let twelve = closer(odd, six);
    let some = closer(odd, twelve);
    let most = closer(odd, some);
    closer(odd, most)
}

// A divisor made ready.
pub fn ready(by: u64) -> Divisor
    ensures { (result.by ≡ by) × Ready result }
{
    if by == 0 {
        return Divisor {
            by,
            shift: 0,
            inverse: 0,
            most: 0,
        };
    }
    let shift = u64::trailing_zeros(by) % 64;
    Divisor {
        by,
        shift,
        inverse: inverse_of(by >> shift),
        most: u64::MAX / by,
    }
}

// Internal: asks for a divisor that was made ready. Whether a number is told to be a multiple; one that is told is one.
pub fn divides(d: Divisor, n: u64) -> bool
    requires { Ready d }
    ensures { result ≡ true → n % d.by ≡ 0 }
{
    let q = crate::mul(n >> d.shift, d.inverse);
    if d.most < q {
        return false;
    }
    q * d.by == n
}

// Internal: asks for a divisor above 0 that was made ready. A number divided by it: itself where the divisor is 1, the product with the inverse where it is a
// multiple.
pub fn quotient(d: Divisor, n: u64) -> u64
    requires { Ready d × (0 < d.by) }
    ensures { result ≡ n / d.by }
{
    if d.by == 1 {
        return n;
    }
    let q = crate::mul(n >> d.shift, d.inverse);
    if q <= d.most {
        if q * d.by == n {
            return q;
        }
    }
    n / d.by
}
