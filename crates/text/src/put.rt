// Text written into a lent buffer at an offset. Each function returns the offset behind what it wrote.
ghost use Rattle.std.specs.Prelude.{◌+◌, ◌≤◌, ◌<◌, [], ◌∷◌, length};
ghost use Rattle.format.specs.Outcome.{Wrote};
ghost use Rattle.format.specs.Listing.{decimal, named};

// Internal: asks for room. One byte.
pub fn put_byte(out: &mut [u8], at: usize, b: u8) -> usize
    requires { at < length out.old }
    ensures { Wrote out.old at (b ∷ []) out.new result }
{
    out[at] = b;
    at + 1
}

// Internal: asks for room. A text as it stands.
pub fn put_text(out: &mut [u8], at: usize, s: &[u8]) -> usize
    requires { at + length s.now ≤ length out.old }
    ensures { Wrote out.old at s.now out.new result }
{
    let end = at + s.len();
    out[at..end].copy_from_slice(s);
    end
}

// Internal: asks for room for its digits. A number in decimal.
pub fn put_decimal(out: &mut [u8], at: usize, n: u64) -> usize
    requires { at + length (decimal n) ≤ length out.old }
    ensures { Wrote out.old at (decimal n) out.new result }
{
    let mut digits = [0u8; 20];
    let k = io::decimal(n, &mut digits);
    put_text(out, at, &digits[..k])
}

// Internal: asks for room for both. A name and a number.
pub fn put_named(out: &mut [u8], at: usize, name: &[u8], n: u64) -> usize
    requires { at + length (named name.now n) ≤ length out.old }
    ensures { Wrote out.old at (named name.now n) out.new result }
{
    let number = put_text(out, at, name);
    put_decimal(out, number, n)
}
