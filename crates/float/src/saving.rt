// What the gcd is thought to save of an estimate, worked out in f32 as the Rust does.
ghost use Rattle.std.specs.Prelude.{◌≡◌, ◌<◌, from_bits, slice_index};
ghost use Rattle.std.specs.Float.{binary32};
ghost use Rattle.std.specs.Float.Ieee.{le};
ghost use Rattle.format.specs.Outcome.{pick};
ghost use Rattle.format.specs.Saving.{power_bounds, exponent_of, saving};

// For each exponent from 0 to 64 the bits of the least f32 whose log2, rounded to f32, is at least that exponent.
const BOUNDS: [u32; 65] = [
    0x3f800000, 0x40000000, 0x40800000, 0x40ffffff, 0x417fffff, 0x41fffffe, 0x427ffffe, 0x42fffffe,
    0x437ffffe, 0x43fffffb, 0x447ffffb, 0x44fffffb, 0x457ffffb, 0x45fffffb, 0x467ffffb, 0x46fffffb,
    0x477ffffb, 0x47fffff5, 0x487ffff5, 0x48fffff5, 0x497ffff5, 0x49fffff5, 0x4a7ffff5, 0x4afffff5,
    0x4b7ffff5, 0x4bfffff5, 0x4c7ffff5, 0x4cfffff5, 0x4d7ffff5, 0x4dfffff5, 0x4e7ffff5, 0x4efffff5,
    0x4f7ffff5, 0x4fffffea, 0x507fffea, 0x50ffffea, 0x517fffea, 0x51ffffea, 0x527fffea, 0x52ffffea,
    0x537fffea, 0x53ffffea, 0x547fffea, 0x54ffffea, 0x557fffea, 0x55ffffea, 0x567fffea, 0x56ffffea,
    0x577fffea, 0x57ffffea, 0x587fffea, 0x58ffffea, 0x597fffea, 0x59ffffea, 0x5a7fffea, 0x5affffea,
    0x5b7fffea, 0x5bffffea, 0x5c7fffea, 0x5cffffea, 0x5d7fffea, 0x5dffffea, 0x5e7fffea, 0x5effffea,
    0x5f7fffea,
];

// The bound of an exponent.
fn bound(k: usize) -> f32
    requires { k < 65 }
    ensures { result ≡ from_bits binary32 (slice_index power_bounds k) }
{
    f32::from_bits(BOUNDS[k])
}

// The last exponent whose bound x reaches, once k has been tried.
fn tried(x: f32, k: usize, last: u64) -> u64
    requires { k < 65 }
    ensures { result ≡ pick (le (from_bits binary32 (slice_index power_bounds k)) x) k last }
{
    if bound(k) <= x { k as u64 } else { last }
}

// log2 of the gcd in f32, cut to a whole number.
fn exponent(gcd: u64) -> u64
    ensures { result ≡ exponent_of gcd }
{
    let x = crate::nearest(gcd);
    let mut last: u64 = 0;
    for k in 0..65 {
        last = tried(x, k, last);
    }
    last
}

// What the gcd is thought to save over so many rows: the product and its eighth are rounded once each, and cut.
pub fn saving_of(gcd: u64, rows: u32) -> u64
    ensures { result ≡ saving gcd rows }
{
    let e = exponent(gcd) as f32;
    let product = e * std::num::nearest_u32_to_f32(rows);
    std::num::truncating_f32_to_u64(product / 8.0)
}
