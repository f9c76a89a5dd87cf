// The rows beside the list, a chunk at a time.
ghost use Rattle.std.specs.Prelude.{◌≡◌, ◌+◌, ◌^◌, ◌≤◌, ◌<◌, length, take, drop};
ghost use Rattle.format.specs.Typed.{stored_as};
ghost use Rattle.read_chunk.specs.Stretch.{counted};
ghost use Rattle.check_verdict.specs.Walks.{same_front, behind};

use format::{Kind, Refusal};
use read_chunk::taking::values_of;

// A walk over the rows: all before `at` are the list's values. It goes on while no other was met, up to a chunk that has no values.
#[derive(Clone, Copy)]
pub struct Walk {
    pub at: u32,
    pub going: bool,
}

// How many numbers at the front are those that the values of a list are stored as.
fn same_front(kind: Kind, numbers: &[u64], values: &[u64]) -> usize
    ensures { result ≡ same_front numbers.now (stored_as kind values.now) }
{
    numbers
        .iter()
        .zip(values)
        .take_while(|(number, value)| **number == monotonic_mapping::stored_of(kind, **value))
        .count()
}

// Internal: asks for a chunk's values in the front of a list, and for a row within the other. Goes on behind that chunk.
pub(crate) fn step(
    kind: Kind,
    values: &[u64],
    decoded: &[u64],
    stretch: Result<usize, (usize, Refusal)>,
    w: Walk,
) -> Walk
    requires { (counted stretch ≤ length decoded.now) × (w.at ≤ length values.now) × (w.at + counted stretch < 2 ^ 32) }
    ensures { result ≡ behind (counted stretch) (same_front (take (counted stretch) decoded.now) (drop w.at (stored_as kind values.now))) w }
{
    let n = values_of(stretch);
    if n == 0 {
        return Walk {
            at: w.at,
            going: false,
        };
    }
    let same = same_front(kind, &decoded[..n], &values[w.at as usize..]);
    Walk {
        at: w.at + same as u32,
        going: n <= same,
    }
}
