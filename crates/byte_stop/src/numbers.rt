// Where opening stops as four plain numbers: the refusal's, the part, the number of its block, 0 where it is no block's, and the offset
// where it begins. All are 0 where opening does not stop.
ghost use Rattle.std.specs.Prelude.{◌≡◌};
ghost use Rattle.format.specs.Stops.{stop_of};
ghost use Rattle.byte_stop.specs.Numbers.{stop_numbers};

use byte_part::naming::{block_of, which_part};

// Those of some bytes.
pub fn stop_numbers(bytes: &[u8]) -> [u64; 4]
    ensures { result ≡ stop_numbers (stop_of bytes.now) }
{
    let Some(stop) = crate::stop(bytes) else {
        return [0; 4];
    };
    let block = block_of(stop.name) as u64;
    [
        word::wide(stop.number),
        which_part(stop.name),
        block,
        stop.first as u64,
    ]
}
