// Where opening stops: the part that was being read and the offset where it begins, for any bytes. The bytes are read once more in
// opening's order, and every refusal on the way names its part.
#![tactic(auto)]

mod bodies;
mod fields;
pub mod numbers;

ghost use Rattle.byte_stop.specs.Meaning.{StopsAs};

use format::{PartName, Stop};

// Where opening some bytes stops, given a table for all blocks.
pub fn stop(bytes: &[u8]) -> Option<Stop>
    ensures { StopsAs bytes.now result }
{
    if bytes.len() == 0 {
        return Some(Stop {
            number: 5,
            name: PartName::Code,
            first: 0,
        });
    }
    let code = bytes[0];
    if 2 < code {
        return Some(Stop {
            number: 5,
            name: PartName::Code,
            first: 0,
        });
    }
    match fields::head(bytes) {
        Ok(head) => bodies::body(code, bytes, head),
        Err(t) => Some(t),
    }
}
