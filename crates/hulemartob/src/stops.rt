// Where opening stops.
ghost use Rattle.hulemartob.specs.Exports.{StopPromise};

// The refusal's number, the part that was being read, its block and the offset where it begins; zeros where the bytes open.
#[unsafe(no_mangle)]
pub extern "C" fn hulemartob_stop(bytes: &[u8], stop: &mut [u64; 4])
    ensures { StopPromise bytes.now stop.new }
{
    *stop = byte_stop::numbers::stop_numbers(bytes);
}
