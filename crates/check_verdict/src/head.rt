// The head beside the list's statistics, once the rows are walked.
ghost use Rattle.std.specs.Prelude.{◌≡◌, ◌+◌, ◌*◌, ◌^◌, ◌<◌, length};
ghost use Rattle.format.specs.Checking.{judged_head};
ghost use Rattle.format.specs.Refusals.{checked_meaning};
ghost use Rattle.format.specs.Typed.{stored_as};
ghost use Rattle.check_verdict.specs.Walks.{verdict};

use crate::rows::Walk;
use format::{Column, ColumnStats, Kind, Mismatch};

// Internal: asks for a maximum of 64 bits. Minimum, gcd and maximum, in this order.
fn judge(column: Column, stats: ColumnStats) -> Result<(), Mismatch>
    requires { column.minimum + column.gcd * column.count < 2 ^ 64 }
    ensures { checked_meaning result ≡ judged_head column stats }
{
    if column.minimum != stats.minimum {
        return Err(Mismatch::Minimum);
    }
    if column.gcd != stats.gcd {
        return Err(Mismatch::Gcd);
    }
    if column.minimum + column.gcd * column.count != stats.maximum {
        return Err(Mismatch::Maximum);
    }
    Ok(())
}

// Internal: asks for a maximum of 64 bits, and for fewer than 2^32 values. The verdict behind a walk: the row that it ended at, or, where none is left, that on the head.
pub(crate) fn answer(kind: Kind, column: Column, values: &[u64], w: Walk) -> Result<(), Mismatch>
    requires { (column.minimum + column.gcd * column.count < 2 ^ 64) × (length values.now < 2 ^ 32) }
    ensures { checked_meaning result ≡ verdict column (stored_as kind values.now) w.at }
{
    if (w.at as usize) < values.len() {
        return Err(Mismatch::Unequal { row: w.at });
    }
    judge(column, stats_collector::collect(kind, values))
}
