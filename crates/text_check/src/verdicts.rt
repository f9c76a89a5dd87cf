// A check within a program's limits.
ghost use Rattle.std.specs.Prelude.{◌≡◌, ◌≤◌, length, take};
ghost use Rattle.format.specs.Checking.{checked};
ghost use Rattle.format.specs.Refusals.{checked_meaning};
ghost use Rattle.text_check.specs.Verdicts.{opened_here_under, limited};

use format::{Kind, Mismatch, Refusal};

// The most bytes and rows of a column, and the blocks of so many rows.
const BYTES_MAX: usize = 65536;

const ROWS_MAX: u32 = 1048576;

const BLOCKS_MAX: usize = 2048;

// A verdict within the limit on rows: a column of more is refused 16, be it that it has more blocks or that no list is as long.
fn within_rows(checked: Result<(), Mismatch>) -> Result<(), Mismatch>
    ensures { checked_meaning result ≡ limited (checked_meaning checked) }
{
    match checked {
        Err(Mismatch::Unopened(Refusal::TableShort { .. })) => {
            Err(Mismatch::Unopened(Refusal::OverLimit))
        }
        Err(Mismatch::Counts { column, .. }) if ROWS_MAX < column => {
            Err(Mismatch::Unopened(Refusal::OverLimit))
        }
        within => within,
    }
}

// Internal: asks for so many values in the list, and for no more than the limit on rows. Checks a column against them.
pub(crate) fn check_front(
    sheet: u32,
    bytes: &[u8],
    values: &[u64],
    n: usize,
) -> Result<(), Mismatch>
    requires { (n ≤ length values.now) × (n ≤ 1048576) }
    ensures { checked_meaning result ≡ checked (opened_here_under sheet bytes.now) bytes.now (take n values.now) }
{
    if BYTES_MAX < bytes.len() {
        return Err(Mismatch::Unopened(Refusal::OverLimit));
    }
    let opened = open_column::open_plain_under(sheet, bytes, BLOCKS_MAX);
    let checked = check_verdict::verdict_on(Kind::U64, opened, bytes, &values[..n]);
    within_rows(checked)
}
