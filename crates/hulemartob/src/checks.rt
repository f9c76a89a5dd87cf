// Columns checked against lists.
ghost use Rattle.hulemartob.specs.Exports.{CheckPromise};

use c_answers::checks::verdict_told;
use c_numbers::kinds::{kind_from, kind_of, sheet_of};
use format::Block;

// Opens a column under a sheet and checks it against a list of values of a kind. A column that does not open is a verdict, and no refusal of the call.
#[unsafe(no_mangle)]
pub extern "C" fn hulemartob_check(
    kind: u32,
    sheet: u32,
    bytes: &[u8],
    values: &[u64],
    table: &mut [Block],
    verdict: &mut [u64; 3],
    refusal: &mut [u64; 2],
)
    ensures { CheckPromise kind sheet bytes.now values.now refusal.new verdict.old verdict.new table.old table.new }
{
    let known = kind_from(kind);
    let values_kind = kind_of(known);
    let under = sheet_of(known, sheet);
    let checked = table_asked::check_as(values_kind, under, bytes, values, table);
    verdict_told(known, checked, verdict, refusal);
}
