// What the program is given: the sheet as text, and a file of values.
ghost use Rattle.std.specs.Prelude.{◌≡◌, ◌/◌, ◌≤◌, length};
ghost use Rattle.std.proofs.lemmas.List.Edits.{sets};
ghost use Rattle.text_check.specs.Given.{sheet_from, words, TakenAs};

use format::Refusal;

// The most bytes of a file of values.
const FILE_MAX: usize = 524288;

// The sheet that a text names: 0, which is no sheet, where it is neither of the digits 1 and 2.
#[tactic(auto, unfolding(crate::specs::Given::sheet_from))]
pub(crate) fn sheet_of(text: &[u8]) -> u32
    ensures { result ≡ sheet_from text.now }
{
    match text {
        [b'1'] => 1,
        [b'2'] => 2,
        _ => 0,
    }
}

// Internal: asks for room. Puts the values of a file, eight bytes each, into the front of a list.
fn put_values(file: &[u8], values: &mut [u64])
    requires { (length file.now / 8 ≤ length values.old) × (length file.now ≤ 524288) }
    ensures { values.new ≡ sets values.old 0 (words (length file.now / 8) file.now) }
{
    for i in 0..file.len() / 8 {
        values[i] = bitpacker::get(file, 64, i as u32);
    }
}

// Puts the values of a file into the front of the lent list; a refusal leaves it as it was.
pub(crate) fn take(file: &[u8], values: &mut [u64; 65536]) -> Result<usize, Refusal>
    ensures { TakenAs file.now result values.old values.new }
{
    if FILE_MAX < file.len() {
        return Err(Refusal::OverLimit);
    }
    if file.len() % 8 != 0 {
        return Err(Refusal::Unfit);
    }
    put_values(file, values);
    Ok(file.len() / 8)
}
