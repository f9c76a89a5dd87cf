// The parts of opening: the body of a codec, and the rows of an answer that have blocks.
ghost use Rattle.std.specs.Prelude.{◌≡◌};
ghost use Rattle.format.specs.Opening.{column_in, open_body};
ghost use Rattle.open_column.specs.Opening.{tabled};
ghost use Rattle.format.specs.Refusals.{answered_by};

use format::{Codec, Column, Head, Refusal};

// The body of a codec, by its number.
#[tactic(auto, unfolding(format::specs::Opening::open_body))]
pub(crate) fn load(
    code: u8,
    bytes: &[u8],
    head: Head,
    room: usize,
) -> Result<(Column, Option<usize>), Refusal>
    ensures { answered_by result ≡ column_in (open_body code bytes.now head room) }
{
    match code {
        0 => bitpacked::reader::load(bytes, head),
        1 => linear::reader::load(bytes, head),
        _ => blockwise_linear::reader::load(bytes, head, room),
    }
}

// The rows whose blocks go to the table: those of a Blockwise column.
pub fn table_rows(opened: Result<(Column, Option<usize>), Refusal>) -> u32
    ensures { result ≡ tabled (answered_by opened) }
{
    match opened {
        Ok((column, _)) => match column.codec {
            Codec::Blockwise => column.rows,
            Codec::Bitpacked => 0,
            Codec::Linear(_, _) => 0,
        },
        Err(_) => 0,
    }
}
