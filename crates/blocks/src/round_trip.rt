// Writes a block and reads it back: what is read is what was written.
ghost use Rattle.std.specs.Prelude.{length};
ghost use Rattle.blocks.specs.RoundTrip.{Restores};

use super::reader::{Block, read_block};
use super::refusal::Refusal;
use super::writer::{Entry, write_block};

// Writes a block and reads it back from the same bytes: the records that were written come back in their order, under the same number.
#[tactic(auto, using(crate::proofs::Restored::restored))]
pub fn write_then_read<'a>(
    out: &'a mut [u8],
    number: u32,
    entries: &[Entry],
) -> Result<Block<'a>, Refusal>
    ensures { Restores (length out.old) number entries.now result }
{
    write_block(out, number, entries)?;
    read_block(out, number)
}
