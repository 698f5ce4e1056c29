// A block that has been read, and its records.
ghost use Rattle.std.specs.Prelude.{◌≡◌, ◌+◌, ◌*◌, ◌≤◌, length};
ghost use Rattle.blocks.specs.Records.{Reads};
ghost use Rattle.blocks.specs.Reading.{place_of, Full};

mod questions;

use super::layout::{HEAD_LEN, PLACE_LEN};
use super::record::{Record, read_record};
use super::refusal::Refusal;
pub use questions::read_block;

// A block that has been read: each place within the count holds a record.
// The count is no length of the bytes: it is what the first two of them hold, read once.
#[derive(Clone, Copy)]
pub struct Block<'a> {
    bytes: &'a [u8],
    count: usize,
    ghost full: { Full bytes.now count },
}

impl<'a> Block<'a> {
    ghost use Rattle.blocks.specs.Opening.{Hands};

    // How many records the block holds.
    pub fn count(&self) -> usize
        ensures { result ≡ self.now.count }
    {
        self.count
    }

    // The record in place i, or nothing where the block holds none there.
    pub fn record(&self, i: usize) -> Option<Record<'a>>
        ensures { Hands self.now i result }
    {
        if i >= self.count {
            return None;
        }
        read_place(self.bytes, i).ok()
    }
}

// The record in place i of a block, or a refusal where its letter is not known.
fn read_place<'a>(bytes: &'a [u8], i: usize) -> Result<Record<'a>, Refusal>
    requires { 6 + 8 * i + 8 ≤ length bytes.now }
    ensures { Reads (place_of bytes.now i) result }
{
    let start = HEAD_LEN + PLACE_LEN * i;
    read_record(&bytes[start..start + PLACE_LEN])
}
