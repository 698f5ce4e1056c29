// Turn blocks: the records of a turn, laid out in 512 bytes.
//
// A block has these parts, and each number in it has its low byte first:
//
//   bytes   0 to   1   how many records the block holds
//   bytes   2 to   5   the number of the block
//   bytes   6 to 509   63 places of eight bytes, one for each record
//   bytes 510 to 511   the check: the sum of (i + 1) * byte i, for i from 0 to 509, modulo 65521
//
// A record is a letter (B, R, W, C, D or S), a process (one byte), an object (two bytes) and a content (four bytes).
// The places past the records are zero when a block is written. They count for the check, and are not read as records.
//
// A block can be refused. The questions come in this order, and the first that is answered 'no' is the refusal:
//
//   11   has it 512 bytes?
//   12   is its check right?
//   13   is its number the one that comes next?
//   14   are there at most 63 records?
//   15   is the letter of each record known?
//
// The reader asks all five. The writer asks 11, 14 and 15, and leaves the bytes as they were where it refuses.
#![tactic(auto)]

mod check;
mod layout;
mod letter;
mod reader;
mod record;
mod refusal;
mod round_trip;
mod writer;

pub use check::check_of;
pub use layout::BLOCK_LEN;
pub use reader::{Block, read_block};
pub use record::Record;
pub use refusal::Refusal;
pub use round_trip::write_then_read;
pub use writer::{Entry, write_block};
