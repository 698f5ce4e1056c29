// Reads a block: asks the five questions in their order.
ghost use Rattle.std.specs.Prelude.{◌≡◌, ℕ, ◌+◌, ◌*◌, ◌<◌, ◌≤◌, length, slice_index};
ghost use Rattle.blocks.specs.Reading.{records_of, letters_known};
ghost use Rattle.blocks.specs.Opening.{Opens};

use super::{Block, read_place};
use crate::check::check_of;
use crate::layout::{BLOCK_LEN, BODY_LEN, COUNT_AT, NUMBER_AT, PLACES};
use crate::refusal::Refusal;

// The N bytes from byte i on.
fn bytes_at<const N: usize>(bytes: &[u8], i: usize) -> [u8; N]
    requires { i + N ≤ length bytes.now }
    ensures { (k : ℕ) → k < N → slice_index result k ≡ slice_index bytes.now (i + k) }
{
    *bytes[i..].first_chunk::<N>().unwrap()
}

// Whether the letter of each record in the first `count` places is known.
fn letters_known(bytes: &[u8], count: usize) -> bool
    requires { 6 + 8 * count ≤ length bytes.now }
    ensures { result ≡ letters_known (records_of bytes.now count) }
{
    (0..count).all(|i| read_place(bytes, i).is_ok())
}

// The block in the bytes, where its number is the next one; or the first of the five questions that is answered 'no'.
// (Bytes and number are two arguments: a struct of both would be made at each call and taken apart here.)
#[tactic(auto, using(crate::proofs::Listed::full))]
pub fn read_block<'a>(bytes: &'a [u8], next: u32) -> Result<Block<'a>, Refusal>
    ensures { Opens bytes.now next result }
{
    if bytes.len() != BLOCK_LEN {
        return Err(Refusal::Length);
    }
    if u16::from_le_bytes(bytes_at(bytes, BODY_LEN)) != check_of(bytes) {
        return Err(Refusal::Check);
    }
    if u32::from_le_bytes(bytes_at(bytes, NUMBER_AT)) != next {
        return Err(Refusal::Number);
    }
    let count = usize::from(u16::from_le_bytes(bytes_at(bytes, COUNT_AT)));
    if count > PLACES {
        return Err(Refusal::Count);
    }
    if !letters_known(bytes, count) {
        return Err(Refusal::Letter);
    }
    Ok(Block { bytes, count })
}
