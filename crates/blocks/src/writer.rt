// Writes blocks: a number and the records of a turn as 512 bytes.
ghost use Rattle.std.specs.Prelude.{◌≡◌, ◌*◌, ◌≤◌, map, length};
ghost use Rattle.std.specs.List.{flat_map};
ghost use Rattle.blocks.specs.Reading.{letters_known};
ghost use Rattle.blocks.specs.Writing.{entry_says, eight_of, body_of, block_of, Wrote};

use super::check::check_of;
use super::layout::{BLOCK_LEN, BODY_LEN, HEAD_LEN, NUMBER_AT, PLACE_LEN, PLACES};
use super::letter::Letter;
use super::refusal::Refusal;

// A record to be written. The letter is a plain byte and no `Letter`, since the rules ask the writer about unknown ones too.
#[derive(Clone, Copy, Debug, PartialEq, Eq)]
pub struct Entry {
    pub letter: u8,
    pub process: u8,
    pub object: u16,
    pub content: u32,
}

impl Entry {
    // The eight bytes of the record.
    fn to_bytes(self) -> [u8; PLACE_LEN]
        ensures { result ≡ eight_of self }
    {
        let [low, high] = self.object.to_le_bytes();
        let [first, second, third, fourth] = self.content.to_le_bytes();
        [
            self.letter,
            self.process,
            low,
            high,
            first,
            second,
            third,
            fourth,
        ]
    }
}

// Whether the letter of each record is known.
fn letters_known(entries: &[Entry]) -> bool
    ensures { result ≡ letters_known (map entry_says entries.now) }
{
    entries
        .iter()
        .all(|entry| Letter::try_from(entry.letter).is_ok())
}

// Lays out the records one after another.
fn lay_records(out: &mut [u8], entries: &[Entry])
    requires { length out.old ≡ 8 * length entries.now }
    ensures { out.new ≡ flat_map eight_of entries.now }
{
    // By counted places: a loop over `chunks_exact_mut` was tried, of which the library does not say what the slice holds then.
    for (i, entry) in entries.iter().enumerate() {
        let at = PLACE_LEN * i;
        out[at..at + PLACE_LEN].copy_from_slice(&entry.to_bytes());
    }
}

// Lays out the first 510 bytes of a block: count, number, records, and zeros after them.
#[tactic(auto, unfolding(crate::specs::Writing::body_of))]
fn lay_body(out: &mut [u8], number: u32, entries: &[Entry])
    requires { (length out.old ≡ 510) × (length entries.now ≤ 63) }
    ensures { out.new ≡ body_of number entries.now }
{
    let (head, places) = out.split_at_mut(HEAD_LEN);
    let (count, own_number) = head.split_at_mut(NUMBER_AT);
    let (records, free) = places.split_at_mut(PLACE_LEN * entries.len());
    // `as`, which is proved to lose nothing: `try_from` would need a branch that is never taken.
    count.copy_from_slice(&(entries.len() as u16).to_le_bytes());
    own_number.copy_from_slice(&number.to_le_bytes());
    lay_records(records, entries);
    free.fill(0);
}

// Lays out a whole block: its body, and the check of the body.
#[tactic(auto, unfolding(crate::specs::Writing::block_of))]
fn lay_block(out: &mut [u8], number: u32, entries: &[Entry])
    requires { (length out.old ≡ 512) × (length entries.now ≤ 63) }
    ensures { out.new ≡ block_of number entries.now }
{
    let (body, check) = out.split_at_mut(BODY_LEN);
    lay_body(body, number, entries);
    check.copy_from_slice(&check_of(body).to_le_bytes());
}

// Writes a block of these records under this number, or says which question refuses it and leaves the bytes as they were.
// (Number and records are two arguments: a struct of both would be made at each call and taken apart in the body.)
pub fn write_block(out: &mut [u8], number: u32, entries: &[Entry]) -> Result<(), Refusal>
    ensures { Wrote out.old number entries.now result out.new }
{
    if out.len() != BLOCK_LEN {
        return Err(Refusal::Length);
    }
    if entries.len() > PLACES {
        return Err(Refusal::Count);
    }
    if !letters_known(entries) {
        return Err(Refusal::Letter);
    }
    lay_block(out, number, entries);
    Ok(())
}
