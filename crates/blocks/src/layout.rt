// The lengths of a block and of its parts, in bytes, where the parts stand, and the number of the places.

// A whole block.
pub const BLOCK_LEN: usize = 512;

// What the check covers: the block without the check itself, which stands after it.
pub(crate) const BODY_LEN: usize = 510;

// Where the count stands.
pub(crate) const COUNT_AT: usize = 0;

// Where the number stands, after the count.
pub(crate) const NUMBER_AT: usize = 2;

// The count and the number, which stand before the records.
pub(crate) const HEAD_LEN: usize = 6;

// One place, which holds a record.
pub(crate) const PLACE_LEN: usize = 8;

// How many places there are: the most records that a block holds.
pub(crate) const PLACES: usize = 63;
