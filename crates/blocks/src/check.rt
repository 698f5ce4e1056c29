// The check of a block: a sum over its bytes in which each byte counts by its place.
ghost use Rattle.std.specs.Prelude.{◌≡◌};
ghost use Rattle.blocks.specs.Checks.{check_of};

use super::layout::BODY_LEN;

// What the sum is divided by; the check is the remainder.
const MODULUS: u32 = 65521;

// The check of a block: the sum of (i + 1) * byte i over its first 510 bytes, modulo 65521.
pub fn check_of(block: &[u8]) -> u16
    ensures { result ≡ check_of block.now }
{
    let part = &block[..BODY_LEN.min(block.len())];
    let mut sum: u32 = 0;
    let mut weight: u32 = 1;
    // A rule of the project: the loop is a `for` over the bytes with a counter beside it.
    for byte in part {
        sum += weight * u32::from(*byte);
        weight += 1;
    }
    // `as`, which is proved to lose nothing: `try_from` would need a branch that is never taken.
    (sum % MODULUS) as u16
}
