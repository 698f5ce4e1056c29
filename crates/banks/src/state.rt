// What the three banks hold.
ghost use Rattle.std.specs.Prelude.{◌≡◌, ◌^◌, ◌≤◌, true};
ghost use Rattle.banks.specs.Numbers.{ranged};

// The silent bank: every number is 0 and stays so.
#[derive(Clone, Copy, Debug, PartialEq, Eq)]
pub struct SilentBank;

// The common bank: one number for all 64 processes. (Not a row of one number, of a type that the own bank has with 64: process p
// would then be place p modulo 1.)
#[derive(Clone, Copy, Debug, PartialEq, Eq)]
pub struct CommonBank {
    pub(crate) clock: u64,
    ghost small: { clock ≤ 2 ^ 40 },
}

// The own bank: a number of its own for each of the 64 processes.
#[derive(Clone, Copy, Debug, PartialEq, Eq)]
pub struct OwnBank {
    pub(crate) numbers: [u64; 64],
    ghost lawful: { ranged numbers ≡ true },
}
