// Clock banks: one number, 0 to 2^40, for each of the processes 0 to 63.
// The trait says what a lawful bank is; the three banks of this crate are proved to be lawful.
#![tactic(auto)]

mod bank;
mod lawful;
mod state;

pub use bank::{Bank, LARGEST};
pub use state::{CommonBank, OwnBank, SilentBank};
