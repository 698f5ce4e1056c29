// Lists of calls on a memory and a bank, and the journal of what was replied.
#![tactic(auto)]

mod call;
mod runs;

pub use call::{Call, Done, Line, Reply};
pub use runs::{execute, perform};
