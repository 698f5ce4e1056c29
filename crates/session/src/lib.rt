// A session of the bench: turn blocks are carried out on a fresh memory of 2 processes and 4 objects, with the own bank
// and contents 0, and each printed line goes into a text.
#![tactic(auto)]

mod state;

pub use state::Session;
