// From turn blocks to calls, and from journal lines to the lines that the bench prints.
#![tactic(auto)]

mod block_error;
mod calls;
mod carry;
mod text;

pub use block_error::BlockError;
pub use calls::{call_for, calls_in};
pub use carry::carry_out;
pub use text::{block_text, line_text};
