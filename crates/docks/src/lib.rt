// Dock records, the kind of content that hire programs keep in the memory, and the fare of a hire.
#![tactic(auto)]

mod dock;
mod fares;

pub use dock::{Dock, Hire};
pub use fares::fare;
