// The tables of the step memory: record kinds, the map from objects to values, objects and processes, requests,
// replies, and the memory that owns them all. Whoever holds a memory may change it in any way; the engine asks
// before each call whether its tables are sound.
#![tactic(auto)]

mod fresh_error;
mod kind;
mod map;
mod memory;
mod process;
mod refusal;
mod reply;
mod text;

pub use fresh_error::FreshError;
pub use kind::Kind;
pub use map::{Map, Slot, put};
pub use memory::{
    MOST_OBJECTS, MOST_PROCESSES, Memory, Object, READ_PLACES, WRITE_PLACES, numbers_fit,
};
pub use process::{Access, Ending, Phase, Process};
pub use refusal::Refusal;
pub use reply::{Answer, Conflict, Effect, Request, Stepped};
