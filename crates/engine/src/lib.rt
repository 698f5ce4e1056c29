// The engine of the step memory: requests are placed and then carried out one step at a time.
// `place` and `step` are its entry points; they ask their questions first and work on tables in any state.
// All other functions are inner ones, whose callers have shown that the record is sound. That x is an object is required by
// each that looks at x or changes it: it is said of what this one call names, so no struct has it as a fact of its own.
#![tactic(auto)]

mod begin;
mod commit;
mod ends;
mod extend;
mod look;
mod looked;
mod owner;
mod placing;
mod questions;
mod reads;
mod record;
mod reply;
mod sound;
mod stepping;
mod writes;

pub use placing::place;
pub use stepping::step;
