//! What a host embeds: variables that outlive runs, a compiled script, and a run of it that stops
//! for the host.
#![tactic(auto)]

mod engine;
mod flat;
mod functions;
mod restore;
mod snapshot;

pub use engine::{Engine, Step};
pub use flat::{Unread, read_array, read_value};
pub use snapshot::Snapshot;
