//! Commands over one world of script values.
#![tactic(auto)]

pub mod answer;
mod ask;
pub mod both;
mod cast;
mod change;
mod collect;
pub mod command;
mod entries;
pub mod eval;
mod extend;
mod hand;
mod indices;
pub mod laws;
pub mod lists;
mod maps;
mod marks;
mod not_done;
mod operators;
mod pieces;
mod place;
mod scanners;
mod scope;
mod slot;
mod slots;
mod snapshot;
mod vectors;
pub mod world;
mod world_state;
mod write_back;

pub use answer::{Answer, Refusal};
pub use both::{StoppedBoth, run_both};
pub use command::{Command, Literal, Place, PlaceRef, Question, Scanner};
pub use eval::expr::Expr;
pub use lists::{Bytes, FlaggedNames, Names};
pub use rhai_show::Shown;
pub use snapshot::Snapshot;
pub use world::{Stopped, World, apply, run};
