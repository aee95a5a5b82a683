//! A world for a host in C or Rust.
#![tactic(auto)]

pub mod answering;
pub mod asks;
pub mod engine;
pub mod functions;
pub mod hand;
pub mod handle;
pub mod lines;
pub mod lists;
pub mod literals;
pub mod marks;
pub mod name_texts;
pub mod named;
pub mod names;
mod numbers;
pub mod opening;
mod perform;
pub mod placed;
pub mod scope;
pub mod scripts;
pub mod snapshots;
pub mod stamp;
pub mod standing;
pub mod texts;
pub mod told;
pub mod typed;
pub mod variables;
