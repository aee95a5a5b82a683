//! Compiles a script of a small language to flat code: operations on slots, as plain data that many
//! runs can share.
#![tactic(auto)]

mod callbacks;
mod calls;
mod chains;
mod changes;
mod compiler;
mod conditions;
mod effects;
mod ends;
mod error;
mod expressions;
mod host_calls;
mod jumps;
mod literals;
mod loops;
mod meaning;
mod methods;
mod operations;
mod operators;
mod places;
mod program;
mod quiet;
mod runs;
mod scan;
mod switches;
mod tables;
mod this;
mod variables;
mod writes;

pub use compiler::compile;
pub use error::CodeError;
pub use meaning::{EachKind, HostName, Meaning, meaning_of};
pub use operations::{Op, Slot, Target};
pub use program::{
    Callee, Code, Kept, Method, NO_STEPS, Path, PathStep, Place, Program, Shape, Variable,
};
