//! Lines that denote commands: the command of a line, answers as bytes, and runs over lines.
#![tactic(auto)]

mod args;
mod journals;
pub mod laws;
mod lines;
mod made;
mod numbers;
mod print;
mod spell;
mod verbs;
mod vocabulary;
mod words;

pub use journals::{commands_of, journal, line_of};
pub use lines::{LinesFault, run_lines};
pub use print::{write_answer, write_bad_line};
pub use verbs::command;
