//! The named values of a script, newest last, where a later name hides an earlier one: rhai's
//! `Scope`.
#![tactic(auto)]

mod alias;
mod aliases;
mod copy;
mod extend;
mod extend_moved;
mod flat;
mod hashed;
mod heading;
mod index;
mod into_iter;
mod iter;
pub mod laws;
mod lookup;
mod name_filter;
mod name_index;
mod name_length;
mod names_text;
mod place_list;
mod reach;
mod records;
mod rest;
mod scope;
mod shown;
mod typed;
mod visible;

pub use alias::{Alias, AliasList};
pub use into_iter::IntoIter;
pub use iter::{Entries, Iter, IterRaw};
pub use names_text::aliases_shown;
pub use scope::{MIN_SCOPE_ENTRIES, Scope};
