//! Failing allocations, once or from then on: whichever fails, each test must pass, or end with a
//! failed allocation while its values are set up; `checks/alloc_failures/run` tries each. Failures
//! are reported on standard error.
mod casts;
mod deep;
mod free;
mod texts;
mod values;

use rhai_value::{Dynamic, Store};
use std::io::Eprint;

fn tell(rt: &impl Eprint, what: &str) {
    let _ = rt.eprintln(format_args!("refused: {what}"));
}

/// Whether this text is held.
fn is_text(value: &Dynamic, store: &Store, wanted: &str) -> bool {
    match value.as_immutable_string_ref(store) {
        Ok(text) => text.as_str() == wanted,
        Err(_) => false,
    }
}
