//! Proved callers of the scope.
mod callers;
mod readme;
mod walker;

use rhai_scope::Scope;
use rhai_text::ImmutableString;
use rhai_value::{Dynamic, Store};
use std::alloc::{AllocError, Global};

/// Whether this is the int of a name.
fn is_int(scope: &Scope, store: &Store, name: &str, wanted: i64) -> bool {
    match scope.get(name) {
        Some(value) => value.as_int(store) == Ok(wanted),
        None => false,
    }
}

/// Whether a scope prints this.
fn prints(alloc: Global, scope: &Scope, store: &Store, wanted: &str) -> bool {
    let Ok(shown) = scope.shown(store) else {
        return false;
    };
    match format!(in alloc; "{shown}") {
        Ok(text) => text.as_str() == wanted,
        Err(_) => false,
    }
}
