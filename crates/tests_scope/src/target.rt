//! Proved callers of targets.
mod callers;
pub(crate) mod parts;
mod readme;
mod reads;
mod ways_out;

use rhai_target::Target;
use rhai_text::{EvalAltResult, Position};
use rhai_value::{AccessMode, Dynamic, Store, Union};
use std::alloc::Global;
use std::process::Abort;
use std::test::Fail;

/// Makes a holder of a new cell with the value; the value itself if the allocation fails.
fn shared(value: Dynamic, store: &mut Store) -> Dynamic {
    match value.into_shared(store) {
        Ok(holder) => holder,
        Err(value) => value,
    }
}

/// The constant 7 with tag 3.
fn seven() -> Dynamic {
    let mut value = Dynamic::from_int(7).into_read_only();
    value.set_tag(3);
    value
}

/// Whether a value is that constant.
fn is_seven(value: &Dynamic) -> bool {
    matches!(value.parts(), Union::Int(3, AccessMode::ReadOnly, 7))
}

/// Whether a value is a copy of that constant.
fn is_copy_of_seven(value: &Dynamic) -> bool {
    matches!(value.parts(), Union::Int(3, AccessMode::ReadWrite, 7))
}

/// Makes a constant text with tag 3; unit if the allocation fails.
fn hello(alloc: Global) -> Dynamic {
    let mut value = match Dynamic::from_text(alloc, "hello") {
        Ok(text) => text.into_read_only(),
        Err(_) => Dynamic::UNIT,
    };
    value.set_tag(3);
    value
}

/// Whether a value is a constant text with tag 3 and these characters.
fn is_text(value: &Dynamic, wanted: &str) -> bool {
    match value.parts() {
        Union::Str(3, AccessMode::ReadOnly, text) => text.as_str() == wanted,
        _ => false,
    }
}

/// Makes a constant blob of two bytes with tag 3; unit if the allocation fails.
fn bytes(alloc: Global) -> Dynamic {
    let mut value = match Vec::from_slice(alloc, &[1, 2]) {
        Ok(bytes) => Dynamic::from_blob(bytes).into_read_only(),
        Err(_) => Dynamic::UNIT,
    };
    value.set_tag(3);
    value
}

/// Whether a value is a constant blob with tag 3 and these bytes.
fn is_bytes(value: &Dynamic, wanted: &[u8]) -> bool {
    match value.parts() {
        Union::Blob(3, AccessMode::ReadOnly, bytes) => bytes.as_slice() == wanted,
        _ => false,
    }
}

/// Whether a working value was refused, at line 3 and column 4, with these type names.
fn is_refused(done: Result<(), EvalAltResult>, wanted: &str, found: &str) -> bool {
    match done {
        Err(EvalAltResult::ErrorMismatchDataType(w, f, pos)) => {
            w.as_str() == wanted && f.as_str() == found && pos == Position::new(3, 4)
        }
        _ => false,
    }
}
