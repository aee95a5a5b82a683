//! Functions on values of any type. None changes its value.

use rhai_show::{debug_text, display_text};
use rhai_text::SizeKind;
use rhai_value::{Dynamic, Store, TypeId};
use script_faults::{FaultKind, Means, check_size, check_ways, type_name_of};
use script_natives::AnyFunction;

/// Calls a function that reads a value of any type.
pub(crate) fn ask_any(
    function: AnyFunction,
    means: &Means,
    store: &Store,
    value: &Dynamic,
) -> Result<Dynamic, FaultKind> {
    let alloc = means.alloc;
    let held = value.held(store).unwrap_or(value);
    match function {
        AnyFunction::TypeOf => Ok(Dynamic::from_text(alloc, type_name_of(value, store))?),
        AnyFunction::ToString => {
            check_ways(means, store, held)?;
            let text = display_text(alloc, held, store)?;
            check_size(means.limits.text, text.len(), SizeKind::Text)?;
            Ok(Dynamic::from_text(alloc, text.as_str())?)
        }
        AnyFunction::ToDebug => {
            check_ways(means, store, held)?;
            let text = debug_text(alloc, held, store)?;
            check_size(means.limits.text, text.len(), SizeKind::Text)?;
            Ok(Dynamic::from_text(alloc, text.as_str())?)
        }
    }
}
