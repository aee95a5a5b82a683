//! The text of a value.
ghost use Rattle.std.specs.Prelude.{ℕ, ℤ, ◌≡◌, ◌++◌, [], true, IfOk, OnOk, codes, string_bytes};
ghost use Rattle.std.specs.Str.{chars};
ghost use Rattle.rhai_value.specs.declared.value.access_mode.AccessMode.{AccessMode};
ghost use Rattle.rhai_value.specs.Tree.{holder, node};
ghost use Rattle.rhai_show.specs.declared.form.Form.TheVariants.{Display, Debug};
ghost use Rattle.rhai_show.specs.Leaves.{in_debug};
ghost use Rattle.rhai_show.specs.Text.{joined, further, name_printed, printed};
ghost use Rattle.rhai_show.specs.Listed.{listed, comma_unless, row_printed};

use crate::form::Form;
use crate::leaf::{add_leaf, add_text};
use crate::shape::{Shape, shape_of};
use crate::text_far::add_far;
use rhai_text::quoted_text_into;
use rhai_value::{Dynamic, FnPtr, Map, NEAR, Path, Store};
use std::alloc::{AllocError, Global};

/// Appends the text of a value; the cells of the path are open. Inlined into the loops, since most
/// values contain no others.
#[cycle(print)]
#[inline(always)]
fn add_value(
    store: &Store,
    path: &mut Path,
    value: &Dynamic,
    form: Form,
    levels: u32,
    out: &mut String,
) -> Result<(), AllocError>
    ensures text { OnOk result (chars (string_bytes out.new)
        ≡ chars (string_bytes out.old) ++ printed store.now path.old value.now form) }
    ensures path { OnOk result (path.new ≡ path.old) }
{
    match shape_of(value) {
        Shape::Leaf(leaf) => add_leaf(out, leaf, form),
        Shape::Array(items) => {
            if levels == 0 {
                return add_far(store, path, value, form, out);
            }
            add_array(store, path, items, form.of_items(), levels - 1, out)
        }
        Shape::Map(map) => {
            if levels == 0 {
                return add_far(store, path, value, form, out);
            }
            add_map(store, path, map, form.of_items(), levels - 1, out)
        }
        Shape::Function(function) => {
            if levels == 0 {
                return add_far(store, path, value, form, out);
            }
            add_function(store, path, function, form, levels - 1, out)
        }
        Shape::Holder => {
            if levels == 0 {
                return add_far(store, path, value, form, out);
            }
            add_held(store, path, value, form, levels - 1, out)
        }
    }
}

/// Appends the text of a holder.
#[cycle(print)]
#[inline(never)]
fn add_held(
    store: &Store,
    path: &mut Path,
    value: &Dynamic,
    form: Form,
    levels: u32,
    out: &mut String,
) -> Result<(), AllocError>
    requires { (c : ℕ) × (g : ℤ) × (m : AccessMode) × (value.now ≡ node (holder c) g m) }
    ensures text { OnOk result (chars (string_bytes out.new)
        ≡ chars (string_bytes out.old) ++ printed store.now path.old value.now form) }
    ensures path { OnOk result (path.new ≡ path.old) }
{
    match path.enter(store, value)? {
        None => add_text(out, "<shared>"),
        Some(content) => {
            add_value(store, path, content, form.of_content(), levels, out)?;
            path.leave();
            add_text(out, " (shared)")
        }
    }
}

#[cycle(print)]
#[inline(never)]
fn add_array(
    store: &Store,
    path: &mut Path,
    items: &[Dynamic],
    form: Form,
    levels: u32,
    out: &mut String,
) -> Result<(), AllocError>
    ensures text { OnOk result (chars (string_bytes out.new) ≡ chars (string_bytes out.old)
        ++ (codes "[" ++ joined (λ t. printed store.now path.old t form) items.now ++ codes "]")) }
    ensures path { OnOk result (path.new ≡ path.old) }
{
    add_text(out, "[")?;
    add_items(store, path, items, form, true, levels, out)?;
    add_text(out, "]")
}

/// Appends the items of an array, or curried values, separated by commas; if they aren't the first,
/// also with a comma before them.
#[cycle(print)]
fn add_items(
    store: &Store,
    path: &mut Path,
    items: &[Dynamic],
    form: Form,
    are_first: bool,
    levels: u32,
    out: &mut String,
) -> Result<(), AllocError>
    ensures text { OnOk result (chars (string_bytes out.new) ≡ chars (string_bytes out.old)
        ++ listed (λ t. printed store.now path.old t form) are_first items.now) }
    ensures path { OnOk result (path.new ≡ path.old) }
{
    let mut is_first = are_first;
    for item in items {
        add_comma(out, is_first)?;
        add_value(store, path, item, form, levels, out)?;
        is_first = false;
    }
    Ok(())
}

#[cycle(print)]
#[inline(never)]
fn add_map(
    store: &Store,
    path: &mut Path,
    map: &Map,
    form: Form,
    levels: u32,
    out: &mut String,
) -> Result<(), AllocError>
    ensures text { OnOk result (chars (string_bytes out.new) ≡ chars (string_bytes out.old)
        ++ (codes "#{" ++ joined (row_printed form (λ t. printed store.now path.old t form)) map.now ++ codes "}")) }
    ensures path { OnOk result (path.new ≡ path.old) }
{
    add_text(out, "#{")?;
    add_fields(store, path, map, form, levels, out)?;
    add_text(out, "}")
}

/// Appends the keys of a map with their values, separated by commas.
#[cycle(print)]
fn add_fields(
    store: &Store,
    path: &mut Path,
    map: &Map,
    form: Form,
    levels: u32,
    out: &mut String,
) -> Result<(), AllocError>
    ensures text { OnOk result (chars (string_bytes out.new) ≡ chars (string_bytes out.old)
        ++ listed (row_printed form (λ t. printed store.now path.old t form)) true map.now) }
    ensures path { OnOk result (path.new ≡ path.old) }
{
    let mut is_first = true;
    for (key, value) in map.iter() {
        add_comma(out, is_first)?;
        add_name(out, key, form)?;
        add_text(out, ": ")?;
        add_value(store, path, value, form, levels, out)?;
        is_first = false;
    }
    Ok(())
}

#[cycle(print)]
#[inline(never)]
fn add_function(
    store: &Store,
    path: &mut Path,
    function: &FnPtr,
    form: Form,
    levels: u32,
    out: &mut String,
) -> Result<(), AllocError>
    ensures text { OnOk result (chars (string_bytes out.new) ≡ chars (string_bytes out.old)
        ++ (codes "Fn(" ++ name_printed form function.now.0
        ++ in_debug form (further (λ t. printed store.now path.old t Debug) function.now.1) []
        ++ codes ")")) }
    ensures path { OnOk result (path.new ≡ path.old) }
{
    add_text(out, "Fn(")?;
    add_name(out, function.fn_name(), form)?;
    add_curried(store, path, function.curry(), form, levels, out)?;
    add_text(out, ")")
}

/// Appends curried values, only in Debug form.
#[cycle(print)]
fn add_curried(
    store: &Store,
    path: &mut Path,
    items: &[Dynamic],
    form: Form,
    levels: u32,
    out: &mut String,
) -> Result<(), AllocError>
    ensures text { OnOk result (chars (string_bytes out.new) ≡ chars (string_bytes out.old)
        ++ in_debug form (further (λ t. printed store.now path.old t Debug) items.now) []) }
    ensures path { OnOk result (path.new ≡ path.old) }
{
    match form {
        Form::Display => Ok(()),
        Form::Inner => Ok(()),
        Form::Debug => add_items(store, path, items, Form::Debug, false, levels, out),
    }
}

/// Appends a key or the name of a function.
pub(crate) fn add_name(out: &mut String, name: &str, form: Form) -> Result<(), AllocError>
    ensures { OnOk result (chars (string_bytes out.new) ≡ chars (string_bytes out.old) ++ name_printed form (chars name.now)) }
{
    match form {
        Form::Display => add_text(out, name),
        Form::Inner => add_text(out, name),
        Form::Debug => quoted_text_into(name, out),
    }
}

/// Appends the comma before a text, unless that is the first.
pub(crate) fn add_comma(out: &mut String, is_first: bool) -> Result<(), AllocError>
    ensures { OnOk result (chars (string_bytes out.new) ≡ chars (string_bytes out.old) ++ comma_unless is_first) }
{
    if is_first {
        Ok(())
    } else {
        add_text(out, ", ")
    }
}

fn text_of(alloc: Global, value: &Dynamic, store: &Store, form: Form) -> Result<String, AllocError>
    ensures { IfOk result (λ t. chars (string_bytes t) ≡ printed store.now [] value.now form) }
{
    let mut out = String::new(alloc);
    let mut path = Path::new(alloc);
    add_value(store, &mut path, value, form, NEAR, &mut out)?;
    Ok(out)
}

/// Makes the text of a value as `{}` prints it.
/// Errors: an allocation fails.
/// Cost: the length of the text, and for each holder on the way the logarithm of the number of
/// cells then open; memory for the text, and for each level below the 64th on a work list.
/// rhai: `Display` of `Dynamic`.
pub fn display_text(alloc: Global, value: &Dynamic, store: &Store) -> Result<String, AllocError>
    ensures { IfOk result (λ t. chars (string_bytes t) ≡ printed store.now [] value.now Display) }
{
    text_of(alloc, value, store, Form::Display)
}

/// Makes the text of a value as `{:?}` prints it.
/// Errors: an allocation fails.
/// Cost: that of `display_text`.
/// rhai: `Debug` of `Dynamic`.
pub fn debug_text(alloc: Global, value: &Dynamic, store: &Store) -> Result<String, AllocError>
    ensures { IfOk result (λ t. chars (string_bytes t) ≡ printed store.now [] value.now Debug) }
{
    text_of(alloc, value, store, Form::Debug)
}
