//! Maps as JSON.
ghost use Rattle.std.specs.Prelude.{◌≡◌, ◌<◌, ◌≤◌, ◌+◌, ◌^◌, ◌++◌, ◌∷◌, [], ℕ, ℤ, List, Some, None, codes, false, length, true, IfOk, IfSome, MatchOption, OnOk, string_bytes};
ghost use Rattle.std.specs.Str.{chars};
ghost use Rattle.rhai_text.specs.Quote.{quoted_text};
ghost use Rattle.rhai_value.specs.declared.value.access_mode.AccessMode.{AccessMode};
ghost use Rattle.rhai_value.specs.Rows.{fields_of};
ghost use Rattle.rhai_value.specs.Tree.{fields, node};
ghost use Rattle.rhai_show.specs.Rests.{HasOpen, closed_by};
ghost use Rattle.rhai_show.specs.Text.{printed};
ghost use Rattle.rhai_show.specs.declared.form.Form.TheVariants.{Debug};
ghost use Rattle.rhai_packs.specs.Json.{AreMembers, HasInner, Writes, comma_unless, inner, object, rest_text};

use rhai_show::debug_text;
use rhai_text::{ImmutableString, quoted_text_into};
use rhai_value::{Dynamic, Entries, Map, Path, Store, Union};
use std::alloc::{AllocError, Global};
use std::mem;

/// A map that is being written: the remaining entries, whether the next is the first, and whether
/// the map is in a cell that was opened for it.
#[derive(Drop)]
struct Object<'a> {
    entries: Entries<'a>,
    is_first: bool,
    is_held: bool,
}

/// What a value is to JSON.
#[derive(Clone, Copy)]
enum Inner<'a> {
    Unit,
    Map(&'a Map),
    /// Written as `debug` prints it.
    Other,
}

/// Makes the JSON text of a map: maps inside it at any depth become objects too, unit `null`, and
/// anything else the text that `debug` prints. A shared value is written as what it holds; it is
/// `null` if that can't be read, or is a map that is being written already.
/// Errors: an allocation fails.
/// Cost: the length of the text, and for each shared value the logarithm of the number of shared
/// maps around it; memory for the text and for each map around an entry.
/// rhai: `to_json`.
pub fn to_json(alloc: Global, store: &Store, map: &Map) -> Result<ImmutableString, AllocError>
    ensures { IfOk result (λ text. (members : List (List ℕ)) × AreMembers store.now [] (fields_of map.now) members × (text ≡ object members)) }
{
    let mut out = String::new(alloc);
    out.push_str("{")?;
    add_object(alloc, store, map, &mut out)?;
    ImmutableString::from_str(alloc, out.as_str())
}

/// Appends the members of a map and the closing brace. A work list has the maps around the one that
/// is written.
fn add_object(alloc: Global, store: &Store, map: &Map, out: &mut String) -> Result<(), AllocError>
    ensures { OnOk result ((members : List (List ℕ)) × AreMembers store.now [] (fields_of map.now) members
        × (chars (string_bytes out.new) ≡ chars (string_bytes out.old) ++ rest_text true members)) }
{
    let mut path = Path::new(alloc);
    let mut above: Vec<Object> = Vec::new(alloc);
    let mut top = Object {
        entries: map.iter(),
        is_first: true,
        is_held: false,
    };
    loop {
        match next_member(&mut top, out)? {
            Some(value) => match add_value(alloc, store, &mut path, value, out)? {
                Some(map) => above.push(mem::replace(&mut top, map))?,
                None => {}
            },
            None => {
                close(&top, &mut path, out)?;
                match above.pop() {
                    Some(around) => top = around,
                    None => return Ok(()),
                }
            }
        }
    }
}

/// Appends what stands before the next value of a map, and returns that value.
fn next_member<'a>(
    object: &mut Object<'a>,
    out: &mut String,
) -> Result<Option<&'a Dynamic>, AllocError>
    ensures text { IfOk result (λ o. MatchOption o
        ((object.old.entries ≡ []) × (object.new ≡ object.old) × (string_bytes out.new ≡ string_bytes out.old))
        (λ v. (key : List ℕ) × (object.old.entries ≡ (key, v.now) ∷ object.new.entries) × (object.new.is_first ≡ false) × (object.new.is_held ≡ object.old.is_held)
        × (chars (string_bytes out.new) ≡ chars (string_bytes out.old) ++ (comma_unless object.old.is_first ++ (quoted_text (chars key) ++ codes ":"))))) }
    ensures longer { IfOk result (λ o. IfSome o (λ v. length (string_bytes out.old) < length (string_bytes out.new))) }
{
    match object.entries.next() {
        None => Ok(None),
        Some((key, value)) => {
            add_comma(out, object.is_first)?;
            object.is_first = false;
            quoted_text_into(key, out)?;
            add_text(out, ":")?;
            Ok(Some(value))
        }
    }
}

/// Appends the JSON text of a value that isn't a map; of a map the opening brace, and returns it.
fn add_value<'a>(
    alloc: Global,
    store: &'a Store,
    path: &mut Path,
    value: &'a Dynamic,
    out: &mut String,
) -> Result<Option<Object<'a>>, AllocError>
    ensures text { IfOk result (λ o. Writes store.now (inner store.now path.old value.now) path.old path.new (chars (string_bytes out.old)) (chars (string_bytes out.new)) o) }
    ensures longer { IfOk result (λ o. length (string_bytes out.old) ≤ length (string_bytes out.new)) }
{
    if !value.is_shared() {
        return add_inner(alloc, store, path, value, false, out);
    }
    match path.enter(store, value)? {
        None => add_null(out),
        Some(_) => match value.held(store) {
            Some(held) => add_inner(alloc, store, path, held, true, out),
            None => {
                path.leave();
                add_null(out)
            }
        },
    }
}

fn add_null<'a>(out: &mut String) -> Result<Option<Object<'a>>, AllocError>
    ensures text { IfOk result (λ o. (o ≡ None) × (chars (string_bytes out.new) ≡ chars (string_bytes out.old) ++ codes "null")) }
    ensures longer { IfOk result (λ o. length (string_bytes out.old) ≤ length (string_bytes out.new)) }
{
    add_text(out, "null")?;
    Ok(None)
}

/// Does the same for what a value holds, and closes its cell, if it has one, unless it is a map.
fn add_inner<'a>(
    alloc: Global,
    store: &'a Store,
    path: &mut Path,
    value: &'a Dynamic,
    is_held: bool,
    out: &mut String,
) -> Result<Option<Object<'a>>, AllocError>
    requires { HasOpen is_held path.old }
    ensures text { IfOk result (λ o. Writes store.now (Some (path.old, value.now)) (closed_by is_held path.old) path.new (chars (string_bytes out.old)) (chars (string_bytes out.new)) o) }
    ensures longer { IfOk result (λ o. length (string_bytes out.old) ≤ length (string_bytes out.new)) }
{
    match inner_of(value) {
        Inner::Map(map) => {
            add_text(out, "{")?;
            Ok(Some(Object {
                entries: map.iter(),
                is_first: true,
                is_held,
            }))
        }
        Inner::Unit => {
            leave(path, is_held);
            add_null(out)
        }
        Inner::Other => {
            leave(path, is_held);
            add_debug(alloc, store, value, out)?;
            Ok(None)
        }
    }
}

fn inner_of(value: &Dynamic) -> Inner<'_>
    ensures { HasInner result value.now }
{
    match value.parts() {
        Union::Map(_, _, map) => Inner::Map(map),
        Union::Unit(_, _, _) => Inner::Unit,
        Union::Array(_, _, _) => Inner::Other,
        Union::Str(_, _, _) => Inner::Other,
        Union::Blob(_, _, _) => Inner::Other,
        Union::Int(_, _, _) => Inner::Other,
        Union::Bool(_, _, _) => Inner::Other,
        Union::Char(_, _, _) => Inner::Other,
        Union::FnPtr(_, _, _) => Inner::Other,
        Union::Variant(_, _, _) => Inner::Other,
        Union::Shared(_, _, _) => Inner::Other,
    }
}

/// Closes the cell of a held value, if it is in one.
fn leave(path: &mut Path, is_held: bool)
    requires { HasOpen is_held path.old }
    ensures { path.new ≡ closed_by is_held path.old }
{
    if is_held {
        path.leave();
    }
}

fn add_debug(
    alloc: Global,
    store: &Store,
    value: &Dynamic,
    out: &mut String,
) -> Result<(), AllocError>
    ensures text { OnOk result (chars (string_bytes out.new) ≡ chars (string_bytes out.old) ++ printed store.now [] value.now Debug) }
    ensures longer { OnOk result (length (string_bytes out.old) ≤ length (string_bytes out.new)) }
{
    let text = debug_text(alloc, value, store)?;
    add_text(out, text.as_str())
}

/// Appends the closing brace of a map, and closes its cell, if it has one.
fn close(object: &Object, path: &mut Path, out: &mut String) -> Result<(), AllocError>
    requires { HasOpen object.now.is_held path.old }
    ensures text { OnOk result (chars (string_bytes out.new) ≡ chars (string_bytes out.old) ++ codes "}") }
    ensures longer { OnOk result (length (string_bytes out.old) < length (string_bytes out.new)) }
    ensures path { path.new ≡ closed_by object.now.is_held path.old }
{
    leave(path, object.is_held);
    add_text(out, "}")
}

fn add_comma(out: &mut String, is_first: bool) -> Result<(), AllocError>
    ensures text { OnOk result (chars (string_bytes out.new) ≡ chars (string_bytes out.old) ++ comma_unless is_first) }
    ensures longer { OnOk result (length (string_bytes out.old) ≤ length (string_bytes out.new)) }
{
    if is_first {
        return Ok(());
    }
    add_text(out, ",")
}

fn add_text(out: &mut String, text: &str) -> Result<(), AllocError>
    ensures text { OnOk result (chars (string_bytes out.new) ≡ chars (string_bytes out.old) ++ chars text.now) }
    ensures longer { OnOk result (length (string_bytes out.new) ≡ length (string_bytes out.old) + length text.now) }
    ensures bound { length (string_bytes out.old) < 2 ^ 64 }
{
    let _before = out.as_str();
    let _length = out.len();
    out.push_str(text)
}
