//! The text of a deeply nested value.
ghost use Rattle.std.specs.Prelude.{◌≡◌, ◌≤◌, ◌++◌, ◌+◌, ℕ, ℤ, suc, [], List, IfOk, IfSome, MatchOption, OnOk, string_bytes};
ghost use Rattle.std.specs.Str.{chars};
ghost use Rattle.rhai_value.specs.declared.value.access_mode.AccessMode.{AccessMode};
ghost use Rattle.rhai_value.specs.Tree.{Tree, holder, node};
ghost use Rattle.rhai_show.specs.declared.form.Form.{Form};
ghost use Rattle.rhai_show.specs.Frames.{frame_text};
ghost use Rattle.rhai_show.specs.Leaves.{in_debug};
ghost use Rattle.rhai_show.specs.Rests.{items_keyed, rest_of, is_held, closed_by, HasOpen, rest_weight};
ghost use Rattle.rhai_show.specs.Text.{further, printed};
ghost use Rattle.rhai_show.specs.Weights.{weight};

use crate::form::Form;
use crate::leaf::{add_leaf, add_text};
use crate::rest::{Child, Rest};
use crate::shape::{Shape, shape_of};
use crate::text::{add_comma, add_name};
use rhai_value::{Dynamic, FnPtr, Path, Store};
use std::alloc::AllocError;
use std::mem;

/// Frame of printing: the remaining children, their form, whether the next is the first, and the
/// text behind them.
#[derive(Drop)]
struct Frame<'a> {
    rest: Rest<'a>,
    form: Form,
    is_first: bool,
    ending: &'a str,
}

/// Appends the text of a value without children, or otherwise the text before them.
fn opened<'a>(
    store: &'a Store,
    path: &mut Path,
    value: &'a Dynamic,
    form: Form,
    out: &mut String,
) -> Result<Option<Frame<'a>>, AllocError>
    ensures text { IfOk result (λ o. MatchOption o
        (chars (string_bytes out.new) ≡ chars (string_bytes out.old) ++ printed store.now path.old value.now form)
        (λ f. chars (string_bytes out.new) ++ frame_text (printed store.now path.new) f
        ≡ chars (string_bytes out.old) ++ printed store.now path.old value.now form)) }
    ensures path { IfOk result (λ o. MatchOption o (path.new ≡ path.old)
        (λ f. closed_by (is_held f.rest) path.new ≡ path.old)) }
    ensures left { IfOk result (λ o. IfSome o (λ f. HasOpen (is_held f.rest) path.new
        × (rest_weight (weight store.now path.new) (rest_of f.rest) ≤ weight store.now path.old value.now))) }
{
    match shape_of(value) {
        Shape::Leaf(leaf) => {
            add_leaf(out, leaf, form)?;
            Ok(None)
        }
        Shape::Array(items) => {
            add_text(out, "[")?;
            Ok(Some(Frame {
                rest: Rest::Items(items),
                form: form.of_items(),
                is_first: true,
                ending: "]",
            }))
        }
        Shape::Map(map) => {
            add_text(out, "#{")?;
            Ok(Some(Frame {
                rest: Rest::Fields(map.iter()),
                form: form.of_items(),
                is_first: true,
                ending: "}",
            }))
        }
        Shape::Function(function) => {
            add_text(out, "Fn(")?;
            add_name(out, function.fn_name(), form)?;
            Ok(Some(Frame {
                rest: Rest::Items(shown_curry(function, form)),
                form: Form::Debug,
                is_first: false,
                ending: ")",
            }))
        }
        Shape::Holder => opened_holder(store, path, value, form, out),
    }
}

/// Appends the text of a holder whose cell doesn't open; otherwise opens the cell.
fn opened_holder<'a>(
    store: &'a Store,
    path: &mut Path,
    value: &'a Dynamic,
    form: Form,
    out: &mut String,
) -> Result<Option<Frame<'a>>, AllocError>
    requires { (c : ℕ) × (g : ℤ) × (m : AccessMode) × (value.now ≡ node (holder c) g m) }
    ensures text { IfOk result (λ o. MatchOption o
        (chars (string_bytes out.new) ≡ chars (string_bytes out.old) ++ printed store.now path.old value.now form)
        (λ f. chars (string_bytes out.new) ++ frame_text (printed store.now path.new) f
        ≡ chars (string_bytes out.old) ++ printed store.now path.old value.now form)) }
    ensures path { IfOk result (λ o. MatchOption o (path.new ≡ path.old)
        (λ f. closed_by (is_held f.rest) path.new ≡ path.old)) }
    ensures left { IfOk result (λ o. IfSome o (λ f. HasOpen (is_held f.rest) path.new
        × (rest_weight (weight store.now path.new) (rest_of f.rest) ≤ weight store.now path.old value.now))) }
{
    match path.enter(store, value)? {
        None => {
            add_text(out, "<shared>")?;
            Ok(None)
        }
        Some(content) => Ok(Some(Frame {
            rest: Rest::Held(Some(content)),
            form: form.of_content(),
            is_first: true,
            ending: " (shared)",
        })),
    }
}

/// The curried values to print.
fn shown_curry<'a>(function: &'a FnPtr, form: Form) -> &'a [Dynamic]
    ensures text { (f : Tree → List ℕ) → further f result.now ≡ in_debug form (further f function.now.1) [] }
    ensures left { (w : Tree → ℕ) → rest_weight w (items_keyed result.now) ≤ rest_weight w (items_keyed function.now.1) }
{
    match form {
        Form::Display => &[],
        Form::Inner => &[],
        Form::Debug => function.curry(),
    }
}

/// Appends the text before the next value, and returns that value.
fn next_in<'a>(frame: &mut Frame<'a>, out: &mut String) -> Result<Option<&'a Dynamic>, AllocError>
    ensures text { IfOk result (λ o. MatchOption o
        ((rest_of frame.new.rest ≡ []) × ((f : Tree → Form → List ℕ) → chars (string_bytes out.new) ++ frame_text f frame.new
        ≡ chars (string_bytes out.old) ++ frame_text f frame.old))
        (λ v. (f : Tree → Form → List ℕ) → chars (string_bytes out.new) ++ (f v.now frame.new.form ++ frame_text f frame.new)
        ≡ chars (string_bytes out.old) ++ frame_text f frame.old)) }
    ensures left { IfOk result (λ o. IfSome o (λ v. (w : Tree → ℕ) →
        suc (w v.now) + rest_weight w (rest_of frame.new.rest) ≡ rest_weight w (rest_of frame.old.rest))) }
    ensures held { IfOk result (λ _. is_held frame.new.rest ≡ is_held frame.old.rest) }
{
    match frame.rest.next() {
        None => Ok(None),
        Some(child) => {
            add_comma(out, frame.is_first)?;
            frame.is_first = false;
            match child {
                Child::Item(value) => Ok(Some(value)),
                Child::Entry(key, value) => {
                    add_name(out, key, frame.form)?;
                    add_text(out, ": ")?;
                    Ok(Some(value))
                }
            }
        }
    }
}

/// Appends the text behind the values, and closes their cell.
fn close(frame: &Frame, path: &mut Path, out: &mut String) -> Result<(), AllocError>
    requires { HasOpen (is_held frame.now.rest) path.old }
    ensures text { OnOk result (chars (string_bytes out.new) ≡ chars (string_bytes out.old) ++ chars frame.now.ending.now) }
    ensures path { OnOk result (path.new ≡ closed_by (is_held frame.now.rest) path.old) }
{
    frame.rest.close(path);
    add_text(out, frame.ending)
}

/// Appends the text of a value; the cells of the path are open. A work list has the rest of each
/// level, so that calls don't nest.
#[inline(never)]
pub(crate) fn add_far(
    store: &Store,
    path: &mut Path,
    value: &Dynamic,
    form: Form,
    out: &mut String,
) -> Result<(), AllocError>
    ensures text { OnOk result (chars (string_bytes out.new)
        ≡ chars (string_bytes out.old) ++ printed store.now path.old value.now form) }
    ensures path { OnOk result (path.new ≡ path.old) }
{
    let Some(first) = opened(store, path, value, form, out)? else {
        return Ok(());
    };
    let mut frames: Vec<Frame> = Vec::new(*out.allocator());
    let mut top = first;
    loop {
        match next_in(&mut top, out)? {
            Some(inner) => match opened(store, path, inner, top.form, out)? {
                None => {}
                Some(child) => frames.push(mem::replace(&mut top, child))?,
            },
            None => {
                close(&top, path, out)?;
                match frames.pop() {
                    None => return Ok(()),
                    Some(up) => top = up,
                }
            }
        }
    }
}
