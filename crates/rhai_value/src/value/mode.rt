//! Setting the mode of a value and of the values inside it.
ghost use Rattle.std.specs.Prelude.{◌≡◌, map};
ghost use Rattle.rhai_value.specs.Lists.{rows, rows_of, IsWhole};
ghost use Rattle.rhai_value.specs.RowWalks.{chunk_view, painted_chunk, painted_rows};
ghost use Rattle.rhai_value.specs.Tree.{paint, paint_fields, with_mode};
ghost use Rattle.rhai_value.specs.Rows.{fields_of};
ghost use Rattle.rhai_value.specs.declared.value.access_mode.AccessMode.TheVariants.{ReadOnly};

use crate::map::{Chunk, Entry, Map, MapParts};
use crate::value::access_mode::AccessMode;
use crate::value::dynamic::Dynamic;
use crate::value::union::Union;
use crate::walk::near::NEAR;
use crate::walk::paint_far::paint_far;

impl Dynamic {
    /// Sets the mode of the value and of all values inside it through arrays and maps. Curried
    /// values and cell contents keep their modes.
    /// Cost: the number of values inside; no memory for values of up to 64 levels. Below those it
    /// allocates a work list; if that fails, it recurses for another 64 levels.
    /// rhai: `Dynamic::set_access_mode`.
    pub fn set_access_mode(&mut self, mode: AccessMode)
        ensures { self.new ≡ paint mode self.old }
    {
        paint_value(self, mode, NEAR);
    }

    /// Makes the value and all values inside it through arrays and maps constant.
    /// Cost: that of `set_access_mode`.
    /// rhai: `Dynamic::into_read_only`.
    pub fn into_read_only(mut self) -> Dynamic
        ensures { result ≡ paint ReadOnly self }
    {
        paint_value(&mut self, AccessMode::ReadOnly, NEAR);
        self
    }
}

/// Sets the mode of the value only.
pub(crate) fn set_own_mode(value: &mut Dynamic, mode: AccessMode)
    ensures { value.new ≡ with_mode mode value.old }
{
    match &mut value.union {
        Union::Unit(_, own, _) => *own = mode,
        Union::Bool(_, own, _) => *own = mode,
        Union::Str(_, own, _) => *own = mode,
        Union::Char(_, own, _) => *own = mode,
        Union::Int(_, own, _) => *own = mode,
        Union::Array(_, own, _) => *own = mode,
        Union::Blob(_, own, _) => *own = mode,
        Union::Map(_, own, _) => *own = mode,
        Union::FnPtr(_, own, _) => *own = mode,
        Union::Variant(_, own, _) => *own = mode,
        Union::Shared(_, own, _) => *own = mode,
    }
}

// Inlined into callers, since most values contain no others.
#[inline(always)]
#[cycle(paint)]
#[tactic(auto, using(crate::proofs::Paints::painted_trees))]
fn paint_value(value: &mut Dynamic, mode: AccessMode, levels: u32)
    ensures { value.new ≡ paint mode value.old }
{
    match &mut value.union {
        Union::Array(_, _, items) => {
            if levels == 0 {
                let alloc = *items.allocator();
                return paint_far(value, mode, alloc);
            }
            paint_items(items, mode, levels - 1);
        }
        Union::Map(_, _, map) => {
            if levels == 0 {
                let alloc = map.alloc;
                return paint_far(value, mode, alloc);
            }
            paint_map(map, mode, levels - 1);
        }
        Union::Unit(_, _, _)
        | Union::Bool(_, _, _)
        | Union::Str(_, _, _)
        | Union::Char(_, _, _)
        | Union::Int(_, _, _)
        | Union::Blob(_, _, _)
        | Union::FnPtr(_, _, _)
        | Union::Variant(_, _, _)
        | Union::Shared(_, _, _) => {}
    }
    set_own_mode(value, mode);
}

#[inline(never)]
#[cycle(paint)]
fn paint_items(items: &mut Vec<Dynamic>, mode: AccessMode, levels: u32)
    ensures { items.new.items ≡ map (paint mode) items.old.items }
{
    for item in items.iter_mut() {
        paint_value(item, mode, levels);
    }
}

#[inline(never)]
#[cycle(paint)]
fn paint_map(map: &mut Map, mode: AccessMode, levels: u32)
    ensures { fields_of map.new ≡ paint_fields mode (fields_of map.old) }
{
    let Some(mut parts) = map.parts.take() else {
        return;
    };
    paint_parts(&mut parts, mode, levels);
    map.parts = Some(parts);
}

#[cycle(paint)]
fn paint_parts(parts: &mut MapParts, mode: AccessMode, levels: u32)
    requires { IsWhole parts.old }
    ensures painted { fields_of (rows_of parts.new) ≡ paint_fields mode (fields_of (rows_of parts.old)) }
    ensures whole { IsWhole parts.new }
{
    paint_entries(&mut parts.first, mode, levels);
    paint_chunks(&mut parts.rest, mode, levels);
}

#[cycle(paint)]
fn paint_entries(entries: &mut Vec<Entry>, mode: AccessMode, levels: u32)
    ensures { rows entries.new.items ≡ painted_rows mode (rows entries.old.items) }
{
    for entry in entries.iter_mut() {
        paint_value(&mut entry.value, mode, levels);
    }
}

#[cycle(paint)]
fn paint_chunks(rest: &mut Vec<Chunk>, mode: AccessMode, levels: u32)
    ensures { map chunk_view rest.new.items ≡ map (painted_chunk mode) (map chunk_view rest.old.items) }
{
    for chunk in rest.iter_mut() {
        paint_entries(&mut chunk.entries, mode, levels);
    }
}
