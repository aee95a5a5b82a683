//! Deep copies, with every mode ReadWrite or with the modes as they are.
ghost use Rattle.std.specs.Prelude.{◌≡◌, ◌<◌, vec_len, vec_capacity, ◌++◌, ◌∷◌, [], if◌then◌else◌, IfOk, IsOk, map};
ghost use Rattle.rhai_value.specs.RowWalks.{chunk_view, copied_chunk};
ghost use Rattle.rhai_value.specs.Lists.{rows, rows_of, IsWhole};
ghost use Rattle.rhai_value.specs.Rows.{copied_rows};
ghost use Rattle.rhai_value.specs.Tree.{TakesNoMemory, copy, copy_by};
ghost use Rattle.rhai_value.specs.View.{tree_of};

use crate::map::{Chunk, Entry, Map, MapParts};
use crate::value::access_mode::AccessMode;
use crate::value::dynamic::Dynamic;
use crate::value::fn_ptr::FnPtr;
use crate::value::union::Union;
use crate::walk::copy_far::copied_far;
use crate::walk::modes::{Modes, Unchanged, Writable};
use crate::walk::near::NEAR;
use std::alloc::{AllocError, Global};

impl Dynamic {
    /// Copies the value and all values inside it, with every mode ReadWrite; the copy of a holder
    /// refers to the same cell.
    /// Errors: an allocation fails; the partial copy is dropped.
    /// Cost: the number of values inside, and of bytes in blobs; texts share their bytes. One
    /// allocation for each array, blob, list of a map and key of more than 30 bytes, and a work
    /// list below the 64th level. The keys of maps below that are inserted one by one.
    /// rhai: `Clone` of `Dynamic`.
    // Inlined, so that the most frequent types are built where the caller wants them.
    #[inline(always)]
    pub fn copy(&self, alloc: Global) -> Result<Dynamic, AllocError>
        ensures value { IfOk result (λ d. d ≡ copy self.now) }
        ensures free { TakesNoMemory self.now → IsOk result }
    {
        let mode = AccessMode::ReadWrite;
        if let Union::Int(tag, _, n) = &self.union {
            let union = Union::Int(*tag, mode, *n);
            return Ok(Dynamic { union });
        }
        if let Union::Shared(tag, _, shared) = &self.union {
            let union = Union::Shared(*tag, mode, *shared);
            return Ok(Dynamic { union });
        }
        if let Union::Str(tag, _, text) = &self.union {
            let text = text.copy(alloc)?;
            let union = Union::Str(*tag, mode, text);
            return Ok(Dynamic { union });
        }
        if let Union::Blob(tag, _, bytes) = &self.union {
            let bytes = Vec::from_slice(alloc, bytes)?;
            let union = Union::Blob(*tag, mode, bytes);
            return Ok(Dynamic { union });
        }
        copied::<Writable>(self, alloc, NEAR)
    }

    /// Copies values, each as `copy` does.
    /// Errors: an allocation fails; the partial copy is dropped.
    /// Cost: that of `copy` for each value, and memory for the list; none for no values.
    pub fn copies(alloc: Global, values: &[Dynamic]) -> Result<Vec<Dynamic>, AllocError>
        ensures value { IfOk result (λ v. v.items ≡ map copy values.now) }
        ensures free { values.now ≡ [] → IsOk result }
    {
        if values.is_empty() {
            return Ok(Vec::new(alloc));
        }
        copied_items::<Writable>(values, alloc, NEAR)
    }

    /// Copies the value and all values inside it with their modes; the copy of a holder refers to
    /// the same cell.
    /// Errors: an allocation fails; the partial copy is dropped.
    /// Cost: that of `copy`.
    #[tactic(auto, using(crate::proofs::Copies::unchanged))]
    pub fn copy_with_modes(&self, alloc: Global) -> Result<Dynamic, AllocError>
        ensures value { IfOk result (λ d. d ≡ self.now) }
        ensures free { TakesNoMemory self.now → IsOk result }
    {
        copied::<Unchanged>(self, alloc, NEAR)
    }

    /// Copies values, each as `copy_with_modes` does.
    /// Errors: an allocation fails; the partial copy is dropped.
    /// Cost: that of `copies`.
    #[tactic(auto, using(crate::proofs::Copies::all_unchanged))]
    pub fn copies_with_modes(alloc: Global, values: &[Dynamic]) -> Result<Vec<Dynamic>, AllocError>
        ensures value { IfOk result (λ v. v.items ≡ values.now) }
        ensures free { values.now ≡ [] → IsOk result }
    {
        if values.is_empty() {
            return Ok(Vec::new(alloc));
        }
        copied_items::<Unchanged>(values, alloc, NEAR)
    }
}

#[inline(always)]
#[cycle(copy)]
fn copied<M: Modes>(value: &Dynamic, alloc: Global, levels: u32) -> Result<Dynamic, AllocError>
    ensures value { IfOk result (λ d. d ≡ copy_by M.after value.now) }
    ensures free { TakesNoMemory value.now → IsOk result }
{
    let union = copied_union::<M>(&value.union, alloc, levels)?;
    Ok(Dynamic { union })
}

#[inline(never)]
#[cycle(copy)]
#[tactic(auto, using(crate::proofs::Copies::copied_trees, crate::proofs::Copies::copied_fields))]
fn copied_union<M: Modes>(union: &Union, alloc: Global, levels: u32) -> Result<Union, AllocError>
    ensures value { IfOk result (λ u. tree_of u ≡ copy_by M.after (tree_of union.now)) }
    ensures free { TakesNoMemory (tree_of union.now) → IsOk result }
{
    match union {
        Union::Unit(tag, mode, value) => Ok(Union::Unit(*tag, M::after(*mode), *value)),
        Union::Bool(tag, mode, value) => Ok(Union::Bool(*tag, M::after(*mode), *value)),
        Union::Str(tag, mode, text) => Ok(Union::Str(*tag, M::after(*mode), text.copy(alloc)?)),
        Union::Char(tag, mode, value) => Ok(Union::Char(*tag, M::after(*mode), *value)),
        Union::Int(tag, mode, value) => Ok(Union::Int(*tag, M::after(*mode), *value)),
        Union::Array(tag, mode, items) => {
            if levels == 0 {
                return copied_far::<M>(union, alloc);
            }
            let items = copied_items::<M>(items, alloc, levels - 1)?;
            Ok(Union::Array(*tag, M::after(*mode), items))
        }
        Union::Blob(tag, mode, bytes) => Ok(Union::Blob(
            *tag,
            M::after(*mode),
            Vec::from_slice(alloc, bytes)?,
        )),
        Union::Map(tag, mode, map) => {
            if levels == 0 {
                return copied_far::<M>(union, alloc);
            }
            Ok(Union::Map(
                *tag,
                M::after(*mode),
                copied_map::<M>(map, alloc, levels - 1)?,
            ))
        }
        Union::FnPtr(tag, mode, f) => {
            if levels == 0 {
                return copied_far::<M>(union, alloc);
            }
            let f = copied_function::<M>(f, alloc, levels - 1)?;
            Ok(Union::FnPtr(*tag, M::after(*mode), f))
        }
        Union::Variant(tag, mode, host) => Ok(Union::Variant(*tag, M::after(*mode), *host)),
        Union::Shared(tag, mode, cell) => Ok(Union::Shared(*tag, M::after(*mode), *cell)),
    }
}

// Appends the copy of a frequent item type, with a separate write for each type. Returns whether it
// did.
#[inline(always)]
fn push_short<M: Modes>(
    copies: &mut Vec<Dynamic>,
    union: &Union,
    alloc: Global,
) -> Result<bool, AllocError>
    requires { vec_len copies.old < vec_capacity copies.old }
    ensures room { vec_capacity copies.new ≡ vec_capacity copies.old }
    ensures copied { IfOk result (λ done. copies.new.items ≡ (if done then copies.old.items ++ copy_by M.after (tree_of union.now) ∷ [] else copies.old.items)) }
{
    match union {
        Union::Int(tag, mode, value) => {
            let union = Union::Int(*tag, M::after(*mode), *value);
            copies.push_reserved(Dynamic { union });
            Ok(true)
        }
        Union::Str(tag, mode, text) => {
            let union = Union::Str(*tag, M::after(*mode), text.copy(alloc)?);
            copies.push_reserved(Dynamic { union });
            Ok(true)
        }
        Union::Bool(tag, mode, value) => {
            let union = Union::Bool(*tag, M::after(*mode), *value);
            copies.push_reserved(Dynamic { union });
            Ok(true)
        }
        Union::Shared(tag, mode, cell) => {
            let union = Union::Shared(*tag, M::after(*mode), *cell);
            copies.push_reserved(Dynamic { union });
            Ok(true)
        }
        Union::Unit(_, _, _)
        | Union::Char(_, _, _)
        | Union::Array(_, _, _)
        | Union::Blob(_, _, _)
        | Union::Map(_, _, _)
        | Union::FnPtr(_, _, _)
        | Union::Variant(_, _, _) => Ok(false),
    }
}

// Copies the items into a list allocated once.
#[cycle(copy)]
pub(crate) fn copied_items<M: Modes>(
    items: &[Dynamic],
    alloc: Global,
    levels: u32,
) -> Result<Vec<Dynamic>, AllocError>
    ensures { IfOk result (λ v. v.items ≡ map (copy_by M.after) items.now) }
{
    let mut copies = Vec::with_capacity(alloc, items.len())?;
    for item in items {
        if !push_short::<M>(&mut copies, &item.union, alloc)? {
            copies.push_reserved(copied::<M>(item, alloc, levels)?);
        }
    }
    Ok(copies)
}

#[cycle(copy)]
pub(crate) fn copied_function<M: Modes>(
    f: &FnPtr,
    alloc: Global,
    levels: u32,
) -> Result<FnPtr, AllocError>
    ensures { IfOk result (λ g. g ≡ (f.now.0, map (copy_by M.after) f.now.1)) }
{
    let name = f.name.copy(alloc)?;
    let curry = copied_items::<M>(&f.curry, alloc, levels)?;
    Ok(FnPtr { name, curry })
}

#[cycle(copy)]
pub(crate) fn copied_map<M: Modes>(map: &Map, alloc: Global, levels: u32) -> Result<Map, AllocError>
    ensures { IfOk result (λ m. m ≡ copied_rows M.after map.now) }
{
    match &map.parts {
        None => Ok(Map::new(alloc)),
        Some(parts) => {
            let parts: &MapParts = parts;
            let parts = Box::new(alloc, copied_parts::<M>(parts, alloc, levels)?)?;
            Ok(Map {
                parts: Some(parts),
                alloc,
            })
        }
    }
}

// Copies list by list.
#[cycle(copy)]
fn copied_parts<M: Modes>(
    parts: &MapParts,
    alloc: Global,
    levels: u32,
) -> Result<MapParts, AllocError>
    requires { IsWhole parts.now }
    ensures rows { IfOk result (λ p. rows_of p ≡ copied_rows M.after (rows_of parts.now)) }
    ensures whole { IfOk result (λ p. IsWhole p) }
{
    let first = copied_entries::<M>(&parts.first, alloc, levels)?;
    let rest = copied_chunks::<M>(&parts.rest, alloc, levels)?;
    Ok(MapParts {
        first,
        rest,
        len: parts.len,
    })
}

#[cycle(copy)]
fn copied_chunks<M: Modes>(
    rest: &Vec<Chunk>,
    alloc: Global,
    levels: u32,
) -> Result<Vec<Chunk>, AllocError>
    ensures { IfOk result (λ v. map chunk_view v.items ≡ map (copied_chunk M.after) (map chunk_view rest.now.items)) }
{
    let mut copies = Vec::with_capacity(alloc, rest.len())?;
    for chunk in rest {
        let entries = copied_entries::<M>(&chunk.entries, alloc, levels)?;
        copies.push_reserved(Chunk {
            front: chunk.front,
            entries,
        });
    }
    Ok(copies)
}

// Ints, the most frequent values of maps, are copied in place.
#[cycle(copy)]
fn copied_entries<M: Modes>(
    entries: &Vec<Entry>,
    alloc: Global,
    levels: u32,
) -> Result<Vec<Entry>, AllocError>
    ensures { IfOk result (λ v. rows v.items ≡ copied_rows M.after (rows entries.now.items)) }
{
    let mut copies = Vec::with_capacity(alloc, entries.len())?;
    for entry in entries {
        let key = entry.key.copy()?;
        if let Union::Int(tag, mode, n) = &entry.value.union {
            let union = Union::Int(*tag, M::after(*mode), *n);
            let value = Dynamic { union };
            copies.push_reserved(Entry { key, value });
        } else {
            let value = copied::<M>(&entry.value, alloc, levels)?;
            copies.push_reserved(Entry { key, value });
        }
    }
    Ok(copies)
}
