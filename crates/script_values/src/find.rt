//! The part of a value at a key.
ghost use Rattle.std.specs.Prelude.{IfOk};
ghost use Rattle.rhai_target.specs.Part.{HasPlace};

use crate::bounds::{bits_of, bounds_of, slice_of};
use crate::properties::property;
use rhai_packs::arrays;
use rhai_target::{NoPart, ReadPart};
use rhai_value::{Array, Dynamic, INT, Map, Store, Union};
use script_faults::{FaultKind, Key, Means, in_use, index_in, mismatch, name_in};

/// The result of a look-up by a key.
#[derive(Drop)]
pub enum Found<'s> {
    /// A value inside another.
    Item(&'s Dynamic),
    /// A new value: a part of a text, a blob or an int, or unit for a missing key.
    Made(Dynamic),
}

/// Finds the value at a key.
pub(crate) fn find<'s>(
    means: &Means,
    store: &'s Store,
    source: &'s Dynamic,
    key: &Key<'_>,
) -> Result<Found<'s>, FaultKind> {
    let Some(held) = source.held(store) else {
        return Err(in_use());
    };
    match held.parts() {
        Union::Array(_, _, items) => match key {
            Key::Index(_) => find_item(items, store, key),
            Key::Name(name) => Ok(Found::Made(property(means, store, held, name)?)),
        },
        Union::Map(_, _, map) => find_value(map, store, key),
        Union::Str(_, _, _)
        | Union::Blob(_, _, _)
        | Union::Int(_, _, _)
        | Union::Unit(_, _, _)
        | Union::Bool(_, _, _)
        | Union::Char(_, _, _)
        | Union::FnPtr(_, _, _)
        | Union::Variant(_, _, _)
        | Union::Shared(_, _, _) => match key {
            Key::Index(_) => match part_at(means, store, held, key) {
                Ok(part) => Ok(Found::Made(part.value)),
                Err(fault) => Err(fault),
            },
            Key::Name(name) => Ok(Found::Made(property(means, store, held, name)?)),
        },
    }
}

fn find_item<'s>(items: &'s Array, store: &Store, key: &Key<'_>) -> Result<Found<'s>, FaultKind> {
    let index = index_in(key, store, "array")?;
    match arrays::get(items, index) {
        Some(item) => Ok(Found::Item(item)),
        None => Err(FaultKind::OutOfRange(index, items.len())),
    }
}

fn find_value<'s>(map: &'s Map, store: &Store, key: &Key<'_>) -> Result<Found<'s>, FaultKind> {
    let name = name_in(key, store)?;
    match map.get(name) {
        Some(value) => Ok(Found::Item(value)),
        None => Ok(Found::Made(Dynamic::UNIT)),
    }
}

/// Reads a part of a text, a blob or an int.
/// Errors: another type, and an index out of range.
pub(crate) fn part_at(
    means: &Means,
    store: &Store,
    source: &Dynamic,
    key: &Key<'_>,
) -> Result<ReadPart, FaultKind>
    ensures { IfOk result (λ p. HasPlace store.now source.now p.place) }
{
    let Key::Index(index) = key else {
        return Err(FaultKind::NoParts(source.type_name(store)));
    };
    if source.is_string(store) {
        return text_part(means, store, source, index);
    }
    if source.is_int(store) {
        return int_part(store, source, index);
    }
    if source.is_blob(store) {
        return blob_part(store, source, index);
    }
    Err(FaultKind::NoParts(source.type_name(store)))
}

fn int_of(index: &Dynamic, store: &Store) -> Result<INT, FaultKind> {
    match index.as_int(store) {
        Ok(index) => Ok(index),
        Err(found) => Err(mismatch("i64", found)),
    }
}

/// Returns how many characters the held text has.
fn characters_in(source: &Dynamic, store: &Store) -> usize {
    match source.as_immutable_string_ref(store) {
        Ok(text) => text.char_count(),
        Err(_) => 0,
    }
}

fn text_part(
    means: &Means,
    store: &Store,
    source: &Dynamic,
    index: &Dynamic,
) -> Result<ReadPart, FaultKind>
    ensures { IfOk result (λ p. HasPlace store.now source.now p.place) }
{
    if let Some(bounds) = bounds_of(index, store) {
        let slice = slice_of(bounds, characters_in(source, store))?;
        return match ReadPart::slice_at(means.alloc, source, store, slice) {
            Ok(part) => Ok(part),
            Err(missing) => Err(fault_of(missing, 0, 0)),
        };
    }
    let index = int_of(index, store)?;
    match ReadPart::char_at(source, store, index) {
        Ok(part) => Ok(part),
        Err(missing) => Err(fault_of(missing, index, characters_in(source, store))),
    }
}

fn int_part(store: &Store, source: &Dynamic, index: &Dynamic) -> Result<ReadPart, FaultKind>
    ensures { IfOk result (λ p. HasPlace store.now source.now p.place) }
{
    if let Some(bounds) = bounds_of(index, store) {
        let bits = bits_of(bounds)?;
        return match ReadPart::field_at(source, store, bits.mask, bits.shift) {
            Ok(part) => Ok(part),
            Err(missing) => Err(fault_of(missing, 0, 64)),
        };
    }
    let index = int_of(index, store)?;
    match ReadPart::bit_at(source, store, index) {
        Ok(part) => Ok(part),
        Err(missing) => Err(fault_of(missing, index, 64)),
    }
}

fn blob_part(store: &Store, source: &Dynamic, index: &Dynamic) -> Result<ReadPart, FaultKind>
    ensures { IfOk result (λ p. HasPlace store.now source.now p.place) }
{
    let index = int_of(index, store)?;
    match ReadPart::byte_at(source, store, index) {
        Ok(part) => Ok(part),
        Err(missing) => Err(fault_of(missing, index, bytes_in(source, store))),
    }
}

/// Returns how many bytes the held blob has.
fn bytes_in(source: &Dynamic, store: &Store) -> usize {
    match source.as_blob_ref(store) {
        Ok(bytes) => bytes.len(),
        Err(_) => 0,
    }
}

/// Makes the fault for a part that can't be read, with this length.
fn fault_of(missing: NoPart, index: INT, count: usize) -> FaultKind {
    match missing {
        NoPart::Mismatch(found) => FaultKind::NoParts(found),
        NoPart::OutOfRange => FaultKind::OutOfRange(index, count),
        NoPart::Memory(error) => FaultKind::from(error),
    }
}
