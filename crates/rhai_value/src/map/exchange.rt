//! Swapping all values of a map.
ghost use Rattle.std.specs.Prelude.{◌≡◌, length, map, IfSome};
ghost use Rattle.rhai_value.specs.Children.{listed_fields};
ghost use Rattle.rhai_value.specs.RowWalks.{chunk_scanned, chunk_view, row_scanned, scanned};
ghost use Rattle.rhai_value.specs.Hollow.{exchanged, parted, with_fields};
ghost use Rattle.rhai_value.specs.Lists.{rows, rows_of, IsWhole};
ghost use Rattle.rhai_value.specs.Rows.{fields_of};

use crate::map::{Chunk, Entry, Map, MapParts};
use crate::value::dynamic::Dynamic;
use std::alloc::Global;
use std::mem;

/// A list of `count` units; `None` if its allocation fails.
pub(crate) fn units(count: usize, alloc: Global) -> Option<Vec<Dynamic>>
    ensures { IfSome result (λ ts. length ts.items ≡ count) }
{
    let mut values = Vec::with_capacity(alloc, count).ok()?;
    for _ in 0..count {
        values.push_reserved(Dynamic::UNIT);
    }
    Some(values)
}

/// Swaps the values of a map, in the order of the keys, with these, as far as they go. Allocates
/// nothing; costs the number of values.
pub(crate) fn exchange_values(map: &mut Map, values: &mut Vec<Dynamic>)
    ensures given { fields_of map.new ≡ with_fields (fields_of map.old) values.old.items }
    ensures taken { length values.old.items ≡ length (listed_fields (fields_of map.old)) → values.new.items ≡ listed_fields (fields_of map.old) }
{
    let Some(mut parts) = map.parts.take() else {
        return;
    };
    exchange_parts(&mut parts, values);
    map.parts = Some(parts);
}

fn exchange_parts(parts: &mut MapParts, values: &mut Vec<Dynamic>)
    requires { IsWhole parts.old }
    ensures given { fields_of (rows_of parts.new) ≡ with_fields (fields_of (rows_of parts.old)) values.old.items }
    ensures taken { length values.old.items ≡ length (listed_fields (fields_of (rows_of parts.old))) → values.new.items ≡ listed_fields (fields_of (rows_of parts.old)) }
    ensures whole { IsWhole parts.new }
{
    let at = exchange_entries(&mut parts.first, values, 0);
    exchange_chunks(&mut parts.rest, values, at);
}

/// Swaps the values of a list with those from an index on, if there are that many, and returns the
/// next index.
fn exchange_entries(entries: &mut Vec<Entry>, values: &mut Vec<Dynamic>, from: usize) -> usize
    ensures { (parted values.new.items result, rows entries.new.items) ≡ scanned (row_scanned exchanged) (parted values.old.items from) (rows entries.old.items) }
{
    let mut at = from;
    for entry in entries.iter_mut() {
        at = exchange_value(&mut entry.value, values, at);
    }
    at
}

/// The same for chunks.
fn exchange_chunks(rest: &mut Vec<Chunk>, values: &mut Vec<Dynamic>, from: usize) -> usize
    ensures { (parted values.new.items result, map chunk_view rest.new.items) ≡ scanned (chunk_scanned exchanged) (parted values.old.items from) (map chunk_view rest.old.items) }
{
    let mut at = from;
    for chunk in rest.iter_mut() {
        at = exchange_entries(&mut chunk.entries, values, at);
    }
    at
}

fn exchange_value(value: &mut Dynamic, values: &mut Vec<Dynamic>, at: usize) -> usize
    ensures { (parted values.new.items result, value.new) ≡ exchanged (parted values.old.items at) value.old }
{
    if at >= values.len() {
        return at;
    }
    mem::swap(value, &mut values[at]);
    at + 1
}
