//! Copies of deeply nested values.
ghost use Rattle.std.specs.Prelude.{◌≡◌, ◌+◌, ◌<◌, [], ◌∷◌, ◌++◌, map, IfOk, OnOk, MatchOption, MatchResult};
ghost use Rattle.rhai_value.specs.Levels.{items_copy, items_after, fields_copy, fields_after, level_copy, level_left, nodes_in, nodes_of_rows};
ghost use Rattle.rhai_value.specs.Rows.{bytes_cmp};
ghost use Rattle.rhai_value.specs.Tree.{copy_by, nodes};
ghost use Rattle.rhai_value.specs.View.{tree_of};
ghost use Rattle.std.specs.BTreeMap.{insert_entry};

use crate::map::Map;
use crate::value::dynamic::Dynamic;
use crate::value::fn_ptr::FnPtr;
use crate::value::union::Union;
use crate::walk::flat_walk::walked;
use crate::walk::job::Job;
use crate::walk::level::{CopiedFields, CopiedItems, Level};
use crate::walk::modes::Modes;
use std::alloc::{AllocError, Global};
use std::marker::PhantomData;

/// The copy of a value without children, or otherwise its frame.
#[tactic(auto, using(crate::proofs::Leveled::opened_items, crate::proofs::Leveled::opened_rows))]
fn opened<'a, M: Modes>(
    union: &'a Union,
    alloc: Global,
) -> Result<Result<Union, Level<'a>>, AllocError>
    ensures { IfOk result (λ r. MatchResult r (λ u. tree_of u ≡ copy_by M.after (tree_of union.now)) (λ l. (level_copy M.after l ≡ copy_by M.after (tree_of union.now)) × (level_left l < nodes (tree_of union.now)))) }
{
    let union = match union {
        Union::Unit(tag, mode, value) => Union::Unit(*tag, M::after(*mode), *value),
        Union::Bool(tag, mode, value) => Union::Bool(*tag, M::after(*mode), *value),
        Union::Str(tag, mode, text) => Union::Str(*tag, M::after(*mode), text.copy(alloc)?),
        Union::Char(tag, mode, value) => Union::Char(*tag, M::after(*mode), *value),
        Union::Int(tag, mode, value) => Union::Int(*tag, M::after(*mode), *value),
        Union::Blob(tag, mode, bytes) => Union::Blob(
            *tag,
            M::after(*mode),
            Vec::from_slice(alloc, bytes)?,
        ),
        Union::Variant(tag, mode, host) => Union::Variant(*tag, M::after(*mode), *host),
        Union::Shared(tag, mode, cell) => Union::Shared(*tag, M::after(*mode), *cell),
        Union::Array(tag, mode, items) => {
            let done = Vec::with_capacity(alloc, items.len())?;
            let rest = items.as_slice();
            return Ok(Err(Level::Array(*tag, M::after(*mode), CopiedItems { rest, done })));
        }
        Union::FnPtr(tag, mode, f) => {
            let name = f.name.copy(alloc)?;
            let done = Vec::with_capacity(alloc, f.curry.len())?;
            let rest = f.curry.as_slice();
            return Ok(Err(Level::Function(
                *tag,
                M::after(*mode),
                name,
                CopiedItems { rest, done },
            )));
        }
        Union::Map(tag, mode, map) => {
            let fields = CopiedFields {
                key: "",
                rest: map.iter(),
                done: Map::new(alloc),
            };
            return Ok(Err(Level::Fields(*tag, M::after(*mode), fields)));
        }
    };
    Ok(Ok(union))
}

/// Appends the copies of items up to one with children, and returns that one's frame.
fn items_step<'a, M: Modes>(
    items: &mut CopiedItems<'a>,
    alloc: Global,
) -> Result<Option<Level<'a>>, AllocError>
    ensures { IfOk result (λ r. MatchOption r
        ((items_copy M.after items.old ≡ items_copy M.after items.new) × (items.new.rest.now ≡ []))
        (λ l. (items_copy M.after items.old ≡ items_after M.after items.new (level_copy M.after l)) × (nodes_in items.new.rest.now + level_left l < nodes_in items.old.rest.now))) }
{
    while let Some((item, rest)) = items.rest.split_first() {
        items.rest = rest;
        match opened::<M>(&item.union, alloc)? {
            Ok(union) => items.done.push(Dynamic { union })?,
            Err(level) => return Ok(Some(level)),
        }
    }
    Ok(None)
}

/// The same for the entries of a map; keeps that entry's key.
fn fields_step<'a, M: Modes>(
    fields: &mut CopiedFields<'a>,
    alloc: Global,
) -> Result<Option<Level<'a>>, AllocError>
    ensures { IfOk result (λ r. MatchOption r
        ((fields_copy M.after fields.old ≡ fields_copy M.after fields.new) × (fields.new.rest ≡ []))
        (λ l. (fields_copy M.after fields.old ≡ fields_after M.after fields.new (level_copy M.after l)) × (nodes_of_rows fields.new.rest + level_left l < nodes_of_rows fields.old.rest))) }
{
    while let Some((key, value)) = fields.rest.next() {
        match opened::<M>(&value.union, alloc)? {
            Ok(union) => insert_copy(&mut fields.done, key, Dynamic { union })?,
            Err(level) => {
                fields.key = key;
                return Ok(Some(level));
            }
        }
    }
    Ok(None)
}

fn insert_copy(done: &mut Map, key: &str, copied: Dynamic) -> Result<(), AllocError>
    ensures { OnOk result (done.new ≡ insert_entry bytes_cmp done.old key.now copied) }
{
    match done.set(key, copied) {
        Ok(old) => {
            drop(old);
            Ok(())
        }
        Err(back) => {
            drop(back);
            Err(AllocError)
        }
    }
}

/// The copies of all values inside a value, with bounded stack.
#[derive(Drop)]
struct Copying<'a, M: Modes> {
    alloc: Global,
    _whole: &'a Union,
    _modes: PhantomData<M>,
}

impl<'a, M: Modes> Job for Copying<'a, M> {
    ghost use Rattle.std.specs.Prelude.{ℕ};
    ghost use Rattle.rhai_value.specs.Levels.{level_copy, level_left, level_after, HasNoneLeft};

    type Frame = Level<'a>;

    type Done = Dynamic;

    ghost Seen = { Unit {0} };

    ghost seen = { λ j. tt };

    ghost run = { λ s l. (s, level_copy M.after l) };

    ghost after = { λ s l x. (s, level_after M.after l x) };

    ghost is_ready = { λ l. Unit {0} };

    ghost is_waiting = { λ l. Unit {0} };

    ghost is_ended = { HasNoneLeft };

    ghost size = { level_left };

    ghost left = { λ s. 0 };

    fn step(&mut self, frame: &mut Level<'a>) -> Result<Option<Level<'a>>, AllocError> {
        match frame {
            Level::Array(_, _, items) => items_step::<M>(items, self.alloc),
            Level::Function(_, _, _, items) => items_step::<M>(items, self.alloc),
            Level::Fields(_, _, fields) => fields_step::<M>(fields, self.alloc),
        }
    }

    fn add(&mut self, frame: &mut Level<'a>, done: Dynamic) -> Result<(), AllocError> {
        match frame {
            Level::Array(_, _, items) => Ok(items.done.push(done)?),
            Level::Function(_, _, _, items) => Ok(items.done.push(done)?),
            Level::Fields(_, _, fields) => {
                let key = fields.key;
                insert_copy(&mut fields.done, key, done)
            }
        }
    }

    fn finish(&mut self, frame: Level<'a>) -> Result<Dynamic, AllocError> {
        let union = match frame {
            Level::Array(tag, mode, items) => Union::Array(tag, mode, items.done),
            Level::Function(tag, mode, name, items) => {
                let curry = items.done;
                Union::FnPtr(tag, mode, FnPtr { name, curry })
            }
            Level::Fields(tag, mode, fields) => Union::Map(tag, mode, fields.done),
        };
        Ok(Dynamic { union })
    }
}

/// Copies a value, with bounded stack.
pub(crate) fn copied_far<M: Modes>(union: &Union, alloc: Global) -> Result<Union, AllocError>
    ensures { IfOk result (λ u. tree_of u ≡ copy_by M.after (tree_of union.now)) }
{
    match opened::<M>(union, alloc)? {
        Ok(copied) => Ok(copied),
        Err(level) => {
            let mut job: Copying<'_, M> = Copying {
                alloc,
                _whole: union,
                _modes: PhantomData,
            };
            Ok(walked(&mut job, level, alloc)?.into_parts())
        }
    }
}
