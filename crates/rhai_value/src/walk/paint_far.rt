//! Painting of deeply nested values.
ghost use Rattle.std.specs.Prelude.{◌≡◌, ◌+◌, ◌-◌, ◌<◌, ◌≤◌, [], length, drop, slice_set, slice_index_or, MatchOption, MatchResult};
ghost use Rattle.rhai_value.specs.Coats.{painted_from, painted_past, painted_with, coat_whole, coat_left, IsReady, IsTaken};
ghost use Rattle.rhai_value.specs.Lists.{rows_in, IsWhole, IsWholeIn};
ghost use Rattle.rhai_value.specs.Rows.{trees_of, fields_of};
ghost use Rattle.rhai_value.specs.Seats.{rows_from, IsOpen};
ghost use Rattle.rhai_value.specs.Tree.{node, fields, paint, paint_fields, nodes, nodes_trees, nodes_fields, fresh, unit};

use crate::map::seat::Seat;
use crate::map::{Map, MapParts};
use crate::value::access_mode::AccessMode;
use crate::value::dynamic::Dynamic;
use crate::value::mode::set_own_mode;
use crate::value::union::{Tag, Union};
use crate::walk::coat::{Coat, CoatedFields, CoatedItems};
use crate::walk::flat_walk::searched;
use crate::walk::job::Search;
use std::alloc::Global;
use std::mem;

/// The frame of an array or a map, or otherwise the painted value.
#[tactic(auto, using(crate::proofs::Paints::painted_trees))]
fn coated(value: Dynamic, mode: AccessMode) -> Result<Dynamic, Coat>
    ensures { MatchResult result (λ d. d ≡ paint mode value) (λ c. (coat_whole mode c ≡ paint mode value) × (coat_left c < nodes value) × IsReady c) }
{
    match value.into_parts() {
        Union::Array(tag, _, items) => Err(Coat::Array(tag, CoatedItems { items, next: 0 })),
        Union::Map(tag, _, map) => coated_map(tag, map, mode),
        union => {
            let mut value = Dynamic { union };
            set_own_mode(&mut value, mode);
            Ok(value)
        }
    }
}

fn coated_map(tag: Tag, map: Map, mode: AccessMode) -> Result<Dynamic, Coat>
    ensures { MatchResult result (λ d. d ≡ node (fields (paint_fields mode (fields_of map))) tag mode)
        (λ c. (coat_whole mode c ≡ node (fields (paint_fields mode (fields_of map))) tag mode) × (coat_left c < 1 + nodes_fields (fields_of map)) × IsReady c) }
{
    let alloc = map.alloc;
    coated_parts(tag, map.parts, alloc, mode)
}

fn coated_parts(
    tag: Tag,
    parts: Option<Box<MapParts>>,
    alloc: Global,
    mode: AccessMode,
) -> Result<Dynamic, Coat>
    requires { IsWholeIn parts }
    ensures { MatchResult result (λ d. d ≡ node (fields (paint_fields mode (fields_of (rows_in parts)))) tag mode)
        (λ c. (coat_whole mode c ≡ node (fields (paint_fields mode (fields_of (rows_in parts)))) tag mode) × (coat_left c < 1 + nodes_fields (fields_of (rows_in parts))) × IsReady c) }
{
    match parts {
        None => Ok(Dynamic {
            union: Union::Map(tag, mode, Map::new(alloc)),
        }),
        Some(parts) => {
            let next = Seat { list: 0, at: 0 };
            let fields = CoatedFields { parts, alloc, next };
            Err(Coat::Fields(tag, fields))
        }
    }
}

/// Takes an item out, and leaves unit in its place.
fn taken_at(items: &mut Vec<Dynamic>, at: usize) -> Dynamic
    requires { at < length items.old.items }
    ensures value { result ≡ slice_index_or items.old.items at (fresh unit) }
    ensures left { items.new.items ≡ slice_set items.old.items at (fresh unit) }
{
    mem::replace(&mut items[at], Dynamic::UNIT)
}

/// Paints the items up to one with children, and returns that one's frame.
fn items_coat_step(items: &mut Vec<Dynamic>, next: &mut usize, mode: AccessMode) -> Option<Coat>
    requires { next.old ≤ length items.old.items }
    ensures { MatchOption result
        ((painted_from mode next.new items.new.items ≡ painted_from mode next.old items.old.items) × (next.new ≡ length items.new.items))
        (λ c. (painted_from mode next.new (slice_set items.new.items (next.new - 1) (coat_whole mode c)) ≡ painted_from mode next.old items.old.items)
        × (nodes_trees (trees_of (drop next.new items.new.items)) + coat_left c < nodes_trees (trees_of (drop next.old items.old.items)))
        × (0 < next.new) × (next.new ≤ length items.new.items) × IsReady c) }
{
    while *next < items.len() {
        let at = *next;
        *next += 1;
        match coated(taken_at(items, at), mode) {
            Ok(painted) => items[at] = painted,
            Err(coat) => return Some(coat),
        }
    }
    None
}

/// The same for the entries of a map from a place on.
fn fields_coat_step(parts: &mut MapParts, next: &mut Seat, mode: AccessMode) -> Option<Coat>
    requires whole { IsWhole parts.old }
    requires open { IsOpen parts.old next.old }
    ensures whole { IsWhole parts.new }
    ensures steps { MatchOption result
        ((rows_from parts.new next.new ≡ []) × IsOpen parts.new next.new × (painted_past mode parts.new next.new ≡ painted_past mode parts.old next.old))
        (λ c. IsTaken parts.new next.new × (painted_with mode parts.new next.new (coat_whole mode c) ≡ painted_past mode parts.old next.old)
        × (nodes_fields (fields_of (rows_from parts.new next.new)) + coat_left c < nodes_fields (fields_of (rows_from parts.old next.old))) × IsReady c) }
{
    while let Some(seat) = parts.seat_from(*next) {
        next.list = seat.list;
        next.at = seat.at + 1;
        let value = parts.replace_at(seat, Dynamic::UNIT);
        match coated(value, mode) {
            Ok(painted) => drop(parts.replace_at(seat, painted)),
            Err(coat) => return Some(coat),
        }
    }
    None
}

/// The frames of a painting of a value and all values inside it through arrays and maps.
#[derive(Drop)]
struct Painting {
    mode: AccessMode,
}

impl Search for Painting {
    ghost use Rattle.rhai_value.specs.Coats.{coat_whole, coat_after, coat_left, IsReady, IsWaiting, IsEnded};
    ghost use Rattle.rhai_value.specs.declared.value.access_mode.AccessMode.{AccessMode};

    type Frame = Coat;

    type Done = Dynamic;

    ghost Seen = { AccessMode };

    ghost seen = { λ j. j.mode };

    ghost run = { λ m c. (m, coat_whole m c) };

    ghost after = { λ m c x. (m, coat_after m c x) };

    ghost is_ready = { IsReady };

    ghost is_waiting = { IsWaiting };

    ghost is_ended = { IsEnded };

    ghost size = { coat_left };

    ghost left = { λ s. 0 };

    fn step(&mut self, frame: &mut Coat) -> Option<Coat> {
        match frame {
            Coat::Array(_, items) => items_coat_step(&mut items.items, &mut items.next, self.mode),
            Coat::Fields(_, fields) => {
                fields_coat_step(&mut fields.parts, &mut fields.next, self.mode)
            }
        }
    }

    fn add(&mut self, frame: &mut Coat, done: Dynamic) {
        match frame {
            Coat::Array(_, items) => items.items[items.next - 1] = done,
            Coat::Fields(_, fields) => {
                let Seat { list, at } = fields.next;
                let seat = Seat { list, at: at - 1 };
                drop(fields.parts.replace_at(seat, done));
            }
        }
    }

    fn finish(&mut self, frame: Coat) -> Dynamic {
        let mode = self.mode;
        match frame {
            Coat::Array(tag, items) => Dynamic {
                union: Union::Array(tag, mode, items.items),
            },
            Coat::Fields(tag, fields) => {
                let alloc = fields.alloc;
                let parts = Some(fields.parts);
                Dynamic {
                    union: Union::Map(tag, mode, Map { parts, alloc }),
                }
            }
        }
    }
}

/// Sets the mode of the value and of all values inside it through arrays and maps, with bounded
/// stack.
pub(crate) fn paint_far(value: &mut Dynamic, mode: AccessMode, alloc: Global)
    ensures { value.new ≡ paint mode value.old }
{
    match coated(value.take(), mode) {
        Ok(painted) => *value = painted,
        Err(coat) => {
            let mut job = Painting { mode };
            *value = searched(&mut job, coat, alloc);
        }
    }
}
