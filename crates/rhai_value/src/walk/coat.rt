//! Values being painted.

use crate::map::MapParts;
use crate::map::seat::Seat;
use crate::value::dynamic::Dynamic;
use crate::value::union::Tag;
use std::alloc::Global;

/// Frame of a painting: the value's tag, and its children.
#[derive(Drop)]
pub(crate) enum Coat {
    Array(Tag, CoatedItems),
    Fields(Tag, CoatedFields),
}

/// The items of an array, and the number of those already taken.
#[derive(Drop)]
pub(crate) struct CoatedItems {
    pub(crate) items: Vec<Dynamic>,
    pub(crate) next: usize,
}

/// The parts of a map, and the place up to which entries were taken.
#[derive(Drop)]
pub(crate) struct CoatedFields {
    pub(crate) parts: Box<MapParts>,
    pub(crate) alloc: Global,
    pub(crate) next: Seat,
}
