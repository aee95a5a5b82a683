//! Frames of walks.

use rhai_value::{Dynamic, Entries, Path};

/// A child of a value, in a map with its key.
#[derive(Clone, Copy)]
pub(crate) enum Child<'a> {
    Item(&'a Dynamic),
    Entry(&'a str, &'a Dynamic),
}

/// The remaining children of an array, a function or a map, or the remaining content of the cell
/// that a holder has opened.
#[derive(Drop)]
pub(crate) enum Rest<'a> {
    Items(&'a [Dynamic]),
    Fields(Entries<'a>),
    Held(Option<&'a Dynamic>),
}

impl<'a> Child<'a> {
    ghost use Rattle.std.specs.Prelude.{◌≡◌};
    ghost use Rattle.rhai_show.specs.Rests.{child_of};

    /// The value without its key.
    pub(crate) fn value(self) -> &'a Dynamic
        ensures { result.now ≡ (child_of self.entry).1 }
    {
        match self {
            Child::Item(value) => value,
            Child::Entry(_, value) => value,
        }
    }
}

impl<'a> Rest<'a> {
    ghost use Rattle.std.specs.Prelude.{◌≡◌, [], ◌∷◌, MatchOption};
    ghost use Rattle.rhai_show.specs.Rests.{child_of, rest_of, is_held, closed_by, HasOpen};

    /// The next one.
    pub(crate) fn next(&mut self) -> Option<Child<'a>>
        ensures next { MatchOption result ((rest_of self.old ≡ []) × (rest_of self.new ≡ []))
            (λ c. rest_of self.old ≡ child_of c ∷ rest_of self.new) }
        ensures held { is_held self.new ≡ is_held self.old }
    {
        match self {
            Rest::Items(items) => match items.split_first() {
                None => None,
                Some((first, rest)) => {
                    *items = rest;
                    Some(Child::Item(first))
                }
            },
            Rest::Fields(entries) => match entries.next() {
                None => None,
                Some((key, value)) => Some(Child::Entry(key, value)),
            },
            Rest::Held(content) => match content.take() {
                None => None,
                Some(value) => Some(Child::Item(value)),
            },
        }
    }

    /// Closes their cell, if they are in one.
    pub(crate) fn close(&self, path: &mut Path)
        requires { HasOpen (is_held self.now) path.old }
        ensures { path.new ≡ closed_by (is_held self.now) path.old }
    {
        match self {
            Rest::Items(_) => {}
            Rest::Fields(_) => {}
            Rest::Held(_) => path.leave(),
        }
    }
}
