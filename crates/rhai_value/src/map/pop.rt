//! First and last entries of a map.
ghost use Rattle.std.specs.Prelude.{◌≡◌, ◌+◌, ◌<◌, [], ◌∷◌, IfOk, IfErr, IfNone, OnErr, MatchOption, string_bytes};
ghost use Rattle.std.specs.Option.{option_to_list};
ghost use Rattle.rhai_value.specs.Lists.{rows_of, IsWhole};
ghost use Rattle.rhai_value.specs.Rows.{Rows, fields_of, trees_of};
ghost use Rattle.rhai_value.specs.Seats.{rows_before, rows_past, IsSeated};
ghost use Rattle.rhai_value.specs.Tree.{Tree, nodes, nodes_fields, nodes_trees};

use crate::map::key::Key;
use crate::map::seat::Seat;
use crate::map::{Entry, Map, MapParts};
use crate::value::dynamic::Dynamic;
use std::alloc::{AllocError, Global};

impl MapParts {
    /// The place of the first entry.
    fn first_seat(&self) -> Option<Seat>
        requires { IsWhole self.now }
        ensures { MatchOption result (rows_of self.now ≡ []) (λ s. IsSeated self.now s × (rows_before self.now s ≡ [])) }
    {
        if !self.first.is_empty() {
            return Some(Seat { list: 0, at: 0 });
        }
        if self.rest.is_empty() {
            return None;
        }
        Some(Seat { list: 1, at: 0 })
    }

    /// The place of the last entry.
    fn last_seat(&self) -> Option<Seat>
        requires { IsWhole self.now }
        ensures { MatchOption result (rows_of self.now ≡ []) (λ s. IsSeated self.now s × (rows_past self.now s ≡ [])) }
    {
        let list = self.rest.len();
        let len = self.list_len(list);
        if len == 0 {
            return None;
        }
        Some(Seat { list, at: len - 1 })
    }

    fn first_key(&self) -> Option<&Key>
        requires { IsWhole self.now }
        ensures { MatchOption result (rows_of self.now ≡ []) (λ k. (t : Tree) × ((rs : Rows) × (rows_of self.now ≡ (k.now, t) ∷ rs))) }
    {
        match self.first_seat() {
            Some(seat) => Some(self.key_at(seat)),
            None => None,
        }
    }

    pub(crate) fn pop_first_key(&mut self) -> Option<(Key, Dynamic)>
        requires { IsWhole self.old }
        ensures first { MatchOption result ((rows_of self.old ≡ []) × (rows_of self.new ≡ [])) (λ x. rows_of self.old ≡ (x.0, x.1) ∷ rows_of self.new) }
        ensures whole { IsWhole self.new }
    {
        match self.first_seat() {
            Some(seat) => {
                let Entry { key, value } = self.take(seat);
                Some((key, value))
            }
            None => None,
        }
    }

    pub(crate) fn pop_last(&mut self) -> Option<Dynamic>
        requires { IsWhole self.old }
        ensures fewer { nodes_fields (fields_of (rows_of self.new)) + nodes_trees (trees_of (option_to_list result)) ≡ nodes_fields (fields_of (rows_of self.old)) }
        ensures none { IfNone result (rows_of self.new ≡ []) }
        ensures whole { IsWhole self.new }
    {
        match self.last_seat() {
            Some(seat) => {
                let Entry { key, value } = self.take(seat);
                drop(key);
                Some(value)
            }
            None => None,
        }
    }

    pub(crate) fn swap_first(&mut self, with: Dynamic) -> Result<Dynamic, Dynamic>
        requires { IsWhole self.old }
        ensures ok { IfOk result (λ x. (nodes_fields (fields_of (rows_of self.new)) + nodes x ≡ nodes_fields (fields_of (rows_of self.old)) + nodes with) × (nodes x < 1 + nodes_fields (fields_of (rows_of self.old)))) }
        ensures err { IfErr result (λ back. (back ≡ with) × (self.new ≡ self.old)) }
        ensures none { IfErr result (λ _. rows_of self.new ≡ []) }
        ensures whole { IsWhole self.new }
    {
        match self.first_seat() {
            Some(seat) => Ok(self.replace_at(seat, with)),
            None => Err(with),
        }
    }
}

impl Map {
    /// Removes the first entry, that of the least key.
    /// Errors: the allocation of the key's text fails, and nothing changes.
    /// Cost: that of `pop_first_key`, and the length of the key.
    /// rhai: `BTreeMap::pop_first`.
    pub fn pop_first(&mut self, alloc: Global) -> Result<Option<(String, Dynamic)>, AllocError>
        ensures ok { IfOk result (λ first. MatchOption first ((self.old ≡ []) × (self.new ≡ [])) (λ x. self.old ≡ (string_bytes x.0, x.1) ∷ self.new)) }
        ensures err { OnErr result (self.new ≡ self.old) }
    {
        let Some(parts) = &mut self.parts else {
            return Ok(None);
        };
        let text = match parts.first_key() {
            Some(key) => String::from_str(alloc, key.as_str())?,
            None => return Ok(None),
        };
        match parts.pop_first_key() {
            Some((_, value)) => Ok(Some((text, value))),
            None => Ok(None),
        }
    }

    /// Removes the first entry and returns it with its `Key`.
    /// Cost: the number of lists or of entries in one, whichever is greater; no memory.
    pub fn pop_first_key(&mut self) -> Option<(Key, Dynamic)>
        ensures { MatchOption result ((self.old ≡ []) × (self.new ≡ [])) (λ x. self.old ≡ (x.0, x.1) ∷ self.new) }
    {
        match &mut self.parts {
            Some(parts) => parts.pop_first_key(),
            None => None,
        }
    }

    /// Removes the last entry, and returns its value. Allocates nothing.
    pub(crate) fn pop_last(&mut self) -> Option<Dynamic>
        ensures fewer { nodes_fields (fields_of self.new) + nodes_trees (trees_of (option_to_list result)) ≡ nodes_fields (fields_of self.old) }
        ensures none { IfNone result (self.new ≡ []) }
    {
        match &mut self.parts {
            Some(parts) => parts.pop_last(),
            None => None,
        }
    }

    /// Replaces the value of the first entry by `with` and returns it; `Err(with)` if there is no
    /// entry. Allocates nothing.
    pub(crate) fn swap_first(&mut self, with: Dynamic) -> Result<Dynamic, Dynamic>
        ensures ok { IfOk result (λ x. (nodes_fields (fields_of self.new) + nodes x ≡ nodes_fields (fields_of self.old) + nodes with) × (nodes x < 1 + nodes_fields (fields_of self.old))) }
        ensures err { IfErr result (λ back. (back ≡ with) × (self.new ≡ self.old)) }
        ensures none { IfErr result (λ _. self.new ≡ []) }
    {
        match &mut self.parts {
            Some(parts) => parts.swap_first(with),
            None => Err(with),
        }
    }
}
