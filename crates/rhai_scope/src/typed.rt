//! Entries by Rust types.
ghost use Rattle.std.specs.Prelude.{◌≡◌, ◌<◌, true, false, is_some, None, Some, length, option_map, option_and_then, remove, slice_get, IfSome, IfOk, OnOk, OnErr, IsOk};
ghost use Rattle.std.specs.Borrow.{LendsIf, sem};
ghost use Rattle.std.specs.Str.{chars};
ghost use Rattle.rhai_value.specs.declared.value.access_mode.AccessMode.TheVariants.{ReadWrite, ReadOnly};
ghost use Rattle.rhai_value.specs.End.{flat, flattened};
ghost use Rattle.rhai_value.specs.Tree.{TakesNoMemory, cell_of, fresh, unit};
ghost use Rattle.rhai_value.specs.Types.{is_type};
ghost use Rattle.rhai_value.specs.declared.value.type_id.TypeId.TheVariants as type_id;
ghost use Rattle.rhai_variant.specs.Reads.{read, viewed};
ghost use Rattle.rhai_scope.specs.Entry.{is_constant_entry, pushed, with_value};
ghost use Rattle.rhai_scope.specs.Lookup.{changed_at, changed_named, last_position, last_entry, value_at, value_named, writable_position};
ghost use Rattle.rhai_scope.specs.Typed.{set_or_pushed, removed_at, written_entry};
ghost use Rattle.rhai_scope.specs.contracts.scope.Scope as scope_type;

use crate::scope::Scope;
use rhai_cast::{DynamicCast, cast_or_give_back, is_castable};
use rhai_value::{AccessMode, Dynamic, Store};
use rhai_variant::Variant;
use std::alloc::{AllocError, Global};

/// The value made from a Rust value.
fn made<T: Variant>(alloc: Global, value: T) -> Result<Dynamic, AllocError>
    ensures value { IfOk result (λ d. d ≡ T.tree value) }
    ensures free { is_type T.KIND type_id.String ≡ false → IsOk result }
{
    match value.into_dynamic(alloc) {
        Ok(made) => Ok(made),
        Err(_) => Err(AllocError),
    }
}

/// Reads the type from the flat copy of a value, if the value is of it.
fn read_flat<T: Variant>(
    alloc: Global,
    value: &Dynamic,
    store: &Store,
) -> Result<Option<T>, AllocError>
    ensures found { IfOk result (λ found. option_map T.tree found ≡ read T.KIND (flat store.now value.now)) }
    ensures unread { read T.KIND (flat store.now value.now) ≡ None → IsOk result }
    ensures free { TakesNoMemory (flat store.now value.now) → is_type T.KIND type_id.String ≡ false → IsOk result }
{
    if is_castable::<T>(value, store) {
        Ok(Some(value.clone_cast::<T>(alloc, store)?))
    } else {
        Ok(None)
    }
}

impl Scope {
    /// Removes the entry at a position with its aliases, and returns its own value.
    /// Cost: the number of entries behind it; no memory.
    #[tactic(auto, using(crate::proofs::MovedOut::taken, crate::proofs::MovedOut::length_changed))]
    pub fn remove_at(&mut self, i: usize) -> Dynamic
        requires { i < length self.old }
        ensures value { option_map (λ e. e.value) (slice_get self.old i) ≡ Some result }
        ensures left { self.new ≡ remove self.old i }
    {
        let value = self.lift(i);
        self.drop_at(i);
        value
    }

    /// Replaces the value at a position.
    fn put(&mut self, i: usize, value: Dynamic)
        requires { i < length self.old }
        ensures { self.new ≡ changed_at (with_value value) self.old i }
    {
        *self.at_mut(i) = value;
    }

    /// Moves the value at a position out, and leaves unit.
    fn lift(&mut self, i: usize) -> Dynamic
        requires { i < length self.old }
        ensures value { option_map (λ e. e.value) (slice_get self.old i) ≡ Some result }
        ensures left { self.new ≡ changed_at (with_value (fresh unit)) self.old i }
    {
        self.at_mut(i).take()
    }

    /// Removes the entry at a position, if there is one, and casts its value; the entry is kept if
    /// an allocation fails.
    #[tactic(auto, using(crate::proofs::MovedOut::taken, crate::proofs::MovedOut::length_changed))]
    fn take_at<T: Variant>(
        &mut self,
        place: Option<usize>,
        store: &Store,
    ) -> Result<Option<T>, AllocError>
        requires { IfSome place (λ i. i < length self.old) }
        ensures missing { place ≡ None → IsOk result }
        ensures found { IfOk result (λ found. option_map T.tree found ≡ option_and_then (λ t. read T.KIND (flattened store.now t)) (value_at self.old place)) }
        ensures ok { OnOk result (self.new ≡ removed_at place self.old) }
        ensures err { OnErr result (self.new ≡ self.old) }
        ensures unread { option_and_then (λ t. read T.KIND (flattened store.now t)) (value_at self.old place) ≡ None → IsOk result }
        ensures own { IfSome (value_at self.old place) (λ t. cell_of t ≡ None) → is_type T.KIND type_id.String ≡ false → IsOk result }
        ensures free { IfSome (value_at self.old place) (λ t. TakesNoMemory (flattened store.now t)) → is_type T.KIND type_id.String ≡ false → IsOk result }
    {
        let Some(i) = place else {
            return Ok(None);
        };
        let value = self.lift(i);
        match cast_or_give_back(self.alloc, value, store) {
            Ok(found) => {
                self.drop_at(i);
                Ok(found)
            }
            Err(back) => {
                self.put(i, back);
                Err(AllocError)
            }
        }
    }
}

impl Scope {
    /// Appends an entry. The text of the name is copied.
    /// Errors: an allocation fails; the scope is unchanged, and the value is dropped.
    /// Cost: that of `push_entry`, and the length of the name.
    /// rhai: `Scope::push`.
    pub fn push<T: Variant>(&mut self, name: &str, value: T) -> Result<(), AllocError>
        ensures ok { OnOk result (self.new ≡ pushed ReadWrite (chars name.now) (T.tree value) self.old) }
        ensures err { OnErr result (self.new ≡ self.old) }
    {
        let value = made(self.alloc, value)?;
        self.push_named(name, AccessMode::ReadWrite, value)
    }

    /// Appends a constant.
    /// Errors: an allocation fails; the scope is unchanged, and the value is dropped.
    /// Cost: that of `push`.
    /// rhai: `Scope::push_constant`.
    pub fn push_constant<T: Variant>(&mut self, name: &str, value: T) -> Result<(), AllocError>
        ensures ok { OnOk result (self.new ≡ pushed ReadOnly (chars name.now) (T.tree value) self.old) }
        ensures err { OnErr result (self.new ≡ self.old) }
    {
        let value = made(self.alloc, value)?;
        self.push_named(name, AccessMode::ReadOnly, value)
    }

    /// Replaces the value of the last entry of a name, without painting, unless that entry is a
    /// constant by its own mode. In that case, or if the name has no entry, appends an entry. No
    /// cell is written.
    /// Errors: an allocation fails; the scope is unchanged, and the value is dropped.
    /// Cost: that of `search`; for a new entry that of `push`.
    /// rhai: `Scope::set_or_push`.
    pub fn set_or_push<T: Variant>(&mut self, name: &str, value: T) -> Result<(), AllocError>
        ensures free { is_type T.KIND type_id.String ≡ false → is_some (writable_position (chars name.now) self.old) ≡ true → IsOk result }
        ensures ok { OnOk result (self.new ≡ set_or_pushed (writable_position (chars name.now) self.old) (chars name.now) (T.tree value) self.old) }
        ensures err { OnErr result (self.new ≡ self.old) }
    {
        let value = made(self.alloc, value)?;
        let place = self.writable(name);
        self.set_at(place, name, value)
    }

    /// Replaces the value of the last entry of a name, without painting; if the name has no entry,
    /// appends one. No cell is written.
    /// Errors: an allocation fails; the scope is unchanged, and the value is dropped.
    /// Cost: that of `search`; for a new entry that of `push`.
    /// rhai: `Scope::set_value`, which panics on a constant.
    pub fn set_value<T: Variant>(&mut self, name: &str, value: T) -> Result<(), AllocError>
        requires { IfSome (last_entry (chars name.now) self.old) (λ e. is_constant_entry e ≡ false) }
        ensures free { is_type T.KIND type_id.String ≡ false → is_some (last_position (chars name.now) self.old) ≡ true → IsOk result }
        ensures ok { OnOk result (self.new ≡ set_or_pushed (last_position (chars name.now) self.old) (chars name.now) (T.tree value) self.old) }
        ensures err { OnErr result (self.new ≡ self.old) }
    {
        let value = made(self.alloc, value)?;
        let place = self.search(name);
        self.set_at(place, name, value)
    }

    fn set_at(&mut self, place: Option<usize>, name: &str, value: Dynamic) -> Result<(), AllocError>
        requires { IfSome place (λ i. i < length self.old) }
        ensures free { is_some place ≡ true → IsOk result }
        ensures ok { OnOk result (self.new ≡ set_or_pushed place (chars name.now) value self.old) }
        ensures err { OnErr result (self.new ≡ self.old) }
    {
        match place {
            Some(i) => {
                self.put(i, value);
                Ok(())
            }
            None => self.push_named(name, AccessMode::ReadWrite, value),
        }
    }

    /// Copies, as this type, the flat value of the last entry of a name, if it is of the type.
    /// Errors: an allocation fails, for the copy or for a `String`.
    /// Cost: that of `search`, and that of `Dynamic::flatten_clone`.
    /// rhai: `Scope::get_value`.
    pub fn get_value<T: Variant>(&self, name: &str, store: &Store) -> Result<Option<T>, AllocError>
        ensures unread { option_and_then (λ t. read T.KIND (flat store.now t)) (value_named (chars name.now) self.now) ≡ None → IsOk result }
        ensures free { IfSome (value_named (chars name.now) self.now) (λ t. TakesNoMemory (flat store.now t)) → is_type T.KIND type_id.String ≡ false → IsOk result }
        ensures value { IfOk result (λ found. option_map T.tree found ≡ option_and_then (λ t. read T.KIND (flat store.now t)) (value_named (chars name.now) self.now)) }
    {
        match self.get(name) {
            Some(value) => read_flat(self.alloc, value, store),
            None => Ok(None),
        }
    }

    /// Borrows, as this type, the own value of the last entry of a name, if it is of the type. No
    /// value has a `String`.
    /// Cost: that of `search`.
    /// rhai: `Scope::get_value_ref`, which panics on a shared value.
    pub fn get_value_ref<T: Variant>(&self, name: &str) -> Option<&T>
        requires { IfSome (value_named (chars name.now) self.now) (λ t. cell_of t ≡ None) }
        ensures { option_map (λ x. T.tree x.now) result ≡ option_and_then (viewed T.KIND) (value_named (chars name.now) self.now) }
    {
        match self.get(name) {
            Some(value) => T::view(value),
            None => None,
        }
    }

    /// Borrows, as this type, the own value of the last entry of a name mutably, even of a
    /// constant. A write replaces the content of the value, and keeps tag and mode; for `Dynamic`
    /// it replaces the whole value.
    /// Cost: that of `search`.
    /// rhai: `Scope::get_value_mut`, which panics on a shared value.
    pub fn get_value_mut<T: Variant>(&mut self, name: &str) -> Option<&mut T>
        requires { IfSome (value_named (chars name.now) self.old) (λ t. cell_of t ≡ None) }
        ensures* writes_back { sem 𝓛 (LendsIf scope_type.the_row T.row self.entry result (λ w. changed_named (written_entry T.KIND (T.tree w)) (chars name.now) self.old) self.old) }
        ensures value { option_map (λ x. T.tree x.now) result ≡ option_and_then (viewed T.KIND) (value_named (chars name.now) self.old) }
    {
        match self.last_mut(name) {
            Some(value) => T::view_mut(value),
            None => None,
        }
    }

    /// Removes the last entry of a name with its aliases, and returns its flat value as this type.
    /// The entry is removed even if the result is `None`.
    /// Errors: an allocation fails, for a copy out of a cell or for a `String`; the entry is kept.
    /// Cost: that of `search`, and the number of entries behind it.
    /// rhai: `Scope::remove`.
    pub fn remove<T: Variant>(&mut self, name: &str, store: &Store) -> Result<Option<T>, AllocError>
        ensures missing { last_position (chars name.now) self.old ≡ None → IsOk result }
        ensures found { IfOk result (λ found. option_map T.tree found ≡ option_and_then (λ t. read T.KIND (flattened store.now t)) (value_named (chars name.now) self.old)) }
        ensures ok { OnOk result (self.new ≡ removed_at (last_position (chars name.now) self.old) self.old) }
        ensures err { OnErr result (self.new ≡ self.old) }
        ensures unread { option_and_then (λ t. read T.KIND (flattened store.now t)) (value_named (chars name.now) self.old) ≡ None → IsOk result }
        ensures own { IfSome (value_named (chars name.now) self.old) (λ t. cell_of t ≡ None) → is_type T.KIND type_id.String ≡ false → IsOk result }
        ensures free { IfSome (value_named (chars name.now) self.old) (λ t. TakesNoMemory (flattened store.now t)) → is_type T.KIND type_id.String ≡ false → IsOk result }
    {
        let place = self.search(name);
        self.take_at(place, store)
    }
}
