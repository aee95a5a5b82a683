//! Parts of values: Rust types, each the content of one constructor.
ghost use Rattle.std.specs.Prelude.{◌≡◌, [], true, Option, Some, None, option_map, is_some, IfOk, IfErr, IsOk, IsSome, OnOk};
ghost use Rattle.std.specs.Borrow.{sem, Lends, LendsIf, LendsIfOk};
ghost use Rattle.rhai_value.specs.contracts.value.dynamic.Dynamic as dynamic_type;
ghost use Rattle.rhai_value.specs.declared.value.type_id.TypeId.{TypeId};
ghost use Rattle.rhai_value.specs.End.{end, end_type, held_part, site_of, value_after, store_after, end_name};
ghost use Rattle.rhai_value.specs.Parts.{with_content, with_part};
ghost use Rattle.rhai_value.specs.Tree.{Tree, Content, TakesNoMemory, made, copy_content};
ghost use Rattle.rhai_value.specs.Types.{is_content_type, typed_content};
ghost use Rattle.rhai_value.specs.Writes.{written, in_store_row};

use crate::cells::chain::{Near, Site};
use crate::cells::store::Store;
use crate::parts::in_store::InStore;
use crate::value::dynamic::Dynamic;
use crate::value::type_id::TypeId;
use std::alloc::{AllocError, Global};
use std::mem;

/// A Rust type that is the content of one constructor.
pub trait Part: Sized + Drop {
    /// The type of the values that have such a part.
    const KIND: TypeId;

    ghost KIND: { TypeId };

    // What contracts see of a part.
    ghost Meaning: { Type 0 };

    ghost meaning: { Self → Meaning };

    // The content made from a part.
    ghost content: { Meaning → Content };

    // The part of a value.
    ghost part_of: { Tree → Option Meaning };

    /// Borrows the value's own part, if it is of this type.
    fn own(value: &Dynamic) -> Option<&Self>
        ensures { option_map (λ r. meaning r.now) result ≡ part_of value.now };

    /// Borrows the value's own part mutably.
    fn own_mut(value: &mut Dynamic) -> Option<&mut Self>
        ensures* writes_back { sem 𝓛 (LendsIf dynamic_type.the_row Self.row value.entry result (λ w. with_content (content (meaning w)) value.old) value.old) }
        ensures value { option_map (λ r. meaning r.now) result ≡ part_of value.old };

    /// Makes the value with this content, tag 0 and mode ReadWrite.
    fn make(self) -> Dynamic
        ensures { result ≡ made (content (meaning self)) };

    /// Moves the value's own part out of it.
    /// Errors: the value itself, if it is of another type.
    fn take_out(value: Dynamic) -> Result<Self, Dynamic>
        ensures ok { IfOk result (λ x. part_of value ≡ Some (meaning x)) }
        ensures err { IfErr result (λ back. (back ≡ value) × (part_of value ≡ None)) };

    /// Copies the content.
    /// Errors: the allocation of the copy fails.
    /// Cost: that of `Dynamic::copy`.
    fn try_clone(&self, alloc: Global) -> Result<Self, AllocError>
        ensures copied { IfOk result (λ x. content (meaning x) ≡ copy_content (content (meaning self.now))) }
        ensures free { TakesNoMemory (made (content (meaning self.now))) → IsOk result };

    // The type has a constructor.
    ghost constructs: { is_content_type KIND ≡ true };

    // A value made from a part has it.
    ghost made_has: { (x : Self) → part_of (made (content (meaning x))) ≡ Some (meaning x) };

    // A value has a part exactly if it is of the type, and then the part is its content.
    ghost reads: { (t : Tree) → option_map content (part_of t) ≡ typed_content KIND t };
}

/// What the value itself has or holds, by type.
impl Dynamic {
    /// Borrows the held part, if it is of this type. The value's own part is found without
    /// following holders.
    /// Cost: that of `Dynamic::held`; no memory.
    #[inline(always)]
    pub fn held_part<'s, T: Part>(&'s self, store: &'s Store) -> Option<&'s T>
        ensures { option_map (λ r. T.meaning r.now) result ≡ held_part T.part_of (end store.now [] self.now) }
    {
        if let Some(part) = T::own(self) {
            return Some(part);
        }
        match self.near(store) {
            Near::Here => None,
            Near::InCell(_, content) => match T::own(content) {
                Some(part) => Some(part),
                None => match content.cell() {
                    None => None,
                    Some(_) => T::own(self.held_far(store)?),
                },
            },
            Near::Barred => None,
        }
    }

    /// Borrows the held part, which must be of this type.
    /// Cost: that of `Dynamic::held`; no memory.
    #[inline(always)]
    pub fn known_part<'s, T: Part>(&'s self, store: &'s Store) -> &'s T
        requires { is_some (held_part T.part_of (end store.now [] self.now)) ≡ true }
        ensures { held_part T.part_of (end store.now [] self.now) ≡ Some (T.meaning result.now) }
    {
        // The `requires` says which values have the part; no type can, since the end of a chain
        // depends on the store's content.
        self.held_part::<T>(store).unwrap()
    }

    /// Borrows the held part, if it is of this type.
    /// Errors: the name of the held type.
    /// Cost: that of `Dynamic::held`; no memory.
    #[inline(always)]
    pub fn as_part<'s, T: Part>(&'s self, store: &'s Store) -> Result<&'s T, &'static str>
        ensures ok { IfOk result (λ v. held_part T.part_of (end store.now [] self.now) ≡ Some (T.meaning v.now)) }
        ensures err { IfErr result (λ name. (held_part T.part_of (end store.now [] self.now) ≡ None)
            × (name.now ≡ end_name (end store.now [] self.now))) }
    {
        match self.held_part::<T>(store) {
            Some(part) => Ok(part),
            None => Err(self.held_name(store)),
        }
    }

    /// Borrows the held part mutably, if it is of this type.
    ///
    /// One call of `lent_part_mut`, whose contract gives value and store after the write. Both
    /// calls exist, since an automatic proof can't call a method of the value with a clause on two
    /// sources of a borrow; such a proof uses `InStore::part_mut`, which borrows from the pair.
    /// Errors: the name of the held type.
    /// Cost: that of `Dynamic::held`; no memory.
    #[inline(always)]
    pub fn as_part_mut<'s, T: Part>(
        &'s mut self,
        store: &'s mut Store,
    ) -> Result<&'s mut T, &'static str>
        ensures ok { IfOk result (λ v. held_part T.part_of (end store.old [] self.old) ≡ Some (T.meaning v.now)) }
        ensures err { IfErr result (λ name. (held_part T.part_of (end store.old [] self.old) ≡ None)
            × (name.now ≡ end_name (end store.old [] self.old))) }
    {
        let is_own = T::own(self).is_some();
        Dynamic::lent_part_mut::<T>(is_own, self, store)
    }

    /// Replaces the held part if that is of this type, keeps tag and mode, and returns the old
    /// part.
    /// Errors: the new part, if another type is held; nothing changes.
    /// Cost: that of `Dynamic::held`; no memory.
    #[inline(always)]
    pub fn put_part<T: Part>(&mut self, store: &mut Store, part: T) -> Result<T, T>
        ensures ok { IfOk result (λ old. held_part T.part_of (end store.old [] self.old) ≡ Some (T.meaning old)) }
        ensures own { self.new ≡ value_after (with_part T.part_of (T.content (T.meaning part))) (end store.old [] self.old) self.old }
        ensures store { store.new ≡ store_after (with_part T.part_of (T.content (T.meaning part))) (end store.old [] self.old) store.old }
        ensures err { IfErr result (λ back. (back ≡ part) × (self.new ≡ self.old) × (store.new ≡ store.old) × (held_part T.part_of (end store.old [] self.old) ≡ None)) }
    {
        match self.put_own_part(part) {
            Ok(old) => Ok(old),
            Err(part) => match self.put_near_part(store, part) {
                Ok(old) => Ok(old),
                Err(part) => self.put_held_part(store, part),
            },
        }
    }

    /// The same for the value's own part.
    #[inline(always)]
    fn put_own_part<T: Part>(&mut self, part: T) -> Result<T, T>
        ensures ok { IfOk result (λ old. (T.part_of self.old ≡ Some (T.meaning old)) × (self.new ≡ with_content (T.content (T.meaning part)) self.old)) }
        ensures err { IfErr result (λ back. (back ≡ part) × (self.new ≡ self.old)) }
    {
        match T::own_mut(self) {
            Some(own) => Ok(mem::replace(own, part)),
            None => Err(part),
        }
    }

    /// The same for a holder whose own cell has such a part.
    #[inline(always)]
    fn put_near_part<T: Part>(&self, store: &mut Store, part: T) -> Result<T, T>
        ensures ok { IfOk result (λ old. held_part T.part_of (end store.old [] self.now) ≡ Some (T.meaning old)) }
        ensures own { OnOk result (self.now ≡ value_after (with_part T.part_of (T.content (T.meaning part))) (end store.old [] self.now) self.now) }
        ensures store { OnOk result (store.new ≡ store_after (with_part T.part_of (T.content (T.meaning part))) (end store.old [] self.now) store.old) }
        ensures err { IfErr result (λ back. (back ≡ part) × (store.new ≡ store.old)) }
    {
        match self.first_site(store) {
            None | Some(Site::Here) => Err(part),
            Some(Site::InCell(index)) => match store.content_mut(index).put_own_part(part) {
                Ok(old) => Ok(old),
                Err(part) => Err(part),
            },
        }
    }

    /// The same for any value, in a separate function, so that writes to nearby parts stay short.
    #[inline(never)]
    fn put_held_part<T: Part>(&mut self, store: &mut Store, part: T) -> Result<T, T>
        ensures ok { IfOk result (λ old. held_part T.part_of (end store.old [] self.old) ≡ Some (T.meaning old)) }
        ensures own { self.new ≡ value_after (with_part T.part_of (T.content (T.meaning part))) (end store.old [] self.old) self.old }
        ensures store { store.new ≡ store_after (with_part T.part_of (T.content (T.meaning part))) (end store.old [] self.old) store.old }
        ensures err { IfErr result (λ back. (back ≡ part) × (self.new ≡ self.old) × (store.new ≡ store.old) × (held_part T.part_of (end store.old [] self.old) ≡ None)) }
    {
        let site = self.held_site(store);
        let mut place = InStore { value: self, store };
        match place.part_at_mut::<T>(site) {
            Some(held) => Ok(mem::replace(held, part)),
            None => Err(part),
        }
    }
}

/// Mutable borrows of a held part by type.
impl<'a> InStore<'a> {
    /// Borrows the held part mutably, if it is of this type. The value's own part is found without
    /// following holders.
    /// Errors: the name of the held type.
    /// Cost: that of `Dynamic::held`; no memory.
    #[inline(always)]
    pub fn part_mut<T: Part>(&mut self) -> Result<&mut T, &'static str>
        ensures* writes_back { sem 𝓛 (LendsIfOk in_store_row T.row self.entry result (λ w. written self.old (with_content (T.content (T.meaning w)))) self.old) }
        ensures ok { IfOk result (λ v. held_part T.part_of (end self.old.store.now [] self.old.value.now) ≡ Some (T.meaning v.now)) }
        ensures err { IfErr result (λ name. (held_part T.part_of (end self.old.store.now [] self.old.value.now) ≡ None)
            × (name.now ≡ end_name (end self.old.store.now [] self.old.value.now))) }
    {
        let (site, kind) = site_with_part::<T>(self.value, self.store);
        match self.part_at_mut::<T>(site) {
            Some(part) => Ok(part),
            None => Err(kind.name()),
        }
    }

    /// Borrows the held part, which must be of this type, mutably.
    /// Cost: that of `Dynamic::held`; no memory.
    #[inline(always)]
    pub fn held_part_mut<T: Part>(&mut self) -> &mut T
        requires { is_some (held_part T.part_of (end self.old.store.now [] self.old.value.now)) ≡ true }
        ensures* writes_back { sem 𝓛 (Lends in_store_row T.row self.entry result (λ w. written self.old (with_content (T.content (T.meaning w))))) }
        ensures value { held_part T.part_of (end self.old.store.now [] self.old.value.now) ≡ Some (T.meaning result.now) }
    {
        match self.part_mut::<T>() {
            Ok(part) => part,
            // The end of a chain depends on the store's content.
            Err(_) => unreachable!(),
        }
    }

    #[inline(always)]
    fn part_at_mut<T: Part>(&mut self, site: Option<Site>) -> Option<&mut T>
        requires { site ≡ site_of (end self.old.store.now [] self.old.value.now) }
        ensures* writes_back { sem 𝓛 (LendsIf in_store_row T.row self.entry result (λ w. written self.old (with_content (T.content (T.meaning w)))) self.old) }
        ensures value { option_map (λ v. T.meaning v.now) result ≡ held_part T.part_of (end self.old.store.now [] self.old.value.now) }
    {
        match T::own_mut(self.held_at_mut(site)?) {
            Some(part) => Some(part),
            None => None,
        }
    }
}

/// The site and the type of the held value. If the value itself has such a part, no chain is
/// followed, so such writes stay short.
#[inline(always)]
fn site_with_part<T: Part>(value: &Dynamic, store: &Store) -> (Option<Site>, TypeId)
    ensures site { result.0 ≡ site_of (end store.now [] value.now) }
    ensures kind { result.1 ≡ end_type (end store.now [] value.now) }
{
    match T::own(value) {
        Some(_) => (Some(Site::Here), T::KIND),
        None => far_site(value, store),
    }
}

/// The site and the type, found along the chain.
#[inline(never)]
fn far_site(value: &Dynamic, store: &Store) -> (Option<Site>, TypeId)
    ensures site { result.0 ≡ site_of (end store.now [] value.now) }
    ensures kind { result.1 ≡ end_type (end store.now [] value.now) }
{
    value.held_site_and_type(store)
}
