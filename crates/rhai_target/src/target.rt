//! The target of an assignment: a value, a shared value, a temporary value, or a part of a value.
ghost use Rattle.std.specs.Prelude.{◌≡◌, true, is_some, option_map, option_copied, IfOk, IfErr, IsOk, MatchOption, OnOk, OnErr, Some, None};
ghost use Rattle.std.specs.Borrow.{sem};
ghost use Rattle.rhai_text.specs.declared.error.EvalAltResult.TheVariants.{ErrorDataRace};
ghost use Rattle.rhai_value.specs.End.{first_cell};
ghost use Rattle.rhai_value.specs.Store.{marked_with};
ghost use Rattle.rhai_value.specs.Tree.{cell_of, copy, TakesNoMemory};
ghost use Rattle.rhai_target.specs.declared.target.Target.TheVariants.{TempValue};
ghost use Rattle.rhai_target.specs.Resolved.{IsLeftBy};
ghost use Rattle.rhai_target.specs.Spent.{LeavesSource, kept_on_err, kept_in};
ghost use Rattle.rhai_target.specs.Target.{target_of, mark_in, IsMarkedIn, unmarked_from, source_in, value_in, taken, owned, with_value, put_marked, is_reference, is_temporary, is_shared_target, reference_in};

use crate::resolve::{Marked, mark_cell, resolve, target_from};
use crate::spent::{owned_out, reference_out, source_out, value_out};
use rhai_text::{EvalAltResult, Position};
use rhai_value::{Dynamic, INT, Store, WriteToken};
use std::alloc::Global;

/// The target of an assignment. It must be consumed, since it may have the mark of a cell: the
/// compiler refuses to drop it.
/// rhai: `Target`, which has a guard instead of a mark, and may be dropped.
pub enum Target<'a> {
    /// A value that isn't a holder.
    RefMut(&'a mut Dynamic),
    /// The content of a holder's cell, which is marked meanwhile.
    SharedValue {
        /// Exclusive access to the cell.
        token: WriteToken,
        /// A copy of the holder.
        shared_value: Dynamic,
    },
    /// An owned value; writes to it are seen nowhere else.
    TempValue(Dynamic),
    /// One bit of an int.
    Bit {
        /// The value that holds the int.
        source: &'a mut Dynamic,
        /// The bit, as a boolean.
        value: Dynamic,
        /// The index of the bit, the lowest being 0.
        bit: u8,
    },
    /// Some bits of an int.
    BitField {
        /// The value that holds the int.
        source: &'a mut Dynamic,
        /// The bits, as an int.
        value: Dynamic,
        /// The mask of the bits in the source.
        mask: INT,
        /// The bit of the source that is the value's lowest.
        shift: u8,
    },
    /// One byte of a blob.
    BlobByte {
        /// The value that holds the blob.
        source: &'a mut Dynamic,
        /// The byte, as an int.
        value: Dynamic,
        /// The index of the byte.
        index: usize,
    },
    /// One character of a text.
    StringChar {
        /// The value that holds the text.
        source: &'a mut Dynamic,
        /// The character.
        value: Dynamic,
        /// The index of the character.
        index: usize,
    },
    /// A slice of a text.
    StringSlice {
        /// The value that holds the text.
        source: &'a mut Dynamic,
        /// The value whose printed text is written there.
        value: Dynamic,
        /// The first character of the slice.
        start: usize,
        /// The first character after it, or its last one if the slice is inclusive.
        end: usize,
        /// Whether `end` is excluded.
        exclusive: bool,
    },
}

/// Making targets.
impl<'a> Target<'a> {
    /// Makes a target of this value: the value itself, or the content of a holder's cell, which is
    /// then marked; the holder is unchanged.
    /// Errors: `ErrorDataRace`, at no position and with nothing changed, exactly for a holder of a
    /// cell that is marked or not in the store.
    /// Cost: constant; no memory.
    /// rhai: `TryFrom<&mut Dynamic>` of `Target`.
    pub fn try_from(value: &'a mut Dynamic, store: &mut Store) -> Result<Target<'a>, EvalAltResult>
        ensures* stays { sem 𝓛 (IsLeftBy value.entry result) }
        ensures ok { IfOk result (λ t. target_of store.old value.entry ≡ Some t) }
        ensures err { IfErr result (λ e. (target_of store.old value.entry ≡ None) × (e ≡ ErrorDataRace Position.NONE)) }
        ensures marks { store.new ≡ marked_with (first_cell store.old value.old) store.old }
        ensures marked { IfOk result (λ t. IsMarkedIn store.new t) }
    {
        target_from(resolve(value, store))
    }

    /// Makes a target of the content of a holder's cell, which is then marked; the holder is
    /// unchanged.
    /// Errors: `ErrorDataRace`, at no position and with nothing changed, exactly for a cell that is
    /// marked or not in the store.
    /// Cost: constant; no memory.
    pub fn marked(holder: &Dynamic, store: &mut Store) -> Result<Target<'a>, EvalAltResult>
        requires { is_some (cell_of holder.now) ≡ true }
        ensures ok { IfOk result (λ t. option_map (λ c. Target.SharedValue c (copy holder.now)) (first_cell store.old holder.now) ≡ Some t) }
        ensures err { IfErr result (λ e. (first_cell store.old holder.now ≡ None) × (e ≡ ErrorDataRace Position.NONE)) }
        ensures marks { store.new ≡ marked_with (first_cell store.old holder.now) store.old }
        ensures marked { IfOk result (λ t. IsMarkedIn store.new t) }
    {
        match mark_cell(holder, store) {
            Ok(
                Marked {
                    token,
                    shared_value,
                },
            ) => Ok(Target::SharedValue {
                token,
                shared_value,
            }),
            Err(e) => Err(e),
        }
    }
}

impl<'a> From<Dynamic> for Target<'a> {
    ghost from_gives = { λ d t. t ≡ TempValue d };

    fn from(value: Dynamic) -> Target<'a> {
        Target::TempValue(value)
    }
}

/// The kind of a target.
impl<'a> Target<'a> {
    /// Returns whether it refers to other data: a value, or the content of a cell.
    /// rhai: `Target::is_ref`.
    pub const fn is_ref(&self) -> bool
        ensures { result ≡ is_reference self.now }
    {
        matches!(self, Target::RefMut(_) | Target::SharedValue { .. })
    }

    /// Returns whether it is an owned value.
    /// rhai: `Target::is_temp_value`.
    pub const fn is_temp_value(&self) -> bool
        ensures { result ≡ is_temporary self.now }
    {
        matches!(self, Target::TempValue(_))
    }

    /// Returns whether it is shared: the content of a cell, or a holder.
    /// rhai: `Target::is_shared`.
    pub fn is_shared(&self) -> bool
        ensures { result ≡ is_shared_target self.now }
    {
        match self {
            Target::RefMut(r) => r.is_shared(),
            Target::SharedValue { .. } => true,
            Target::TempValue(value) => value.is_shared(),
            Target::Bit { .. }
            | Target::BitField { .. }
            | Target::BlobByte { .. }
            | Target::StringChar { .. }
            | Target::StringSlice { .. } => false,
        }
    }
}

/// The value of a target.
impl<'a> Target<'a> {
    /// Borrows the value that it refers to; for a part of a value, that value.
    /// Cost: constant; no memory.
    /// rhai: `Target::source`.
    pub fn source<'s>(&'s self, store: &'s Store) -> &'s Dynamic
        requires { IsMarkedIn store.now self.now }
        ensures { source_in store.now self.now ≡ Some result.now }
    {
        match self {
            Target::RefMut(r) => r,
            Target::SharedValue { token, .. } => store.through(token),
            Target::TempValue(value) => value,
            Target::Bit { source, .. }
            | Target::BitField { source, .. }
            | Target::BlobByte { source, .. }
            | Target::StringChar { source, .. }
            | Target::StringSlice { source, .. } => source,
        }
    }

    /// Borrows the value that it refers to; for a part of a value, the working value.
    /// Cost: constant; no memory.
    /// rhai: `AsRef` and `Borrow` of `Target`.
    pub fn as_ref<'s>(&'s self, store: &'s Store) -> &'s Dynamic
        requires { IsMarkedIn store.now self.now }
        ensures { value_in store.now self.now ≡ Some result.now }
    {
        match self {
            Target::RefMut(r) => r,
            Target::SharedValue { token, .. } => store.through(token),
            Target::TempValue(value)
            | Target::Bit { value, .. }
            | Target::BitField { value, .. }
            | Target::BlobByte { value, .. }
            | Target::StringChar { value, .. }
            | Target::StringSlice { value, .. } => value,
        }
    }

    /// Borrows the value that it refers to mutably; for a part of a value, the working value.
    ///
    /// `lent_mut` is the same call, with a clause that gives target and store after the write. Both
    /// exist, since an automatic proof can't make a call with a clause on two sources of a borrow:
    /// such a caller uses this one, or `with_mut` or `put`, whose plain clauses give the state
    /// afterwards.
    /// Cost: constant; no memory.
    /// rhai: `AsMut` and `BorrowMut` of `Target`.
    pub fn as_mut<'s>(&'s mut self, store: &'s mut Store) -> &'s mut Dynamic
        requires { IsMarkedIn store.old self.old }
        ensures { value_in store.old self.old ≡ Some result.now }
    {
        self.lent_mut(store)
    }

    /// Writes a whole value over the one that `as_mut` borrows.
    /// Cost: the drop of the old value; no memory.
    #[tactic(auto, using(crate::proofs::MarkedTexts::mark_outlasts))]
    pub fn put(&mut self, store: &mut Store, new: Dynamic)
        requires { IsMarkedIn store.old self.old }
        ensures own { self.new ≡ with_value new self.old }
        ensures store { store.new ≡ put_marked (mark_in self.old) new store.old }
        ensures marked { IsMarkedIn store.new self.new }
    {
        match self {
            Target::RefMut(r) => write(r, new),
            Target::SharedValue { token, .. } => write(store.through_mut(token), new),
            Target::TempValue(value) => write(value, new),
            Target::Bit { value, .. } => write(value, new),
            Target::BitField { value, .. } => write(value, new),
            Target::BlobByte { value, .. } => write(value, new),
            Target::StringChar { value, .. } => write(value, new),
            Target::StringSlice { value, .. } => write(value, new),
        }
    }
}

/// Replaces one value by another, in a separate function, since the old one is dropped.
fn write(place: &mut Dynamic, new: Dynamic)
    ensures { place.new ≡ new }
{
    *place = new;
}

/// Consuming targets. The value behind the reference that a target is, or behind that to the source
/// of a part, is unchanged, unless its reference is returned.
impl<'a> Target<'a> {
    /// Consumes the target: returns a copy of the value behind a reference, the holder of a shared
    /// value, or the owned value itself; clears a mark.
    /// Errors: the target, with nothing changed, if the allocation of a copy fails.
    /// Cost: that of `Dynamic::copy` for a reference or a part; otherwise constant.
    /// rhai: `Target::take_or_clone`.
    pub fn take_or_clone(self, alloc: Global, store: &mut Store) -> Result<Dynamic, Target<'a>>
        requires { IsMarkedIn store.old self }
        ensures* leaves { sem 𝓛 (LeavesSource self.entry (kept_on_err result)) }
        ensures ok { IfOk result (λ v. v ≡ taken self.entry) }
        ensures store { OnOk result (store.new ≡ unmarked_from (mark_in self.entry) store.old) }
        ensures err { IfErr result (λ t. t ≡ self.entry) }
        ensures stays { OnErr result (store.new ≡ store.old) }
        ensures free { MatchOption (reference_in self.entry) (IsOk result) (λ r. TakesNoMemory r.now → IsOk result) }
    {
        value_out(self, alloc, store).0
    }

    /// Consumes the target, and returns the reference that it is; for any other target `None`, and
    /// clears a mark.
    /// Cost: constant; no memory.
    /// rhai: `Target::take_ref`.
    #[inline(always)]
    pub fn take_ref(self, store: &mut Store) -> Option<&'a mut Dynamic>
        requires { IsMarkedIn store.old self }
        ensures* leaves { sem 𝓛 (LeavesSource self.entry result) }
        ensures which { result ≡ reference_in self.entry }
        ensures store { store.new ≡ unmarked_from (mark_in self.entry) store.old }
    {
        reference_out(self, store).0
    }

    /// Consumes the target; clears a mark.
    /// Cost: constant; no memory.
    #[inline(always)]
    pub fn release(self, store: &mut Store)
        requires { IsMarkedIn store.old self }
        ensures* leaves { sem 𝓛 (LeavesSource self.entry None) }
        ensures store { store.new ≡ unmarked_from (mark_in self.entry) store.old }
    {
        let _source = source_out(self, store);
    }

    /// Turns a reference and a shared value into an owned value, the result of `take_or_clone`, and
    /// clears a mark; any other target is unchanged.
    /// Errors: the target, with nothing changed, if the allocation of a copy fails.
    /// Cost: that of `take_or_clone`.
    /// rhai: `Target::into_owned`.
    pub fn into_owned(self, alloc: Global, store: &mut Store) -> Result<Target<'a>, Target<'a>>
        requires { IsMarkedIn store.old self }
        ensures* leaves { sem 𝓛 (LeavesSource self.entry (kept_in result)) }
        ensures ok { IfOk result (λ t. t ≡ owned self.entry) }
        ensures store { OnOk result (store.new ≡ unmarked_from (mark_in self.entry) store.old) }
        ensures err { IfErr result (λ t. t ≡ self.entry) }
        ensures stays { OnErr result (store.new ≡ store.old) }
        ensures free { MatchOption (reference_in self.entry) (IsOk result) (λ r. TakesNoMemory r.now → IsOk result) }
    {
        owned_out(self, alloc, store).0
    }
}
