//! Borrowing a target's value, with the state after the write.
ghost use Rattle.std.specs.Prelude.{◌≡◌, true, is_some, option_map, Some};
ghost use Rattle.std.specs.Borrow.{sem, LendsIf};
ghost use Rattle.std.specs.Fn.{FnOnceReturnsAtMut};
ghost use Rattle.rhai_value.specs.Tree.{Tree};
ghost use Rattle.rhai_value.specs.contracts.value.dynamic.Dynamic as dynamic_type;
ghost use Rattle.rhai_value.specs.contracts.cells.store.Store as store_type;
ghost use Rattle.rhai_target.specs.Lent.{LendsTarget, target_row, own_value, marked_value, either_of};
ghost use Rattle.rhai_target.specs.Target.{mark_in, IsMarkedIn, value_in, with_value, put_marked};

use crate::target::Target;
use rhai_value::{Dynamic, Store};

impl<'a> Target<'a> {
    /// Borrows what `as_mut` does. After the write, the target has the written value as its working
    /// value; or, if it has a mark, the store has it in the marked cell. Everything else is
    /// unchanged.
    /// Cost: constant; no memory.
    /// rhai: `AsMut` of `Target`.
    #[inline(always)]
    pub fn lent_mut<'s>(&'s mut self, store: &'s mut Store) -> &'s mut Dynamic
        requires { IsMarkedIn store.old self.old }
        ensures* writes_back { sem 𝓛 (LendsTarget self.entry store.entry result.ghost_name) }
        ensures value { value_in store.old self.old ≡ Some result.now }
    {
        let far = marked_mut(store, self);
        let own = own_value_mut(self);
        one_of(own, far)
    }

    /// Calls a function on what `as_mut` borrows. Afterwards, what the function left there replaces
    /// what it found, and everything else is unchanged.
    /// Cost: that of the function; no memory.
    pub fn with_mut<R, F: FnOnce(&mut Dynamic) -> R + Drop>(&mut self, store: &mut Store, f: F) -> R
        requires marked { IsMarkedIn store.old self.old }
        requires callable { F.IsAlwaysCallable f }
        ensures { (v w : Tree) × (value_in store.old self.old ≡ Some v) × FnOnceReturnsAtMut F.FnOnce f v result w
            × (self.new ≡ with_value w self.old) × (store.new ≡ put_marked (mark_in self.old) w store.old) × IsMarkedIn store.new self.new }
    {
        match self {
            Target::RefMut(r) => f(r),
            Target::SharedValue { token, .. } => f(store.through_mut(token)),
            Target::TempValue(value) => f(value),
            Target::Bit { value, .. } => f(value),
            Target::BitField { value, .. } => f(value),
            Target::BlobByte { value, .. } => f(value),
            Target::StringChar { value, .. } => f(value),
            Target::StringSlice { value, .. } => f(value),
        }
    }
}

/// Borrows the content of the cell that the target has marked mutably.
#[inline(always)]
fn marked_mut<'m>(store: &'m mut Store, target: &mut Target<'_>) -> Option<&'m mut Dynamic>
    requires { IsMarkedIn store.old target.old }
    ensures* writes_back { sem 𝓛 (LendsIf store_type.the_row dynamic_type.the_row store.entry result (λ w. put_marked (mark_in target.old) w store.old) store.old) }
    ensures value { option_map (λ d. d.now) result ≡ marked_value (mark_in target.old) store.old }
    ensures target { target.new ≡ target.old }
{
    match target {
        Target::SharedValue { token, .. } => Some(store.through_mut(token)),
        Target::RefMut(_)
        | Target::TempValue(_)
        | Target::Bit { .. }
        | Target::BitField { .. }
        | Target::BlobByte { .. }
        | Target::StringChar { .. }
        | Target::StringSlice { .. } => None,
    }
}

/// Borrows the target's own working value mutably.
#[inline(always)]
fn own_value_mut<'s>(target: &'s mut Target<'_>) -> Option<&'s mut Dynamic>
    ensures* writes_back { sem 𝓛 (LendsIf target_row dynamic_type.the_row target.entry result (λ w. with_value w target.old) target.old) }
    ensures value { option_map (λ d. d.now) result ≡ own_value target.old }
{
    match target {
        Target::RefMut(r) => Some(r),
        Target::SharedValue { .. } => None,
        Target::TempValue(value) => Some(value),
        Target::Bit { value, .. } => Some(value),
        Target::BitField { value, .. } => Some(value),
        Target::BlobByte { value, .. } => Some(value),
        Target::StringChar { value, .. } => Some(value),
        Target::StringSlice { value, .. } => Some(value),
    }
}

/// The first of two references, or otherwise the second, one of which exists.
#[inline(always)]
fn one_of<'s>(own: Option<&'s mut Dynamic>, far: Option<&'s mut Dynamic>) -> &'s mut Dynamic
    requires { is_some (either_of own far) ≡ true }
    ensures { either_of own.entry far.entry ≡ Some result }
{
    match own {
        Some(value) => value,
        // The kind of the target, which both calls test, ensures that one of the two exists; no
        // type expresses this about two calls.
        None => far.unwrap(),
    }
}
