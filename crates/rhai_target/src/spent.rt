//! Consuming targets: the result, and beside it the released reference, whose value is unchanged.
ghost use Rattle.std.specs.Prelude.{◌≡◌, IfOk, IfErr, IsOk, MatchOption, OnOk, OnErr};
ghost use Rattle.rhai_value.specs.Tree.{TakesNoMemory};
ghost use Rattle.rhai_target.specs.Spent.{source_of, kept_on_err, kept_in, let_go};
ghost use Rattle.rhai_target.specs.Target.{mark_in, IsMarkedIn, unmarked_from, taken, owned, reference_in};

use crate::target::Target;
use rhai_value::{Dynamic, Store};
use std::alloc::Global;

/// The reference of a target; clears a mark.
#[inline(always)]
pub(crate) fn source_out<'a>(target: Target<'a>, store: &mut Store) -> Option<&'a mut Dynamic>
    requires { IsMarkedIn store.old target }
    ensures source { result ≡ source_of target.entry }
    ensures store { store.new ≡ unmarked_from (mark_in target.entry) store.old }
{
    match target {
        Target::RefMut(r) => Some(r),
        Target::SharedValue {
            token,
            shared_value: _holder,
        } => {
            store.release(token);
            None
        }
        Target::TempValue(_value) => None,
        Target::Bit {
            source,
            value: _value,
            bit: _,
        }
        | Target::BitField {
            source,
            value: _value,
            mask: _,
            shift: _,
        }
        | Target::BlobByte {
            source,
            value: _value,
            index: _,
        }
        | Target::StringChar {
            source,
            value: _value,
            index: _,
        }
        | Target::StringSlice {
            source,
            value: _value,
            start: _,
            end: _,
            exclusive: _,
        } => Some(source),
    }
}

/// The reference that a target is, and the one to the source of a part; clears a mark.
#[inline(always)]
pub(crate) fn reference_out<'a>(
    target: Target<'a>,
    store: &mut Store,
) -> (Option<&'a mut Dynamic>, Option<&'a mut Dynamic>)
    requires { IsMarkedIn store.old target }
    ensures kept { result.0 ≡ reference_in target.entry }
    ensures gone { result.1 ≡ let_go (source_of target.entry) result.0 }
    ensures store { store.new ≡ unmarked_from (mark_in target.entry) store.old }
{
    match target {
        Target::RefMut(r) => (Some(r), None),
        Target::SharedValue { .. }
        | Target::TempValue(_)
        | Target::Bit { .. }
        | Target::BitField { .. }
        | Target::BlobByte { .. }
        | Target::StringChar { .. }
        | Target::StringSlice { .. } => (None, source_out(target, store)),
    }
}

/// The result of `Target::take_or_clone`, and the reference that it releases.
#[inline(always)]
pub(crate) fn value_out<'a>(
    target: Target<'a>,
    alloc: Global,
    store: &mut Store,
) -> (Result<Dynamic, Target<'a>>, Option<&'a mut Dynamic>)
    requires { IsMarkedIn store.old target }
    ensures ok { IfOk result.0 (λ v. v ≡ taken target.entry) }
    ensures store { OnOk result.0 (store.new ≡ unmarked_from (mark_in target.entry) store.old) }
    ensures err { IfErr result.0 (λ t. t ≡ target.entry) }
    ensures stays { OnErr result.0 (store.new ≡ store.old) }
    ensures free { MatchOption (reference_in target.entry) (IsOk result.0) (λ r. TakesNoMemory r.now → IsOk result.0) }
    ensures gone { result.1 ≡ let_go (source_of target.entry) (kept_on_err result.0) }
{
    match target {
        Target::RefMut(r) => match r.copy(alloc) {
            Ok(copy) => (Ok(copy), Some(r)),
            Err(_) => (Err(Target::RefMut(r)), None),
        },
        Target::SharedValue {
            token,
            shared_value,
        } => {
            store.release(token);
            (Ok(shared_value), None)
        }
        Target::TempValue(value) => (Ok(value), None),
        Target::Bit {
            source,
            value,
            bit: _,
        }
        | Target::BitField {
            source,
            value,
            mask: _,
            shift: _,
        }
        | Target::BlobByte {
            source,
            value,
            index: _,
        }
        | Target::StringChar {
            source,
            value,
            index: _,
        }
        | Target::StringSlice {
            source,
            value,
            start: _,
            end: _,
            exclusive: _,
        } => (Ok(value), Some(source)),
    }
}

/// The result of `Target::into_owned`, and the reference that it releases.
#[inline(always)]
pub(crate) fn owned_out<'a>(
    target: Target<'a>,
    alloc: Global,
    store: &mut Store,
) -> (Result<Target<'a>, Target<'a>>, Option<&'a mut Dynamic>)
    requires { IsMarkedIn store.old target }
    ensures ok { IfOk result.0 (λ t. t ≡ owned target.entry) }
    ensures store { OnOk result.0 (store.new ≡ unmarked_from (mark_in target.entry) store.old) }
    ensures err { IfErr result.0 (λ t. t ≡ target.entry) }
    ensures stays { OnErr result.0 (store.new ≡ store.old) }
    ensures free { MatchOption (reference_in target.entry) (IsOk result.0) (λ r. TakesNoMemory r.now → IsOk result.0) }
    ensures gone { result.1 ≡ let_go (source_of target.entry) (kept_in result.0) }
{
    match target {
        Target::RefMut(_) | Target::SharedValue { .. } => {
            let (value, source) = value_out(target, alloc, store);
            match value {
                Ok(value) => (Ok(Target::TempValue(value)), source),
                Err(target) => (Err(target), source),
            }
        }
        Target::TempValue(_)
        | Target::Bit { .. }
        | Target::BitField { .. }
        | Target::BlobByte { .. }
        | Target::StringChar { .. }
        | Target::StringSlice { .. } => (Ok(target), None),
    }
}
