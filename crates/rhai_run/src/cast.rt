//! Casts to a type given at run time.
ghost use Rattle.std.specs.Prelude.{◌≡◌, [], true, Some, is_some, IfOk, OnErr};
ghost use Rattle.rhai_value.specs.declared.value.type_id.TypeId.TheVariants as type_id;
ghost use Rattle.rhai_value.specs.End.{end, flat, flattened};
ghost use Rattle.rhai_value.specs.Tree.{content_of, made};
ghost use Rattle.rhai_value.specs.Types.{is_type};
ghost use Rattle.rhai_variant.specs.Reads.{held_type, read};
ghost use Rattle.rhai_cast.specs.Casts.{is_castable};
ghost use Rattle.rhai_run.specs.Ask.{is_value_of};
ghost use Rattle.rhai_run.specs.Entries.{read_as};

use rhai_cast::DynamicCast;
use rhai_text::ImmutableString;
use rhai_value::{
    AccessMode, Array, Blob, Dynamic, ExclusiveRange, FnPtr, INT, InclusiveRange, Map, Store,
    TypeId,
};
use rhai_variant::Variant;
use std::alloc::{AllocError, Global};

/// The type of the values that are read as this type.
fn held_type_of(kind: TypeId) -> TypeId
    ensures { result ≡ held_type kind }
{
    if kind == TypeId::String {
        TypeId::ImmutableString
    } else {
        kind
    }
}

/// Whether a value is of a type.
pub(crate) fn is_value_of(value: &Dynamic, store: &Store, kind: TypeId) -> bool
    ensures { result ≡ is_value_of kind value.now (end store.now [] value.now) }
{
    let wanted = if value.is_shared() {
        kind
    } else {
        held_type_of(kind)
    };
    kind != TypeId::Shared && value.type_id(store) == wanted
}

/// Whether values of a type can be cast to this one.
#[tactic(auto, using(crate::proofs::Casts::castable_other))]
fn holds_castable(value: &Dynamic, store: &Store, kind: TypeId) -> bool
    ensures { result ≡ is_castable kind (end store.now [] value.now) }
{
    kind == TypeId::Dynamic || held_type_of(kind) == value.type_id(store)
}

/// A flat copy of a value as a type to which it can be cast.
fn cast_as<T: Variant>(
    value: &Dynamic,
    alloc: Global,
    store: &Store,
) -> Result<Option<Dynamic>, AllocError>
    requires { is_castable T.KIND (end store.now [] value.now) ≡ true }
    ensures { IfOk result (λ o. o ≡ read T.KIND (flat store.now value.now)) }
{
    let x = value.clone_cast::<T>(alloc, store)?;
    match Dynamic::of(alloc, x) {
        Ok(value) => Ok(Some(value)),
        Err(_) => Err(AllocError),
    }
}

/// A flat copy of a value as a type given by its `TypeId`, if it can be cast to that.
/// Errors: the allocation of the copy fails.
#[tactic(auto, using(crate::proofs::Casts::read_by_type, crate::proofs::Casts::uncastable))]
pub(crate) fn cast_to(
    value: &Dynamic,
    alloc: Global,
    store: &Store,
    kind: TypeId,
) -> Result<Option<Dynamic>, AllocError>
    ensures value { IfOk result (λ o. o ≡ read_as kind (flat store.now value.now)) }
    ensures err { OnErr result (is_some (read_as kind (flat store.now value.now)) ≡ true) }
{
    if !holds_castable(value, store, kind) {
        return Ok(None);
    }
    match kind {
        TypeId::Unit => cast_as::<()>(value, alloc, store),
        TypeId::Bool => cast_as::<bool>(value, alloc, store),
        TypeId::Char => cast_as::<char>(value, alloc, store),
        TypeId::Int => cast_as::<INT>(value, alloc, store),
        TypeId::U8 => cast_as::<u8>(value, alloc, store),
        TypeId::U16 => cast_as::<u16>(value, alloc, store),
        TypeId::U32 => cast_as::<u32>(value, alloc, store),
        TypeId::U64 => cast_as::<u64>(value, alloc, store),
        TypeId::U128 => cast_as::<u128>(value, alloc, store),
        TypeId::I8 => cast_as::<i8>(value, alloc, store),
        TypeId::I16 => cast_as::<i16>(value, alloc, store),
        TypeId::I32 => cast_as::<i32>(value, alloc, store),
        TypeId::I128 => cast_as::<i128>(value, alloc, store),
        TypeId::String => cast_as::<String>(value, alloc, store),
        TypeId::ImmutableString => cast_as::<ImmutableString>(value, alloc, store),
        TypeId::Array => cast_as::<Array>(value, alloc, store),
        TypeId::Blob => cast_as::<Blob>(value, alloc, store),
        TypeId::Map => cast_as::<Map>(value, alloc, store),
        TypeId::FnPtr => cast_as::<FnPtr>(value, alloc, store),
        TypeId::ExclusiveRange => cast_as::<ExclusiveRange>(value, alloc, store),
        TypeId::InclusiveRange => cast_as::<InclusiveRange>(value, alloc, store),
        TypeId::Dynamic => cast_as::<Dynamic>(value, alloc, store),
        // No value can be cast to the type of a stuck or closed chain.
        TypeId::Shared => Ok(None),
    }
}

/// Whether the flat value can be cast to a type.
#[tactic(auto, using(crate::proofs::Casts::movable))]
pub(crate) fn can_move(value: &Dynamic, store: &Store, kind: TypeId) -> bool
    ensures { result ≡ is_some (read_as kind (flattened store.now value.now)) }
{
    kind != TypeId::Shared && holds_castable(value, store, kind)
}

/// The value with tag 0 and mode ReadWrite; the values inside are unchanged.
fn made_anew(value: Dynamic) -> Dynamic
    ensures { result ≡ made (content_of value) }
{
    value.labelled(0, AccessMode::ReadWrite)
}

/// Casts a value to a type to which it can be cast.
#[tactic(auto, using(crate::proofs::Casts::read_content))]
pub(crate) fn moved_as(value: Dynamic, kind: TypeId) -> Dynamic
    requires { is_some (read_as kind value) ≡ true }
    ensures { Some result ≡ read_as kind value }
{
    if kind == TypeId::Dynamic {
        value
    } else {
        made_anew(value)
    }
}
