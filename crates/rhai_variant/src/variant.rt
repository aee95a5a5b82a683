//! The types to and from which script values convert.
ghost use Rattle.std.specs.Prelude.{◌≡◌, refl, true, false, Some, None, option_map, IfOk, IfErr, IsOk, string_bytes};
ghost use Rattle.std.specs.Str.{chars};
ghost use Rattle.std.specs.Borrow.{sem, LendsIf};
ghost use Rattle.rhai_value.specs.contracts.value.dynamic.Dynamic as dynamic_type;
ghost use Rattle.rhai_value.specs.declared.value.type_id.TypeId.{TypeId};
ghost use Rattle.rhai_value.specs.declared.value.type_id.TypeId.TheVariants as type_id;
ghost use Rattle.rhai_value.specs.Tree.{Tree, TakesNoMemory, made, fresh, text, copy};
ghost use Rattle.rhai_value.specs.Types.{is_type, type_name};
ghost use Rattle.rhai_variant.specs.Reads.{read, viewed, written_as, made_read, not_shared};
ghost use Rattle.rhai_variant.specs.Refused.{IsRefused};

use crate::cast_error::CastError;
use crate::content::Content;
use rhai_text::ImmutableString;
use rhai_value::{Dynamic, Part, TypeId};
use std::alloc::{AllocError, Global};

/// A type to and from which script values convert: the 22 types of this crate.
///
/// `KIND` determines everything that is read from a value and written to one: the content of the
/// values of that type for most types, a text for `String`, and any value for `Dynamic`. An
/// implementation that reads or makes another constructor than `KIND` names is rejected.
/// rhai: `Variant`, which any type implements.
pub trait Variant: Sized + Drop {
    /// The type itself.
    const KIND: TypeId;

    ghost KIND: { TypeId };

    // The value made from one.
    ghost tree: { Self → Tree };

    /// Makes a value from this one, with tag 0 and mode ReadWrite; a `Dynamic` is returned as it
    /// is.
    /// Errors: a `String` is returned if an allocation fails.
    /// Cost: constant; for a `String` the length of its text, which is copied.
    /// rhai: `Dynamic::from`.
    fn into_dynamic(self, alloc: Global) -> Result<Dynamic, Self>
        ensures ok { IfOk result (λ value. value ≡ tree self) }
        ensures err { IfErr result (λ back. (back ≡ self) × (is_type KIND type_id.String ≡ true)) };

    /// Moves the content read as this type out of the value itself.
    /// Errors: `Mismatch` exactly if the value can't be read as this type, as a holder for all
    /// types but `Dynamic`; `Memory` if copying a text to a `String` fails.
    /// Cost: constant; to a `String` the length of the text, which is copied.
    fn from_dynamic(alloc: Global, value: Dynamic) -> Result<Self, CastError>
        ensures ok { IfOk result (λ x. read KIND value ≡ Some (tree x)) }
        ensures err { IfErr result (λ e. IsRefused KIND e value) };

    /// Borrows the value's own content. No value has a `String`; for `Dynamic`, borrows the value
    /// itself.
    /// Cost: constant; no memory.
    /// rhai: `Variant::as_any`.
    fn view(value: &Dynamic) -> Option<&Self>
        ensures { option_map (λ x. tree x.now) result ≡ viewed KIND value.now };

    /// Borrows the value's own content mutably. A write replaces the content of the value, and
    /// keeps tag and mode; for `Dynamic` it replaces the whole value.
    /// Cost: constant; no memory.
    /// rhai: `Variant::as_any_mut`.
    fn view_mut(value: &mut Dynamic) -> Option<&mut Self>
        ensures* writes_back { sem 𝓛 (LendsIf dynamic_type.the_row Self.row value.entry result (λ w. written_as KIND (tree w) value.old) value.old) }
        ensures value { option_map (λ x. tree x.now) result ≡ viewed KIND value.old };

    /// Makes a duplicate, from which the copy of the value is made.
    /// Errors: an allocation fails.
    /// Cost: that of `Dynamic::copy`; for a `String` the length of its text.
    /// rhai: `Variant::clone_object`.
    fn duplicate(&self, alloc: Global) -> Result<Self, AllocError>
        ensures copied { IfOk result (λ x. tree x ≡ copy (tree self.now)) }
        ensures free { TakesNoMemory (tree self.now) → IsOk result };

    /// Returns the name of the type, as scripts see it.
    /// rhai: `Variant::type_name`, which returns the path of the Rust type.
    final fn type_name() -> &'static str
        ensures { result.now ≡ type_name KIND }
    {
        Self::KIND.name()
    }

    // No type is that of stuck or closed chains.
    ghost looks_into: { is_type KIND type_id.Shared ≡ false };

    // A value made from `x` is read as `x`.
    ghost made_is_read: { (x : Self) → read KIND (tree x) ≡ Some (tree x) };
}

impl<T: Content> Variant for T {
    const KIND: TypeId = <T as Part>::KIND;

    ghost KIND = { T.KIND };

    ghost tree = { λ x. made (T.content (T.meaning x)) };

    fn into_dynamic(self, _alloc: Global) -> Result<Dynamic, T> {
        Ok(self.make())
    }

    fn from_dynamic(_alloc: Global, value: Dynamic) -> Result<T, CastError> {
        match T::take_out(value) {
            Ok(x) => Ok(x),
            Err(back) => Err(CastError::Mismatch(back)),
        }
    }

    fn view(value: &Dynamic) -> Option<&T> {
        T::own(value)
    }

    fn view_mut(value: &mut Dynamic) -> Option<&mut T> {
        T::own_mut(value)
    }

    fn duplicate(&self, alloc: Global) -> Result<T, AllocError> {
        self.try_clone(alloc)
    }

    ghost looks_into = { not_shared T.KIND T.constructs };

    ghost made_is_read = { λ x. made_read T.KIND T.content T.part_of (T.meaning x) T.constructs T.reads (T.made_has x) };
}

impl Variant for String {
    const KIND: TypeId = TypeId::String;

    ghost KIND = { type_id.String };

    ghost tree = { λ s. fresh (text (chars (string_bytes s))) };

    fn into_dynamic(self, alloc: Global) -> Result<Dynamic, String> {
        match Dynamic::from_text(alloc, &self) {
            Ok(value) => Ok(value),
            Err(_) => Err(self),
        }
    }

    fn from_dynamic(alloc: Global, value: Dynamic) -> Result<String, CastError> {
        let copied = match ImmutableString::own(&value) {
            Some(text) => String::from_str(alloc, text.as_str()),
            None => return Err(CastError::Mismatch(value)),
        };
        match copied {
            Ok(x) => Ok(x),
            Err(_) => Err(CastError::Memory(value)),
        }
    }

    fn view(_value: &Dynamic) -> Option<&String> {
        None
    }

    fn view_mut(_value: &mut Dynamic) -> Option<&mut String> {
        None
    }

    fn duplicate(&self, alloc: Global) -> Result<String, AllocError> {
        String::from_str(alloc, self)
    }

    ghost looks_into = { refl };

    ghost made_is_read = { λ s. refl };
}

impl Variant for Dynamic {
    const KIND: TypeId = TypeId::Dynamic;

    ghost KIND = { type_id.Dynamic };

    ghost tree = { λ t. t };

    fn into_dynamic(self, _alloc: Global) -> Result<Dynamic, Dynamic> {
        Ok(self)
    }

    fn from_dynamic(_alloc: Global, value: Dynamic) -> Result<Dynamic, CastError> {
        Ok(value)
    }

    fn view(value: &Dynamic) -> Option<&Dynamic> {
        Some(value)
    }

    fn view_mut(value: &mut Dynamic) -> Option<&mut Dynamic> {
        Some(value)
    }

    fn duplicate(&self, alloc: Global) -> Result<Dynamic, AllocError> {
        self.copy(alloc)
    }

    ghost looks_into = { refl };

    ghost made_is_read = { λ t. refl };
}
