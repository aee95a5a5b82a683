//! The parts of values that are a script's own.
ghost use Rattle.std.specs.Prelude.{refl, ℕ, ℤ, Bool, List};
ghost use Rattle.rhai_value.specs.declared.value.type_id.TypeId.TheVariants as type_id;
ghost use Rattle.rhai_value.specs.Kinds.{unit_reads, bool_reads, int_reads, char_reads, text_reads, blob_reads, array_reads, map_reads, function_reads};
ghost use Rattle.rhai_value.specs.Parts.{unit_of, bool_of, int_of, char_of, text_of, blob_of, array_of, map_of, function_of};
ghost use Rattle.rhai_value.specs.Rows.{trees_of, fields_of};
ghost use Rattle.rhai_value.specs.Tree.{Trees, Fields, leaf, branch, unit, bool as boolean, int, char as character, text, blob, array, fields, function};

use crate::map::Map;
use crate::parts::part::Part;
use crate::value::access_mode::AccessMode;
use crate::value::dynamic::Dynamic;
use crate::value::fn_ptr::FnPtr;
use crate::value::type_id::TypeId;
use crate::value::union::{Array, Blob, INT, Union};
use crate::walk::copy::{copied_function, copied_items, copied_map};
use crate::walk::modes::Writable;
use crate::walk::near::NEAR;
use rhai_text::ImmutableString;
use std::alloc::{AllocError, Global};

impl Part for () {
    const KIND: TypeId = TypeId::Unit;

    ghost KIND = { type_id.Unit };

    ghost Meaning = { Unit {0} };

    ghost meaning = { λ x. x };

    ghost content = { λ x. leaf unit };

    ghost part_of = { unit_of };

    fn own(value: &Dynamic) -> Option<&()> {
        match &value.union {
            Union::Unit(_, _, x) => Some(x),
            _ => None,
        }
    }

    fn own_mut(value: &mut Dynamic) -> Option<&mut ()> {
        match &mut value.union {
            Union::Unit(_, _, x) => Some(x),
            _ => None,
        }
    }

    fn make(self) -> Dynamic {
        Dynamic {
            union: Union::Unit(0, AccessMode::ReadWrite, self),
        }
    }

    fn take_out(value: Dynamic) -> Result<(), Dynamic> {
        match value.into_parts() {
            Union::Unit(_, _, x) => Ok(x),
            union => Err(Dynamic { union }),
        }
    }

    fn try_clone(&self, _alloc: Global) -> Result<(), AllocError> {
        Ok(*self)
    }

    ghost constructs = { refl };

    ghost made_has = { λ x. refl };

    ghost reads = { unit_reads };
}

impl Part for bool {
    const KIND: TypeId = TypeId::Bool;

    ghost KIND = { type_id.Bool };

    ghost Meaning = { Bool };

    ghost meaning = { λ x. x };

    ghost content = { λ x. leaf (boolean x) };

    ghost part_of = { bool_of };

    fn own(value: &Dynamic) -> Option<&bool> {
        match &value.union {
            Union::Bool(_, _, x) => Some(x),
            _ => None,
        }
    }

    fn own_mut(value: &mut Dynamic) -> Option<&mut bool> {
        match &mut value.union {
            Union::Bool(_, _, x) => Some(x),
            _ => None,
        }
    }

    fn make(self) -> Dynamic {
        Dynamic {
            union: Union::Bool(0, AccessMode::ReadWrite, self),
        }
    }

    fn take_out(value: Dynamic) -> Result<bool, Dynamic> {
        match value.into_parts() {
            Union::Bool(_, _, x) => Ok(x),
            union => Err(Dynamic { union }),
        }
    }

    fn try_clone(&self, _alloc: Global) -> Result<bool, AllocError> {
        Ok(*self)
    }

    ghost constructs = { refl };

    ghost made_has = { λ x. refl };

    ghost reads = { bool_reads };
}

impl Part for INT {
    const KIND: TypeId = TypeId::Int;

    ghost KIND = { type_id.Int };

    ghost Meaning = { ℤ };

    ghost meaning = { λ x. x };

    ghost content = { λ x. leaf (int x) };

    ghost part_of = { int_of };

    fn own(value: &Dynamic) -> Option<&INT> {
        match &value.union {
            Union::Int(_, _, x) => Some(x),
            _ => None,
        }
    }

    fn own_mut(value: &mut Dynamic) -> Option<&mut INT> {
        match &mut value.union {
            Union::Int(_, _, x) => Some(x),
            _ => None,
        }
    }

    fn make(self) -> Dynamic {
        Dynamic {
            union: Union::Int(0, AccessMode::ReadWrite, self),
        }
    }

    fn take_out(value: Dynamic) -> Result<INT, Dynamic> {
        match value.into_parts() {
            Union::Int(_, _, x) => Ok(x),
            union => Err(Dynamic { union }),
        }
    }

    fn try_clone(&self, _alloc: Global) -> Result<INT, AllocError> {
        Ok(*self)
    }

    ghost constructs = { refl };

    ghost made_has = { λ x. refl };

    ghost reads = { int_reads };
}

impl Part for char {
    const KIND: TypeId = TypeId::Char;

    ghost KIND = { type_id.Char };

    ghost Meaning = { ℕ };

    ghost meaning = { λ x. x };

    ghost content = { λ x. leaf (character x) };

    ghost part_of = { char_of };

    fn own(value: &Dynamic) -> Option<&char> {
        match &value.union {
            Union::Char(_, _, x) => Some(x),
            _ => None,
        }
    }

    fn own_mut(value: &mut Dynamic) -> Option<&mut char> {
        match &mut value.union {
            Union::Char(_, _, x) => Some(x),
            _ => None,
        }
    }

    fn make(self) -> Dynamic {
        Dynamic {
            union: Union::Char(0, AccessMode::ReadWrite, self),
        }
    }

    fn take_out(value: Dynamic) -> Result<char, Dynamic> {
        match value.into_parts() {
            Union::Char(_, _, x) => Ok(x),
            union => Err(Dynamic { union }),
        }
    }

    fn try_clone(&self, _alloc: Global) -> Result<char, AllocError> {
        Ok(*self)
    }

    ghost constructs = { refl };

    ghost made_has = { λ x. refl };

    ghost reads = { char_reads };
}

impl Part for ImmutableString {
    const KIND: TypeId = TypeId::ImmutableString;

    ghost KIND = { type_id.ImmutableString };

    ghost Meaning = { List ℕ };

    ghost meaning = { λ x. x };

    ghost content = { λ x. leaf (text x) };

    ghost part_of = { text_of };

    fn own(value: &Dynamic) -> Option<&ImmutableString> {
        match &value.union {
            Union::Str(_, _, x) => Some(x),
            _ => None,
        }
    }

    fn own_mut(value: &mut Dynamic) -> Option<&mut ImmutableString> {
        match &mut value.union {
            Union::Str(_, _, x) => Some(x),
            _ => None,
        }
    }

    fn make(self) -> Dynamic {
        Dynamic {
            union: Union::Str(0, AccessMode::ReadWrite, self),
        }
    }

    fn take_out(value: Dynamic) -> Result<ImmutableString, Dynamic> {
        match value.into_parts() {
            Union::Str(_, _, x) => Ok(x),
            union => Err(Dynamic { union }),
        }
    }

    fn try_clone(&self, alloc: Global) -> Result<ImmutableString, AllocError> {
        self.copy(alloc)
    }

    ghost constructs = { refl };

    ghost made_has = { λ x. refl };

    ghost reads = { text_reads };
}

impl Part for Blob {
    const KIND: TypeId = TypeId::Blob;

    ghost KIND = { type_id.Blob };

    ghost Meaning = { List ℕ };

    ghost meaning = { λ x. x.items };

    ghost content = { λ x. leaf (blob x) };

    ghost part_of = { blob_of };

    fn own(value: &Dynamic) -> Option<&Blob> {
        match &value.union {
            Union::Blob(_, _, x) => Some(x),
            _ => None,
        }
    }

    fn own_mut(value: &mut Dynamic) -> Option<&mut Blob> {
        match &mut value.union {
            Union::Blob(_, _, x) => Some(x),
            _ => None,
        }
    }

    fn make(self) -> Dynamic {
        Dynamic {
            union: Union::Blob(0, AccessMode::ReadWrite, self),
        }
    }

    fn take_out(value: Dynamic) -> Result<Blob, Dynamic> {
        match value.into_parts() {
            Union::Blob(_, _, x) => Ok(x),
            union => Err(Dynamic { union }),
        }
    }

    fn try_clone(&self, alloc: Global) -> Result<Blob, AllocError> {
        Vec::from_slice(alloc, self)
    }

    ghost constructs = { refl };

    ghost made_has = { λ x. refl };

    ghost reads = { blob_reads };
}

impl Part for Array {
    const KIND: TypeId = TypeId::Array;

    ghost KIND = { type_id.Array };

    ghost Meaning = { Trees };

    ghost meaning = { λ x. trees_of x.items };

    ghost content = { λ x. branch array x };

    ghost part_of = { array_of };

    fn own(value: &Dynamic) -> Option<&Array> {
        match &value.union {
            Union::Array(_, _, x) => Some(x),
            _ => None,
        }
    }

    fn own_mut(value: &mut Dynamic) -> Option<&mut Array> {
        match &mut value.union {
            Union::Array(_, _, x) => Some(x),
            _ => None,
        }
    }

    fn make(self) -> Dynamic {
        Dynamic {
            union: Union::Array(0, AccessMode::ReadWrite, self),
        }
    }

    fn take_out(value: Dynamic) -> Result<Array, Dynamic> {
        match value.into_parts() {
            Union::Array(_, _, x) => Ok(x),
            union => Err(Dynamic { union }),
        }
    }

    #[tactic(auto, using(crate::proofs::Copies::copied_trees, crate::proofs::Copies::copied_fields))]
    fn try_clone(&self, alloc: Global) -> Result<Array, AllocError> {
        copied_items::<Writable>(self, alloc, NEAR)
    }

    ghost constructs = { refl };

    ghost made_has = { λ x. refl };

    ghost reads = { array_reads };
}

impl Part for Map {
    const KIND: TypeId = TypeId::Map;

    ghost KIND = { type_id.Map };

    ghost Meaning = { Fields };

    ghost meaning = { λ x. fields_of x };

    ghost content = { λ x. fields x };

    ghost part_of = { map_of };

    fn own(value: &Dynamic) -> Option<&Map> {
        match &value.union {
            Union::Map(_, _, x) => Some(x),
            _ => None,
        }
    }

    fn own_mut(value: &mut Dynamic) -> Option<&mut Map> {
        match &mut value.union {
            Union::Map(_, _, x) => Some(x),
            _ => None,
        }
    }

    fn make(self) -> Dynamic {
        Dynamic {
            union: Union::Map(0, AccessMode::ReadWrite, self),
        }
    }

    fn take_out(value: Dynamic) -> Result<Map, Dynamic> {
        match value.into_parts() {
            Union::Map(_, _, x) => Ok(x),
            union => Err(Dynamic { union }),
        }
    }

    #[tactic(auto, using(crate::proofs::Copies::copied_trees, crate::proofs::Copies::copied_fields))]
    fn try_clone(&self, alloc: Global) -> Result<Map, AllocError> {
        copied_map::<Writable>(self, alloc, NEAR)
    }

    ghost constructs = { refl };

    ghost made_has = { λ x. refl };

    ghost reads = { map_reads };
}

impl Part for FnPtr {
    const KIND: TypeId = TypeId::FnPtr;

    ghost KIND = { type_id.FnPtr };

    ghost Meaning = { List ℕ × Trees };

    ghost meaning = { λ f. (f.0, trees_of f.1) };

    ghost content = { λ f. branch (function f.0) f.1 };

    ghost part_of = { function_of };

    fn own(value: &Dynamic) -> Option<&FnPtr> {
        match &value.union {
            Union::FnPtr(_, _, x) => Some(x),
            _ => None,
        }
    }

    fn own_mut(value: &mut Dynamic) -> Option<&mut FnPtr> {
        match &mut value.union {
            Union::FnPtr(_, _, x) => Some(x),
            _ => None,
        }
    }

    fn make(self) -> Dynamic {
        Dynamic {
            union: Union::FnPtr(0, AccessMode::ReadWrite, self),
        }
    }

    fn take_out(value: Dynamic) -> Result<FnPtr, Dynamic> {
        match value.into_parts() {
            Union::FnPtr(_, _, x) => Ok(x),
            union => Err(Dynamic { union }),
        }
    }

    #[tactic(auto, using(crate::proofs::Copies::copied_trees, crate::proofs::Copies::copied_fields))]
    fn try_clone(&self, alloc: Global) -> Result<FnPtr, AllocError> {
        copied_function::<Writable>(self, alloc, NEAR)
    }

    ghost constructs = { refl };

    ghost made_has = { λ x. refl };

    ghost reads = { function_reads };
}
