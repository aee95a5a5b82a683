//! The parts of values of the host's types: integers of other widths, and ranges.
ghost use Rattle.std.specs.Prelude.{◌≡◌, refl, true, option_map};
ghost use Rattle.std.specs.Borrow.{sem, LendsIf};
ghost use Rattle.rhai_value.specs.contracts.value.host.Host as host_type_row;
ghost use Rattle.rhai_value.specs.declared.value.host.Host.{Host};
ghost use Rattle.rhai_value.specs.declared.value.host.Host.TheVariants as host_kind;
ghost use Rattle.rhai_value.specs.declared.value.type_id.TypeId.{TypeId};
ghost use Rattle.rhai_value.specs.declared.value.type_id.TypeId.TheVariants as type_id;
ghost use Rattle.rhai_value.specs.Kinds.{host_constructs, host_made, host_reads};
ghost use Rattle.rhai_value.specs.Parts.{typed_host_of};
ghost use Rattle.rhai_value.specs.Tree.{leaf, host};
ghost use Rattle.rhai_value.specs.Types.{host_at, host_type, is_host_type, is_type};

use crate::parts::part::Part;
use crate::value::access_mode::AccessMode;
use crate::value::dynamic::Dynamic;
use crate::value::host::{ExclusiveRange, Host, InclusiveRange};
use crate::value::type_id::TypeId;
use crate::value::union::Union;
use std::alloc::{AllocError, Global};

/// A host type: an integer of another width than a script's own, or a range.
pub trait HostPart: Sized + Copy + Drop {
    /// The type of the values that have such a part.
    const KIND: TypeId;

    ghost KIND: { TypeId };

    ghost host: { Self → Host };

    /// Converts it into a host value.
    fn into_host(self) -> Host
        ensures { result ≡ host self };

    /// Borrows this part of a host value, if it is of this type.
    fn in_host(value: &Host) -> Option<&Self>
        ensures { option_map (λ r. host r.now) result ≡ host_at KIND value.now };

    /// Borrows this part of a host value mutably, if it is of this type.
    fn in_host_mut(value: &mut Host) -> Option<&mut Self>
        ensures* writes_back { sem 𝓛 (LendsIf host_type_row.the_row Self.row value.entry result (λ w. host w) value.old) }
        ensures value { option_map (λ r. host r.now) result ≡ host_at KIND value.old };

    ghost is_host: { is_host_type KIND ≡ true };

    ghost is_kind: { (x : Self) → is_type KIND (host_type (host x)) ≡ true };
}

impl<T: HostPart> Part for T {
    const KIND: TypeId = <T as HostPart>::KIND;

    ghost KIND = { T.KIND };

    ghost Meaning = { Host };

    ghost meaning = { λ x. T.host x };

    ghost content = { λ h. leaf (host h) };

    ghost part_of = { typed_host_of T.KIND };

    fn own(value: &Dynamic) -> Option<&T> {
        match &value.union {
            Union::Variant(_, _, host) => T::in_host(host),
            _ => None,
        }
    }

    fn own_mut(value: &mut Dynamic) -> Option<&mut T> {
        match &mut value.union {
            Union::Variant(_, _, host) => T::in_host_mut(host),
            _ => None,
        }
    }

    fn make(self) -> Dynamic {
        Dynamic {
            union: Union::Variant(0, AccessMode::ReadWrite, self.into_host()),
        }
    }

    fn take_out(value: Dynamic) -> Result<T, Dynamic> {
        match T::own(&value) {
            Some(x) => Ok(*x),
            None => Err(value),
        }
    }

    fn try_clone(&self, _alloc: Global) -> Result<T, AllocError> {
        Ok(*self)
    }

    ghost constructs = { host_constructs T.KIND T.is_host };

    ghost made_has = { λ x. host_made T.KIND (T.host x) (T.is_kind x) };

    ghost reads = { host_reads T.KIND T.is_host };
}

impl HostPart for u8 {
    const KIND: TypeId = TypeId::U8;

    ghost KIND = { type_id.U8 };

    ghost host = { host_kind.U8 };

    fn into_host(self) -> Host {
        Host::U8(self)
    }

    fn in_host(value: &Host) -> Option<&u8> {
        match value {
            Host::U8(x) => Some(x),
            _ => None,
        }
    }

    fn in_host_mut(value: &mut Host) -> Option<&mut u8> {
        match value {
            Host::U8(x) => Some(x),
            _ => None,
        }
    }

    ghost is_host = { refl };

    ghost is_kind = { λ x. refl };
}

impl HostPart for u16 {
    const KIND: TypeId = TypeId::U16;

    ghost KIND = { type_id.U16 };

    ghost host = { host_kind.U16 };

    fn into_host(self) -> Host {
        Host::U16(self)
    }

    fn in_host(value: &Host) -> Option<&u16> {
        match value {
            Host::U16(x) => Some(x),
            _ => None,
        }
    }

    fn in_host_mut(value: &mut Host) -> Option<&mut u16> {
        match value {
            Host::U16(x) => Some(x),
            _ => None,
        }
    }

    ghost is_host = { refl };

    ghost is_kind = { λ x. refl };
}

impl HostPart for u32 {
    const KIND: TypeId = TypeId::U32;

    ghost KIND = { type_id.U32 };

    ghost host = { host_kind.U32 };

    fn into_host(self) -> Host {
        Host::U32(self)
    }

    fn in_host(value: &Host) -> Option<&u32> {
        match value {
            Host::U32(x) => Some(x),
            _ => None,
        }
    }

    fn in_host_mut(value: &mut Host) -> Option<&mut u32> {
        match value {
            Host::U32(x) => Some(x),
            _ => None,
        }
    }

    ghost is_host = { refl };

    ghost is_kind = { λ x. refl };
}

impl HostPart for u64 {
    const KIND: TypeId = TypeId::U64;

    ghost KIND = { type_id.U64 };

    ghost host = { host_kind.U64 };

    fn into_host(self) -> Host {
        Host::U64(self)
    }

    fn in_host(value: &Host) -> Option<&u64> {
        match value {
            Host::U64(x) => Some(x),
            _ => None,
        }
    }

    fn in_host_mut(value: &mut Host) -> Option<&mut u64> {
        match value {
            Host::U64(x) => Some(x),
            _ => None,
        }
    }

    ghost is_host = { refl };

    ghost is_kind = { λ x. refl };
}

impl HostPart for u128 {
    const KIND: TypeId = TypeId::U128;

    ghost KIND = { type_id.U128 };

    ghost host = { host_kind.U128 };

    fn into_host(self) -> Host {
        Host::U128(self)
    }

    fn in_host(value: &Host) -> Option<&u128> {
        match value {
            Host::U128(x) => Some(x),
            _ => None,
        }
    }

    fn in_host_mut(value: &mut Host) -> Option<&mut u128> {
        match value {
            Host::U128(x) => Some(x),
            _ => None,
        }
    }

    ghost is_host = { refl };

    ghost is_kind = { λ x. refl };
}

impl HostPart for i8 {
    const KIND: TypeId = TypeId::I8;

    ghost KIND = { type_id.I8 };

    ghost host = { host_kind.I8 };

    fn into_host(self) -> Host {
        Host::I8(self)
    }

    fn in_host(value: &Host) -> Option<&i8> {
        match value {
            Host::I8(x) => Some(x),
            _ => None,
        }
    }

    fn in_host_mut(value: &mut Host) -> Option<&mut i8> {
        match value {
            Host::I8(x) => Some(x),
            _ => None,
        }
    }

    ghost is_host = { refl };

    ghost is_kind = { λ x. refl };
}

impl HostPart for i16 {
    const KIND: TypeId = TypeId::I16;

    ghost KIND = { type_id.I16 };

    ghost host = { host_kind.I16 };

    fn into_host(self) -> Host {
        Host::I16(self)
    }

    fn in_host(value: &Host) -> Option<&i16> {
        match value {
            Host::I16(x) => Some(x),
            _ => None,
        }
    }

    fn in_host_mut(value: &mut Host) -> Option<&mut i16> {
        match value {
            Host::I16(x) => Some(x),
            _ => None,
        }
    }

    ghost is_host = { refl };

    ghost is_kind = { λ x. refl };
}

impl HostPart for i32 {
    const KIND: TypeId = TypeId::I32;

    ghost KIND = { type_id.I32 };

    ghost host = { host_kind.I32 };

    fn into_host(self) -> Host {
        Host::I32(self)
    }

    fn in_host(value: &Host) -> Option<&i32> {
        match value {
            Host::I32(x) => Some(x),
            _ => None,
        }
    }

    fn in_host_mut(value: &mut Host) -> Option<&mut i32> {
        match value {
            Host::I32(x) => Some(x),
            _ => None,
        }
    }

    ghost is_host = { refl };

    ghost is_kind = { λ x. refl };
}

impl HostPart for i128 {
    const KIND: TypeId = TypeId::I128;

    ghost KIND = { type_id.I128 };

    ghost host = { host_kind.I128 };

    fn into_host(self) -> Host {
        Host::I128(self)
    }

    fn in_host(value: &Host) -> Option<&i128> {
        match value {
            Host::I128(x) => Some(x),
            _ => None,
        }
    }

    fn in_host_mut(value: &mut Host) -> Option<&mut i128> {
        match value {
            Host::I128(x) => Some(x),
            _ => None,
        }
    }

    ghost is_host = { refl };

    ghost is_kind = { λ x. refl };
}

impl HostPart for ExclusiveRange {
    const KIND: TypeId = TypeId::ExclusiveRange;

    ghost KIND = { type_id.ExclusiveRange };

    ghost host = { host_kind.ExclusiveRange };

    fn into_host(self) -> Host {
        Host::ExclusiveRange(self)
    }

    fn in_host(value: &Host) -> Option<&ExclusiveRange> {
        match value {
            Host::ExclusiveRange(x) => Some(x),
            _ => None,
        }
    }

    fn in_host_mut(value: &mut Host) -> Option<&mut ExclusiveRange> {
        match value {
            Host::ExclusiveRange(x) => Some(x),
            _ => None,
        }
    }

    ghost is_host = { refl };

    ghost is_kind = { λ x. refl };
}

impl HostPart for InclusiveRange {
    const KIND: TypeId = TypeId::InclusiveRange;

    ghost KIND = { type_id.InclusiveRange };

    ghost host = { host_kind.InclusiveRange };

    fn into_host(self) -> Host {
        Host::InclusiveRange(self)
    }

    fn in_host(value: &Host) -> Option<&InclusiveRange> {
        match value {
            Host::InclusiveRange(x) => Some(x),
            _ => None,
        }
    }

    fn in_host_mut(value: &mut Host) -> Option<&mut InclusiveRange> {
        match value {
            Host::InclusiveRange(x) => Some(x),
            _ => None,
        }
    }

    ghost is_host = { refl };

    ghost is_kind = { λ x. refl };
}
