//! Values of the host's types.
ghost use Rattle.std.specs.Prelude.{◌≡◌};
ghost use Rattle.rhai_value.specs.Types.{host_type};

use crate::value::type_id::TypeId;
use crate::value::union::INT;

/// The integers from a start to an end, excluding the end. A start past the end isn't an error.
/// rhai: `ExclusiveRange`.
#[derive(Debug, PartialEq, Eq, Copy, Clone)]
pub struct ExclusiveRange {
    /// The first integer.
    pub start: INT,
    /// The integer after the last one.
    pub end: INT,
}

/// The integers from a start to an end, including the end. A start past the end isn't an error.
/// rhai: `InclusiveRange`.
#[derive(Debug, PartialEq, Eq, Copy, Clone)]
pub struct InclusiveRange {
    /// The first integer.
    pub start: INT,
    /// The last integer.
    pub end: INT,
}

/// An integer of another width than a script's own, or a range of a script's integers.
#[derive(Copy, Clone)]
pub enum Host {
    /// 8 bits, unsigned.
    U8(u8),
    /// 16 bits, unsigned.
    U16(u16),
    /// 32 bits, unsigned.
    U32(u32),
    /// 64 bits, unsigned.
    U64(u64),
    /// 128 bits, unsigned.
    U128(u128),
    /// 8 bits, signed.
    I8(i8),
    /// 16 bits, signed.
    I16(i16),
    /// 32 bits, signed.
    I32(i32),
    /// 128 bits, signed.
    I128(i128),
    /// A range that excludes its end.
    ExclusiveRange(ExclusiveRange),
    /// A range that includes its end.
    InclusiveRange(InclusiveRange),
}

impl Host {
    /// Returns the type of the integer or the range.
    pub fn type_id(&self) -> TypeId
        ensures { result ≡ host_type self.now }
    {
        match self {
            Host::U8(_) => TypeId::U8,
            Host::U16(_) => TypeId::U16,
            Host::U32(_) => TypeId::U32,
            Host::U64(_) => TypeId::U64,
            Host::U128(_) => TypeId::U128,
            Host::I8(_) => TypeId::I8,
            Host::I16(_) => TypeId::I16,
            Host::I32(_) => TypeId::I32,
            Host::I128(_) => TypeId::I128,
            Host::ExclusiveRange(_) => TypeId::ExclusiveRange,
            Host::InclusiveRange(_) => TypeId::InclusiveRange,
        }
    }
}
