//! The types of values.
ghost use Rattle.std.specs.Prelude.{◌≡◌};
ghost use Rattle.rhai_value.specs.Types.{is_host_type, type_name};

/// The type of a value, including a type for chains that are stuck or closed.
/// rhai: `TypeId` of `std::any`.
#[derive(Debug, PartialEq, Eq, Copy, Clone)]
pub enum TypeId {
    /// `()`.
    Unit,
    /// `bool`.
    Bool,
    /// `char`.
    Char,
    /// `i64`.
    Int,
    /// `u8`.
    U8,
    /// `u16`.
    U16,
    /// `u32`.
    U32,
    /// `u64`.
    U64,
    /// `u128`.
    U128,
    /// `i8`.
    I8,
    /// `i16`.
    I16,
    /// `i32`.
    I32,
    /// `i128`.
    I128,
    /// `String`, which no value holds: a text is an `ImmutableString`.
    String,
    /// A text.
    ImmutableString,
    /// An array.
    Array,
    /// A blob.
    Blob,
    /// A map.
    Map,
    /// A function pointer.
    FnPtr,
    /// A range that excludes its end.
    ExclusiveRange,
    /// A range that includes its end.
    InclusiveRange,
    /// Any value.
    Dynamic,
    /// A holder whose chain is stuck or closed.
    Shared,
}

impl TypeId {
    /// Returns the name of the type, as scripts see it.
    pub fn name(self) -> &'static str
        ensures { result.now ≡ type_name self }
    {
        match self {
            TypeId::Unit => "()",
            TypeId::Bool => "bool",
            TypeId::Char => "char",
            TypeId::Int => "i64",
            TypeId::U8 => "u8",
            TypeId::U16 => "u16",
            TypeId::U32 => "u32",
            TypeId::U64 => "u64",
            TypeId::U128 => "u128",
            TypeId::I8 => "i8",
            TypeId::I16 => "i16",
            TypeId::I32 => "i32",
            TypeId::I128 => "i128",
            TypeId::String | TypeId::ImmutableString => "string",
            TypeId::Array => "array",
            TypeId::Blob => "blob",
            TypeId::Map => "map",
            TypeId::FnPtr => "Fn",
            TypeId::ExclusiveRange => "core::ops::range::Range<i64>",
            TypeId::InclusiveRange => "core::ops::range::RangeInclusive<i64>",
            TypeId::Dynamic => "Dynamic",
            TypeId::Shared => "<shared>",
        }
    }

    /// Returns whether it is a host type: an integer other than `i64`, or a range.
    pub fn is_host(self) -> bool
        ensures { result ≡ is_host_type self }
    {
        match self {
            TypeId::U8
            | TypeId::U16
            | TypeId::U32
            | TypeId::U64
            | TypeId::U128
            | TypeId::I8
            | TypeId::I16
            | TypeId::I32
            | TypeId::I128
            | TypeId::ExclusiveRange
            | TypeId::InclusiveRange => true,
            TypeId::Unit
            | TypeId::Bool
            | TypeId::Char
            | TypeId::Int
            | TypeId::String
            | TypeId::ImmutableString
            | TypeId::Array
            | TypeId::Blob
            | TypeId::Map
            | TypeId::FnPtr
            | TypeId::Dynamic
            | TypeId::Shared => false,
        }
    }
}
