//! The types whose values are the content of one constructor.

use rhai_text::ImmutableString;
use rhai_value::{Array, Blob, ExclusiveRange, FnPtr, INT, InclusiveRange, Map, Part};

/// A type whose values are the content of one constructor: each `Variant` except `String` and
/// `Dynamic`.
pub trait Content: Part {}

impl Content for () {}

impl Content for bool {}

impl Content for char {}

impl Content for INT {}

impl Content for u8 {}

impl Content for u16 {}

impl Content for u32 {}

impl Content for u64 {}

impl Content for u128 {}

impl Content for i8 {}

impl Content for i16 {}

impl Content for i32 {}

impl Content for i128 {}

impl Content for ImmutableString {}

impl Content for Array {}

impl Content for Blob {}

impl Content for Map {}

impl Content for FnPtr {}

impl Content for ExclusiveRange {}

impl Content for InclusiveRange {}
