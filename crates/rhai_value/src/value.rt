//! Values: their types, constructors and conversions.

pub(crate) mod access_mode;
pub(crate) mod constants;
pub(crate) mod dynamic;
pub(crate) mod fn_ptr;
pub(crate) mod from;
pub(crate) mod host;
pub(crate) mod into;
pub(crate) mod mode;
pub(crate) mod type_id;
pub(crate) mod typed;
pub(crate) mod union;
