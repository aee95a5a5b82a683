//! Keys: what leads from a value to a part of it.
ghost use Rattle.std.specs.Prelude.{◌≡◌, Some, None, IfOk, IfErr};
ghost use Rattle.std.specs.Str.{chars};
ghost use Rattle.script_faults.specs.Keys.{index_of, name_of, IsNoIndex, IsNoName};

use crate::faults::{FaultKind, mismatch};
use rhai_value::{Dynamic, INT, Store};

/// A step from a value to a part of it.
#[derive(Clone, Copy)]
pub enum Key<'k> {
    /// The value in brackets: an index, a key or a range.
    Index(&'k Dynamic),
    /// The name of a property.
    Name(&'k str),
}

/// Returns the int in brackets.
/// Errors: another type in the brackets, or the name of a property that values of this type don't
/// have.
pub fn index_in(key: &Key<'_>, store: &Store, found: &'static str) -> Result<INT, FaultKind>
    ensures ok { IfOk result (λ n. index_of store.now key.now ≡ Some n) }
    ensures err { IfErr result (λ e. (index_of store.now key.now ≡ None) × IsNoIndex store.now key.now found.now e) }
{
    match key {
        Key::Index(index) => match index.as_int(store) {
            Ok(index) => Ok(index),
            Err(_) => Err(mismatch("i64", index.type_id(store).name())),
        },
        Key::Name(_) => Err(FaultKind::NoParts(found)),
    }
}

/// Returns the text in brackets, or the name.
/// Errors: another type in the brackets.
pub fn name_in<'k>(key: &Key<'k>, store: &'k Store) -> Result<&'k str, FaultKind>
    ensures ok { IfOk result (λ name. name_of store.now key.now ≡ Some (chars name.now)) }
    ensures err { IfErr result (λ e. (name_of store.now key.now ≡ None) × IsNoName store.now key.now e) }
{
    match *key {
        Key::Index(index) => match index.as_immutable_string_ref(store) {
            Ok(text) => Ok(text.as_str()),
            Err(_) => Err(mismatch("string", index.type_id(store).name())),
        },
        Key::Name(name) => Ok(name),
    }
}
