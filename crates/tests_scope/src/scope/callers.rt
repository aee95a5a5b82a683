//! The callers in the README.
use super::readme::{aliases_of, declare, declare_all, own_value, set, write_int};
use super::{is_int, prints};
use rhai_scope::Scope;
use rhai_text::ImmutableString;
use rhai_value::{Dynamic, Store};
use std::alloc::{AllocError, Global};
use std::test::Fail;

/// Whether a variable is declared, written and set, and a constant isn't set.
fn is_declared(scope: &mut Scope, store: &Store) -> bool {
    declare(scope, "x").is_ok()
        && is_int(scope, store, "x", 0)
        && write_int(scope, "x", 5)
        && set(scope, "x", 6).is_ok()
        && is_int(scope, store, "x", 6)
        && scope.push_constant("y", 1i64).is_ok()
        && set(scope, "y", 7).is_ok()
        && is_int(scope, store, "y", 1)
        && set(scope, "z", 8).is_ok()
        && is_int(scope, store, "z", 8)
        && scope.len() == 3
}

/// Whether the aliases of a name are listed, one a line.
fn is_told(alloc: Global, scope: &mut Scope) -> bool {
    if scope.set_alias("x", "b").is_err() || scope.set_alias("x", "a").is_err() {
        return false;
    }
    match aliases_of(alloc, scope, "x") {
        Ok(Some(told)) => told.into_text().as_str() == "b\na\n",
        Ok(None) => false,
        Err(_) => false,
    }
}

#[test]
fn variables_are_declared(rt: HostRuntime) {
    let alloc = rt.alloc();
    let mut scope = Scope::new(alloc);
    assert!(rt; is_declared(&mut scope, &Store::new(alloc)));
    assert!(rt; is_told(alloc, &mut scope));
}

/// Whether a value can only be borrowed as the one text type in which it is stored.
fn is_looked_into(scope: &Scope) -> bool {
    own_value::<String>(scope, "t").is_none()
        && own_value::<ImmutableString>(scope, "t").is_some()
        && own_value::<ImmutableString>(scope, "u").is_none()
}

#[test]
fn a_text_is_looked_into(rt: HostRuntime) -> Result<(), Fail> {
    let mut scope = Scope::new(rt.alloc());
    scope.push("t", ImmutableString::from_str(rt.alloc(), "a")?)?;
    assert!(rt; is_looked_into(&scope));
    Ok(())
}

fn names(alloc: Global) -> Result<Vec<ImmutableString>, AllocError> {
    let a = ImmutableString::from_str(alloc, "a")?;
    let b = ImmutableString::from_str(alloc, "b")?;
    Ok(vec![in alloc; a, b]?)
}

fn values(alloc: Global) -> Result<Vec<Dynamic>, AllocError> {
    Ok(vec![in alloc; Dynamic::ONE, Dynamic::TWO]?)
}

/// Whether names and values are returned if there are fewer values.
fn come_back(scope: &mut Scope, names: Vec<ImmutableString>, values: Vec<Dynamic>) -> bool {
    match declare_all(scope, names, values) {
        Ok(()) => false,
        Err((names, values)) => names.len() == 2 && values.is_empty() && scope.is_empty(),
    }
}

#[test]
fn names_are_declared_with_their_values(rt: HostRuntime) -> Result<(), Fail> {
    let alloc = rt.alloc();
    let mut scope = Scope::new(alloc);
    assert!(rt; come_back(&mut scope, names(alloc)?, Vec::new(alloc)));
    assert!(rt; declare_all(&mut scope, names(alloc)?, values(alloc)?).is_ok());
    assert!(rt; prints(alloc, &scope, &Store::new(alloc), "[1] a = 1\n[2] b = 2\n"));
    Ok(())
}
