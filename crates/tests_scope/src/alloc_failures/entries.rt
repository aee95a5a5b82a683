//! What is left of a scope, and what is returned, if an allocation fails.
use super::tell;
use rhai_scope::Scope;
use rhai_text::ImmutableString;
use rhai_value::{AccessMode, Dynamic, Store};
use std::alloc::{AllocError, Global};
use std::io::Eprint;
use std::test::Fail;

fn name_of(alloc: Global, name: &str) -> Result<ImmutableString, AllocError> {
    ImmutableString::from_str(alloc, name)
}

/// Formats a scope.
fn printed(scope: &Scope, store: &Store) -> Result<String, AllocError> {
    Ok(scope.shown(store)?.into_text())
}

fn prints(scope: &Scope, store: &Store, wanted: &str) -> Result<bool, AllocError> {
    Ok(printed(scope, store)?.as_str() == wanted)
}

/// How a scope is changed by one call.
enum Change {
    PushDynamic,
    PushConstantDynamic,
    Push,
    PushConstant,
    SetOrPush,
    SetValue,
    SetAlias,
    Remove,
    Extend,
    ExtendFlagged,
    FlatValues,
    Copy,
    CloneVisible,
}

const CHANGES: [(Change, &str, &str); 13] = [
    (
        Change::PushDynamic,
        "Scope::push_dynamic",
        "[1] a = \"x\"\n[2] b = 2\n",
    ),
    (
        Change::PushConstantDynamic,
        "Scope::push_constant_dynamic",
        "[1] a = \"x\"\n[2] const b = 2\n",
    ),
    (
        Change::Push,
        "Scope::push",
        "[1] a = \"x\"\n[2] b = \"y\"\n",
    ),
    (
        Change::PushConstant,
        "Scope::push_constant",
        "[1] a = \"x\"\n[2] const b = \"y\"\n",
    ),
    (
        Change::SetOrPush,
        "Scope::set_or_push",
        "[1] a = \"x\"\n[2] b = \"y\"\n",
    ),
    (Change::SetValue, "Scope::set_value", "[1] a = \"y\"\n"),
    (Change::SetAlias, "Scope::set_alias", "[1] a = \"x\"\n"),
    (Change::Remove, "Scope::remove", ""),
    (
        Change::Extend,
        "Scope::extend",
        "[1] a = \"x\"\n[2] b = 1\n[3] c = 1\n[4] d = 1\n[5] e = 1\n[6] f = 1\n[7] g = 1\n[8] h = 1\n[9] i = 1\n",
    ),
    (
        Change::ExtendFlagged,
        "Scope::extend_flagged",
        "[1] a = \"x\"\n[2] b = 1\n[3] c = 1\n[4] d = 1\n[5] e = 1\n[6] f = 1\n[7] g = 1\n[8] h = 1\n[9] const i = 1\n",
    ),
    (Change::FlatValues, "Scope::flat_values", "[1] a = \"x\"\n"),
    (Change::Copy, "Scope::copy", "[1] a = \"x\"\n"),
    (
        Change::CloneVisible,
        "Scope::clone_visible",
        "[1] a = \"x\"\n",
    ),
];

/// Names for which a scope of one entry has no capacity yet.
const NAMES: [&str; 8] = ["b", "c", "d", "e", "f", "g", "h", "i"];

fn pairs(alloc: Global) -> Result<Vec<(ImmutableString, Dynamic)>, AllocError> {
    let mut items = Vec::new(alloc);
    for name in NAMES {
        items.push((name_of(alloc, name)?, Dynamic::ONE))?;
    }
    Ok(items)
}

/// Makes a list of the names with a flag each, of which the last one is set.
fn flagged(alloc: Global) -> Result<Vec<(ImmutableString, bool, Dynamic)>, AllocError> {
    let mut items = Vec::new(alloc);
    for name in NAMES {
        items.push((name_of(alloc, name)?, name == "i", Dynamic::ONE))?;
    }
    Ok(items)
}

fn is_set(scope: &mut Scope, text: String) -> bool {
    match scope.is_constant("a") {
        Some(true) => false,
        Some(false) | None => scope.set_value("a", text).is_ok(),
    }
}

/// Makes the change; returns `false` if an allocation failed.
fn is_changed(
    change: &Change,
    alloc: Global,
    scope: &mut Scope,
    store: &Store,
) -> Result<bool, AllocError> {
    let is_done = match change {
        Change::PushDynamic => scope.push_dynamic("b", Dynamic::TWO).is_ok(),
        Change::PushConstantDynamic => scope.push_constant_dynamic("b", Dynamic::TWO).is_ok(),
        Change::Push => scope.push("b", String::from_str(alloc, "y")?).is_ok(),
        Change::PushConstant => scope
            .push_constant("b", String::from_str(alloc, "y")?)
            .is_ok(),
        Change::SetOrPush => scope
            .set_or_push("b", String::from_str(alloc, "y")?)
            .is_ok(),
        Change::SetValue => is_set(scope, String::from_str(alloc, "y")?),
        Change::SetAlias => scope.set_alias("a", "other").is_ok(),
        Change::Remove => scope.remove::<String>("a", store).is_ok(),
        Change::Extend => scope.extend(pairs(alloc)?).is_ok(),
        Change::ExtendFlagged => scope.extend_flagged(flagged(alloc)?).is_ok(),
        Change::FlatValues => scope.flat_values(store).is_ok(),
        Change::Copy => scope.copy().is_ok(),
        Change::CloneVisible => scope.clone_visible().is_ok(),
    };
    Ok(is_done)
}

/// Whether a change results in a scope that prints as expected; if an allocation fails, everything
/// is unchanged, and the change is made then.
fn changes(
    rt: &impl Eprint,
    alloc: Global,
    row: &(Change, &str, &str),
) -> Result<bool, AllocError> {
    let (change, name, wanted) = row;
    let store = Store::new(alloc);
    let mut scope = Scope::new(alloc);
    scope.push("a", String::from_str(alloc, "x")?)?;
    if !is_changed(change, alloc, &mut scope, &store)? {
        tell(rt, name);
        let has_aliases = matches!(scope.aliases("a"), Some([_, ..]));
        if has_aliases || !prints(&scope, &store, "[1] a = \"x\"\n")? {
            return Ok(false);
        }
        if !is_changed(change, alloc, &mut scope, &store)? {
            return Err(AllocError);
        }
    }
    prints(&scope, &store, wanted)
}

#[test]
fn scopes_stay(rt: HostRuntime) -> Result<(), Fail> {
    for row in &CHANGES {
        assert!(rt; changes(&rt, rt.alloc(), row)?, "{}", row.1);
    }
    Ok(())
}

/// Whether an entry is pushed; if an allocation fails, name and value are returned, and it is
/// pushed then.
fn pushes(rt: &impl Eprint, alloc: Global) -> Result<bool, AllocError> {
    let store = Store::new(alloc);
    let mut scope = Scope::new(alloc);
    let name = name_of(alloc, "a")?;
    if let Err((name, value)) = scope.push_entry(name, AccessMode::ReadOnly, Dynamic::TEN) {
        tell(rt, "Scope::push_entry");
        if name.as_str() != "a" || value.as_int(&store) != Ok(10) || !scope.is_empty() {
            return Ok(false);
        }
        if scope.push_entry(name, AccessMode::ReadOnly, value).is_err() {
            return Err(AllocError);
        }
    }
    prints(&scope, &store, "[1] const a = 10\n")
}

/// Whether lists of names and values are moved in; if an allocation fails, both are returned, and
/// they are moved in then.
fn moves(rt: &impl Eprint, alloc: Global) -> Result<bool, AllocError> {
    let store = Store::new(alloc);
    let mut scope = Scope::new(alloc);
    let (b, c) = (name_of(alloc, "b")?, name_of(alloc, "c")?);
    let names = vec![in alloc; b, c]?;
    let values = vec![in alloc; Dynamic::ONE, Dynamic::TWO]?;
    if let Err((names, values)) = scope.extend_moved(names, values) {
        tell(rt, "Scope::extend_moved");
        if names.len() != 2 || values.len() != 2 || !scope.is_empty() {
            return Ok(false);
        }
        if scope.extend_moved(names, values).is_err() {
            return Err(AllocError);
        }
    }
    prints(&scope, &store, "[1] b = 1\n[2] c = 2\n")
}

/// As `moves`, for flagged names.
fn moves_flagged(rt: &impl Eprint, alloc: Global) -> Result<bool, AllocError> {
    let store = Store::new(alloc);
    let mut scope = Scope::new(alloc);
    let (b, c) = (name_of(alloc, "b")?, name_of(alloc, "c")?);
    let names = vec![in alloc; (b, true), (c, false)]?;
    let values = vec![in alloc; Dynamic::ONE, Dynamic::TWO]?;
    if let Err((names, values)) = scope.extend_flagged_moved(names, values) {
        tell(rt, "Scope::extend_flagged_moved");
        if names.len() != 2 || values.len() != 2 || !scope.is_empty() {
            return Ok(false);
        }
        if scope.extend_flagged_moved(names, values).is_err() {
            return Err(AllocError);
        }
    }
    prints(&scope, &store, "[1] const b = 1\n[2] c = 2\n")
}

#[test]
fn entries_come_back(rt: HostRuntime) -> Result<(), Fail> {
    assert!(rt; pushes(&rt, rt.alloc())?);
    assert!(rt; moves(&rt, rt.alloc())?);
    assert!(rt; moves_flagged(&rt, rt.alloc())?);
    Ok(())
}
