//! What is left of targets, and what is returned.
ghost use Rattle.rhai_target.specs.Target.{IsMarkedIn};

use super::{is_text, tell};
use rhai_target::{Slice, Target, write_char, write_slice};
use rhai_text::Position;
use rhai_value::{Dynamic, Store};
use std::alloc::{AllocError, Global};
use std::io::Eprint;
use std::test::Fail;

/// Makes a holder of a text.
fn held(alloc: Global, text: &str, store: &mut Store) -> Result<Dynamic, AllocError> {
    match Dynamic::from_text(alloc, text)?.into_shared(store) {
        Ok(holder) => Ok(holder),
        Err(_) => Err(AllocError),
    }
}

/// Writes a character over the first one of a text; returns `false` if an allocation failed.
fn is_char_written(holder: &mut Dynamic, alloc: Global, store: &mut Store) -> bool {
    let value = Dynamic::from_char('x');
    holder.is_string(store) && write_char(holder, alloc, store, &value, 0, Position::NONE).is_ok()
}

/// Whether a character is written; if an allocation fails, the text is unchanged, and the character
/// is written then.
fn writes_char(rt: &impl Eprint, alloc: Global) -> Result<bool, AllocError> {
    let mut store = Store::new(alloc);
    let mut holder = held(alloc, "ab", &mut store)?;
    for _ in 0..2 {
        if is_char_written(&mut holder, alloc, &mut store) {
            return Ok(is_text(&holder, &store, "xb"));
        }
        tell(rt, "write_char");
        if !is_text(&holder, &store, "ab") {
            return Ok(false);
        }
    }
    Err(AllocError)
}

/// Writes a slice between the characters of a text of two; returns `false` if an allocation failed.
fn is_slice_written(holder: &mut Dynamic, alloc: Global, store: &mut Store) -> bool {
    let value = Dynamic::from_char('x');
    let slice = Slice {
        start: 1,
        end: 1,
        exclusive: true,
    };
    holder.is_string(store) && write_slice(holder, alloc, store, &value, slice).is_ok()
}

/// As `writes_char`, for a slice.
fn writes_slice(rt: &impl Eprint, alloc: Global) -> Result<bool, AllocError> {
    let mut store = Store::new(alloc);
    let mut holder = held(alloc, "ab", &mut store)?;
    for _ in 0..2 {
        if is_slice_written(&mut holder, alloc, &mut store) {
            return Ok(is_text(&holder, &store, "axb"));
        }
        tell(rt, "write_slice");
        if !is_text(&holder, &store, "ab") {
            return Ok(false);
        }
    }
    Err(AllocError)
}

/// Copies the value that a target refers to; if an allocation fails, the target is returned, and
/// the copy is made then.
fn taken_at_last(
    rt: &impl Eprint,
    target: Target<'_>,
    alloc: Global,
    store: &mut Store,
) -> Result<Dynamic, AllocError>
    requires { IsMarkedIn store.old target }
{
    let target = match target.take_or_clone(alloc, store) {
        Ok(value) => return Ok(value),
        Err(target) => target,
    };
    tell(rt, "Target::take_or_clone");
    match target.take_or_clone(alloc, store) {
        Ok(value) => Ok(value),
        Err(target) => {
            target.release(store);
            Err(AllocError)
        }
    }
}

/// Whether a copy of a list is made.
fn takes(rt: &impl Eprint, alloc: Global) -> Result<bool, AllocError> {
    let mut store = Store::new(alloc);
    let mut list = Dynamic::from_array(vec![in alloc; Dynamic::ONE]?);
    let taken = taken_at_last(rt, Target::RefMut(&mut list), alloc, &mut store)?;
    Ok(taken.is_array(&store) && list.is_array(&store))
}

/// Drops an owned target, and returns whether it is one.
fn is_own(target: Target<'_>, store: &mut Store) -> bool
    requires { IsMarkedIn store.old target }
{
    let is_own = target.is_temp_value();
    target.release(store);
    is_own
}

/// Whether a target becomes an owned one; if an allocation fails, the target is returned, and
/// becomes one then.
fn owns(rt: &impl Eprint, alloc: Global) -> Result<bool, AllocError> {
    let mut store = Store::new(alloc);
    let mut list = Dynamic::from_array(vec![in alloc; Dynamic::ONE]?);
    let target = match Target::RefMut(&mut list).into_owned(alloc, &mut store) {
        Ok(owned) => return Ok(is_own(owned, &mut store)),
        Err(target) => target,
    };
    tell(rt, "Target::into_owned");
    match target.into_owned(alloc, &mut store) {
        Ok(owned) => Ok(is_own(owned, &mut store)),
        Err(target) => {
            target.release(&mut store);
            Err(AllocError)
        }
    }
}

#[test]
fn targets_come_back(rt: HostRuntime) -> Result<(), Fail> {
    assert!(rt; writes_char(&rt, rt.alloc())?);
    assert!(rt; writes_slice(&rt, rt.alloc())?);
    assert!(rt; takes(&rt, rt.alloc())?);
    assert!(rt; owns(&rt, rt.alloc())?);
    Ok(())
}
