//! What casts and constructors return.
use super::{is_text, tell};
use rhai_cast::DynamicCast;
use rhai_value::{Dynamic, Store};
use rhai_variant::{CastError, Variant};
use std::alloc::{AllocError, Global};
use std::io::Eprint;
use std::test::Fail;

/// Whether a value is made from a `String`; if an allocation fails, the string is returned, and a
/// value is made from it then.
fn makes(rt: &impl Eprint, alloc: Global) -> Result<bool, AllocError> {
    let store = Store::new(alloc);
    let back = match Dynamic::of(alloc, String::from_str(alloc, "hé")?) {
        Ok(value) => return Ok(is_text(&value, &store, "hé")),
        Err(back) => back,
    };
    tell(rt, "DynamicCast::of");
    if back.as_str() != "hé" {
        return Ok(false);
    }
    match back.into_dynamic(alloc) {
        Ok(value) => Ok(is_text(&value, &store, "hé")),
        Err(_) => Err(AllocError),
    }
}

/// As [`makes`], through the type's own call.
fn becomes(rt: &impl Eprint, alloc: Global) -> Result<bool, AllocError> {
    let store = Store::new(alloc);
    let back = match String::from_str(alloc, "hé")?.into_dynamic(alloc) {
        Ok(value) => return Ok(is_text(&value, &store, "hé")),
        Err(back) => back,
    };
    tell(rt, "Variant::into_dynamic");
    match Dynamic::of(alloc, back) {
        Ok(value) => Ok(is_text(&value, &store, "hé")),
        Err(_) => Err(AllocError),
    }
}

/// Whether a value is read as a `String`; if an allocation fails, the value is returned, and is
/// read then.
fn is_read(rt: &impl Eprint, alloc: Global) -> Result<bool, AllocError> {
    let store = Store::new(alloc);
    let back = match String::from_dynamic(alloc, Dynamic::from_text(alloc, "hé")?) {
        Ok(text) => return Ok(text.as_str() == "hé"),
        Err(CastError::Mismatch(_)) => return Ok(false),
        Err(CastError::Memory(back)) => back,
    };
    tell(rt, "Variant::from_dynamic");
    if !is_text(&back, &store, "hé") {
        return Ok(false);
    }
    match String::from_dynamic(alloc, back) {
        Ok(text) => Ok(text.as_str() == "hé"),
        Err(_) => Err(AllocError),
    }
}

/// Whether a holder is cast to a `String`; if an allocation fails, the holder is returned, and is
/// cast then.
fn is_cast(rt: &impl Eprint, alloc: Global) -> Result<bool, AllocError> {
    let mut store = Store::new(alloc);
    let Ok(holder) = Dynamic::from_text(alloc, "hé")?.into_shared(&mut store) else {
        return Err(AllocError);
    };
    let back = match holder.try_cast_result::<String>(alloc, &store) {
        Ok(text) => return Ok(text.as_str() == "hé"),
        Err(CastError::Mismatch(_)) => return Ok(false),
        Err(CastError::Memory(back)) => back,
    };
    tell(rt, "DynamicCast::try_cast_result");
    if !back.is_shared() || !is_text(&back, &store, "hé") {
        return Ok(false);
    }
    match back.try_cast_result::<String>(alloc, &store) {
        Ok(text) => Ok(text.as_str() == "hé"),
        Err(_) => Err(AllocError),
    }
}

#[test]
fn casts_come_back(rt: HostRuntime) -> Result<(), Fail> {
    assert!(rt; makes(&rt, rt.alloc())?);
    assert!(rt; becomes(&rt, rt.alloc())?);
    assert!(rt; is_read(&rt, rt.alloc())?);
    assert!(rt; is_cast(&rt, rt.alloc())?);
    Ok(())
}
