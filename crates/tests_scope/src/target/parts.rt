//! Parts whose working values are written back.
ghost use Rattle.std.specs.Prelude.{◌<◌, [], length, MatchOption};
ghost use Rattle.std.specs.Bool.{OnTrue};
ghost use Rattle.rhai_value.specs.End.{end, held_part};
ghost use Rattle.rhai_value.specs.Parts.{blob_of};
ghost use Rattle.rhai_target.specs.Target.{HasPart, IsMarkedIn};

use super::*;

/// Writes the working value back, spends the target, and returns how it went.
pub(crate) fn propagated<'a>(
    target: Target<'a>,
    alloc: Global,
    store: &mut Store,
) -> Result<(), EvalAltResult>
    requires part { HasPart store.old target }
    requires marked { IsMarkedIn store.old target }
{
    let mut target = target;
    let done = target.propagate_changed_value(alloc, store, Position::new(3, 4));
    target.release(store);
    done
}

/// Whether a blob with this index is held.
pub(crate) fn has_byte(value: &Dynamic, store: &Store, index: usize) -> bool
    ensures { OnTrue result (MatchOption (held_part blob_of (end store.now [] value.now)) ⊥ (λ bytes. index < length bytes)) }
{
    match value.as_blob_ref(store) {
        Ok(held) => index < held.len(),
        Err(_) => false,
    }
}

/// Writes a bit back.
fn write_bit(
    alloc: Global,
    store: &mut Store,
    source: &mut Dynamic,
    value: Dynamic,
) -> Result<(), EvalAltResult> {
    if !source.is_int(store) {
        return Ok(());
    }
    let target = Target::Bit {
        source,
        value,
        bit: 3,
    };
    propagated(target, alloc, store)
}

/// Writes some bits back.
fn write_field(
    alloc: Global,
    store: &mut Store,
    source: &mut Dynamic,
    value: Dynamic,
) -> Result<(), EvalAltResult> {
    if !source.is_int(store) {
        return Ok(());
    }
    let target = Target::BitField {
        source,
        value,
        mask: 240,
        shift: 4,
    };
    propagated(target, alloc, store)
}

/// Whether the constant 7 with tag 3 becomes another int with the same tag and mode.
fn is_int(value: &Dynamic, wanted: i64) -> bool {
    matches!(value.parts(), Union::Int(3, AccessMode::ReadOnly, n) if *n == wanted)
}

#[test]
fn bits_are_written_back(rt: HostRuntime) {
    let alloc = rt.alloc();
    let mut store = Store::new(alloc);
    let mut int = seven();
    let refused = write_bit(alloc, &mut store, &mut int, Dynamic::ONE);
    assert!(rt; is_refused(refused, "bool", "i64") && is_seven(&int));
    assert!(rt; write_bit(alloc, &mut store, &mut int, Dynamic::TRUE).is_ok());
    assert!(rt; is_int(&int, 15));
    let refused = write_field(alloc, &mut store, &mut int, Dynamic::TRUE);
    assert!(rt; is_refused(refused, "integer", "bool") && is_int(&int, 15));
    assert!(rt; write_field(alloc, &mut store, &mut int, Dynamic::from_int(21)).is_ok());
    assert!(rt; is_int(&int, 95));
}

/// Writes a byte back.
fn write_byte(
    alloc: Global,
    store: &mut Store,
    source: &mut Dynamic,
    value: Dynamic,
) -> Result<(), EvalAltResult> {
    if !has_byte(source, store, 1) {
        return Ok(());
    }
    let target = Target::BlobByte {
        source,
        value,
        index: 1,
    };
    propagated(target, alloc, store)
}

#[test]
fn a_byte_is_written_back(rt: HostRuntime) {
    let alloc = rt.alloc();
    let mut store = Store::new(alloc);
    let mut blob = bytes(alloc);
    let refused = write_byte(alloc, &mut store, &mut blob, Dynamic::TRUE);
    assert!(rt; is_refused(refused, "INT", "bool") && is_bytes(&blob, &[1, 2]));
    assert!(rt; write_byte(alloc, &mut store, &mut blob, Dynamic::from_int(511)).is_ok());
    assert!(rt; is_bytes(&blob, &[1, 255]));
}

/// Writes a character back.
fn write_char(
    alloc: Global,
    store: &mut Store,
    source: &mut Dynamic,
    value: Dynamic,
) -> Result<(), EvalAltResult> {
    if !source.is_string(store) {
        return Ok(());
    }
    let target = Target::StringChar {
        source,
        value,
        index: 1,
    };
    propagated(target, alloc, store)
}

/// Writes a slice back.
fn write_slice(
    alloc: Global,
    store: &mut Store,
    source: &mut Dynamic,
    value: Dynamic,
) -> Result<(), EvalAltResult> {
    if !source.is_string(store) {
        return Ok(());
    }
    let target = Target::StringSlice {
        source,
        value,
        start: 2,
        end: 3,
        exclusive: false,
    };
    propagated(target, alloc, store)
}

#[test]
fn characters_are_written_back(rt: HostRuntime) {
    let alloc = rt.alloc();
    let mut store = Store::new(alloc);
    let mut text = hello(alloc);
    let refused = write_char(alloc, &mut store, &mut text, Dynamic::ONE);
    assert!(rt; is_refused(refused, "char", "i64") && is_text(&text, "hello"));
    assert!(rt; write_char(alloc, &mut store, &mut text, Dynamic::from_char('a')).is_ok());
    assert!(rt; is_text(&text, "hallo"));
    assert!(rt; write_slice(alloc, &mut store, &mut text, Dynamic::from_int(42)).is_ok());
    assert!(rt; is_text(&text, "ha42o"));
}

/// Whether the call does nothing to a target that isn't a part.
fn is_left(alloc: Global, store: &mut Store, value: &mut Dynamic) -> bool {
    propagated(Target::RefMut(value), alloc, store).is_ok()
}

#[test]
fn what_is_no_part_is_left(rt: HostRuntime) {
    let mut store = Store::new(rt.alloc());
    let mut value = seven();
    assert!(rt; is_left(rt.alloc(), &mut store, &mut value) && is_seven(&value));
}
