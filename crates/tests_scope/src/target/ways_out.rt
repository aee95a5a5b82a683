//! Every way to consume a target: the value that it refers to, and the store, are unchanged
//! afterwards.
ghost use Rattle.std.specs.Prelude.{◌≡◌, None};
ghost use Rattle.rhai_target.specs.Target.{IsMarkedIn, mark_in};

use super::*;

/// Whether a copy of the value is taken.
fn is_cloned(alloc: Global, store: &mut Store, value: &mut Dynamic) -> bool {
    match Target::RefMut(value).take_or_clone(alloc, store) {
        Ok(copy) => is_copy_of_seven(&copy),
        Err(target) => {
            target.release(store);
            false
        }
    }
}

/// Whether the reference is returned.
fn is_handed_back(store: &mut Store, value: &mut Dynamic) -> bool {
    match Target::RefMut(value).take_ref(store) {
        Some(reference) => is_seven(reference),
        None => false,
    }
}

/// Whether an owned target is made from a copy.
fn is_owned(alloc: Global, store: &mut Store, value: &mut Dynamic) -> bool {
    match Target::RefMut(value).into_owned(alloc, store) {
        Ok(owned) => {
            let is_copy = owned.is_temp_value() && is_copy_of_seven(owned.as_ref(store));
            owned.release(store);
            is_copy
        }
        Err(target) => {
            target.release(store);
            false
        }
    }
}

/// Whether another cell has 5 and is unmarked.
fn is_five(other: &Dynamic, store: &Store) -> bool {
    other.as_int(store) == Ok(5) && !other.is_locked(store)
}

#[test]
fn a_value_that_was_referred_to_stays(rt: HostRuntime) {
    let alloc = rt.alloc();
    let mut store = Store::new(alloc);
    let other = shared(Dynamic::from_int(5), &mut store);
    let mut value = seven();
    assert!(rt; is_cloned(alloc, &mut store, &mut value) && is_seven(&value));
    assert!(rt; is_handed_back(&mut store, &mut value) && is_seven(&value));
    assert!(rt; is_owned(alloc, &mut store, &mut value) && is_seven(&value));
    Target::RefMut(&mut value).release(&mut store);
    assert!(rt; is_seven(&value) && is_five(&other, &store));
}

/// Whether an owned value is taken unchanged.
fn is_taken(alloc: Global, store: &mut Store, value: Dynamic) -> bool {
    match Target::from(value).take_or_clone(alloc, store) {
        Ok(value) => is_seven(&value),
        Err(target) => {
            target.release(store);
            false
        }
    }
}

#[test]
fn a_value_of_its_own_is_taken(rt: HostRuntime) {
    let mut store = Store::new(rt.alloc());
    assert!(rt; is_taken(rt.alloc(), &mut store, seven()));
    assert!(rt; Target::from(seven()).take_ref(&mut store).is_none());
}

/// Whether the working value of a part, which is true, is taken.
fn gives_working_value(alloc: Global, store: &mut Store, part: Target<'_>) -> bool
    requires { IsMarkedIn store.old part }
{
    match part.take_or_clone(alloc, store) {
        Ok(value) => matches!(value.parts(), Union::Bool(0, _, true)),
        Err(target) => {
            target.release(store);
            false
        }
    }
}

/// Whether a part has no reference to return.
fn gives_no_reference(store: &mut Store, part: Target<'_>) -> bool
    requires { IsMarkedIn store.old part }
{
    part.take_ref(store).is_none()
}

/// Whether a part stays a part.
fn stays_part(alloc: Global, store: &mut Store, part: Target<'_>) -> bool
    requires { IsMarkedIn store.old part }
{
    match part.into_owned(alloc, store) {
        Ok(same) => {
            let is_part = !same.is_temp_value()
                && !same.is_ref()
                && same.as_ref(store).is_bool(store);
            same.release(store);
            is_part
        }
        Err(target) => {
            target.release(store);
            false
        }
    }
}

/// Makes a bit whose working value is true.
fn bit<'a>(source: &'a mut Dynamic) -> Target<'a>
    ensures { mark_in result ≡ None }
{
    Target::Bit {
        source,
        value: Dynamic::TRUE,
        bit: 3,
    }
}

/// Whether each way to consume it is right.
fn leaves_bit(alloc: Global, store: &mut Store, source: &mut Dynamic) -> bool {
    let is_taken = gives_working_value(alloc, store, bit(source));
    let is_none = gives_no_reference(store, bit(source));
    let is_part = stays_part(alloc, store, bit(source));
    bit(source).release(store);
    is_taken && is_none && is_part
}

/// Makes some bits whose working value is true.
fn field<'a>(source: &'a mut Dynamic) -> Target<'a>
    ensures { mark_in result ≡ None }
{
    Target::BitField {
        source,
        value: Dynamic::TRUE,
        mask: 240,
        shift: 4,
    }
}

/// Whether each way to consume it is right.
fn leaves_field(alloc: Global, store: &mut Store, source: &mut Dynamic) -> bool {
    let is_taken = gives_working_value(alloc, store, field(source));
    let is_none = gives_no_reference(store, field(source));
    let is_part = stays_part(alloc, store, field(source));
    field(source).release(store);
    is_taken && is_none && is_part
}

/// Makes a byte whose working value is true.
fn byte<'a>(source: &'a mut Dynamic) -> Target<'a>
    ensures { mark_in result ≡ None }
{
    Target::BlobByte {
        source,
        value: Dynamic::TRUE,
        index: 1,
    }
}

/// Whether each way to consume it is right.
fn leaves_byte(alloc: Global, store: &mut Store, source: &mut Dynamic) -> bool {
    let is_taken = gives_working_value(alloc, store, byte(source));
    let is_none = gives_no_reference(store, byte(source));
    let is_part = stays_part(alloc, store, byte(source));
    byte(source).release(store);
    is_taken && is_none && is_part
}

/// Makes a character whose working value is true.
fn character<'a>(source: &'a mut Dynamic) -> Target<'a>
    ensures { mark_in result ≡ None }
{
    Target::StringChar {
        source,
        value: Dynamic::TRUE,
        index: 1,
    }
}

/// Whether each way to consume it is right.
fn leaves_character(alloc: Global, store: &mut Store, source: &mut Dynamic) -> bool {
    let is_taken = gives_working_value(alloc, store, character(source));
    let is_none = gives_no_reference(store, character(source));
    let is_part = stays_part(alloc, store, character(source));
    character(source).release(store);
    is_taken && is_none && is_part
}

/// Makes a slice whose working value is true.
fn slice<'a>(source: &'a mut Dynamic) -> Target<'a>
    ensures { mark_in result ≡ None }
{
    Target::StringSlice {
        source,
        value: Dynamic::TRUE,
        start: 1,
        end: 3,
        exclusive: true,
    }
}

/// Whether each way to consume it is right.
fn leaves_slice(alloc: Global, store: &mut Store, source: &mut Dynamic) -> bool {
    let is_taken = gives_working_value(alloc, store, slice(source));
    let is_none = gives_no_reference(store, slice(source));
    let is_part = stays_part(alloc, store, slice(source));
    slice(source).release(store);
    is_taken && is_none && is_part
}

#[test]
fn the_source_of_a_part_stays(rt: HostRuntime) {
    let alloc = rt.alloc();
    let mut store = Store::new(alloc);
    let other = shared(Dynamic::from_int(5), &mut store);
    let mut int = seven();
    assert!(rt; leaves_bit(alloc, &mut store, &mut int) && is_seven(&int));
    assert!(rt; leaves_field(alloc, &mut store, &mut int) && is_seven(&int));
    assert!(rt; is_five(&other, &store));
}

#[test]
fn the_list_of_a_part_stays(rt: HostRuntime) {
    let alloc = rt.alloc();
    let mut store = Store::new(alloc);
    let mut blob = bytes(alloc);
    assert!(rt; leaves_byte(alloc, &mut store, &mut blob) && is_bytes(&blob, &[1, 2]));
    let mut text = hello(alloc);
    assert!(rt; leaves_character(alloc, &mut store, &mut text) && is_text(&text, "hello"));
    assert!(rt; leaves_slice(alloc, &mut store, &mut text) && is_text(&text, "hello"));
}
