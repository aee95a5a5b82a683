//! Whether values are the same, without tags, modes and holders.
ghost use Rattle.std.specs.Prelude.{◌≡◌, [], IfOk};
ghost use Rattle.std.specs.Bool.{OnTrue};
ghost use Rattle.rhai_show.specs.Plain.{plain};

use crate::values::{copied, pair_of, shared};
use rhai_show::same_value;
use rhai_value::{Dynamic, Store};
use std::alloc::{AllocError, Global};
use std::test::Fail;

/// Whether two values are the same, if both can be compared.
fn are_same(
    alloc: Global,
    value: &Dynamic,
    other: &Dynamic,
    store: &Store,
) -> Result<bool, AllocError>
    ensures { IfOk result (λ same. OnTrue same (plain store.now [] value.now ≡ plain store.now [] other.now)) }
{
    match same_value(alloc, value, other, store)? {
        Some(same) => Ok(same),
        None => Ok(false),
    }
}

#[test]
fn tags_and_sharing_are_not_seen(rt: HostRuntime) -> Result<(), Fail> {
    let alloc = rt.alloc();
    let mut store = Store::new(alloc);
    let mut tagged = Dynamic::ONE;
    tagged.set_tag(3);
    let holder = shared(tagged, &mut store);
    let pair = pair_of(alloc, copied(alloc, &holder), Dynamic::TRUE);
    let plain = pair_of(alloc, Dynamic::ONE, Dynamic::TRUE);
    let other = pair_of(alloc, Dynamic::ONE, Dynamic::FALSE);
    assert!(rt; are_same(alloc, &pair, &plain, &store)?);
    assert!(rt; !are_same(alloc, &pair, &other, &store)?);
    assert!(rt; same_value(alloc, &plain, &Dynamic::ONE, &store)? == Some(false));
    Ok(())
}

#[test]
fn a_foreign_holder_is_not_compared(rt: HostRuntime) -> Result<(), Fail> {
    let alloc = rt.alloc();
    let mut store = Store::new(alloc);
    let holder = shared(Dynamic::ONE, &mut store);
    let empty = Store::new(alloc);
    assert!(rt; same_value(alloc, &holder, &holder, &empty)? == None);
    assert!(rt; same_value(alloc, &Dynamic::ONE, &holder, &empty)? == None);
    Ok(())
}
