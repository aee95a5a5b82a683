//! Calls that don't allocate: they succeed even if all allocations fail.
use super::is_text;
use crate::ops::readme::{assign, operate};
use crate::target::parts::{has_byte, propagated};
use rhai_scope::Scope;
use rhai_target::{Target, calc_index, calc_offset_len, write_bit, write_byte, write_field};
use rhai_text::{Limits, Position, Token};
use rhai_value::{Blob, Dynamic, Store};
use std::alloc::{AllocError, Global};
use std::test::Fail;

const UNLIMITED: Limits = Limits { text: 0, items: 0 };

/// Whether look-ups by name and by position work in a scope with a constant `c` and a text `x`
/// after it.
fn is_looked_up(scope: &Scope, store: &Store) -> bool {
    scope.len() == 2
        && scope.contains("x")
        && !scope.contains("y")
        && scope.search("c") == Some(0)
        && scope.is_constant("c") == Some(true)
        && matches!(scope.get("x"), Some(value) if is_text(value, store, "hé"))
        && scope.iter_raw(store).count() == 2
}

/// Whether a variable `n`, which is the int 3, can be borrowed by its type, immutably and mutably.
fn is_lent_by_type(scope: &mut Scope, store: &Store) -> bool {
    match scope.get("n") {
        Some(value) if !value.is_shared() => {}
        _ => return false,
    }
    let is_read = matches!(scope.get_value_ref::<i64>("n"), Some(3));
    match scope.get_value_mut::<i64>("n") {
        Some(n) => *n = 4,
        None => return false,
    }
    is_read && matches!(scope.get("n"), Some(value) if value.as_int(store) == Ok(4))
}

/// Whether entries can be borrowed mutably, and dropped.
fn is_emptied(scope: &mut Scope) -> bool {
    let is_lent = scope.get_mut("x").is_some() && scope.get_mut("c").is_none();
    scope.rewind(2);
    if scope.is_empty() {
        return false;
    }
    scope.pop();
    let is_popped = scope.len() == 1;
    scope.rewind(0);
    let is_rewound = scope.is_empty();
    scope.clear();
    is_lent && is_popped && is_rewound
}

/// Whether a bit and a field of an int are written.
fn is_written_in_int(int: &mut Dynamic, store: &mut Store) -> bool {
    if !int.is_int(store) || write_bit(int, store, &Dynamic::TRUE, 3, Position::NONE).is_err() {
        return false;
    }
    if !int.is_int(store)
        || write_field(int, store, &Dynamic::ONE, 240, 4, Position::NONE).is_err()
    {
        return false;
    }
    int.as_int(store) == Ok(31)
}

/// Whether a byte of a blob is written.
fn is_written_in_blob(blob: &mut Dynamic, store: &mut Store) -> bool {
    match blob.as_blob_ref(store) {
        Ok(bytes) if bytes.len() == 2 => {}
        _ => return false,
    }
    write_byte(blob, store, &Dynamic::TEN, 1, Position::NONE).is_ok()
}

/// Whether a holder can be made a target, and released.
fn is_target(holder: &mut Dynamic, store: &mut Store) -> bool {
    match Target::try_from(holder, store) {
        Ok(target) => target.take_ref(store).is_none(),
        Err(_) => false,
    }
}

/// The rows that don't allocate, with operands and their result: ints by their sum, the rest by a
/// boolean.
const ROWS: [(Token, i64, i64, i64); 8] = [
    (Token::Plus, 7, 2, 9),
    (Token::Divide, -7, 2, -3),
    (Token::PowerOf, 2, 5, 32),
    (Token::LeftShift, 1, 4, 16),
    (Token::Ampersand, 7, 3, 3),
    (Token::PlusAssign, 7, 2, 9),
    (Token::LeftShiftAssign, 1, 4, 16),
    (Token::XOrAssign, 7, 2, 5),
];

fn is_computed(alloc: Global, store: &mut Store, row: &(Token, i64, i64, i64)) -> bool {
    let (mut x, mut y) = (Dynamic::from_int(row.1), Dynamic::from_int(row.2));
    match assign(row.0, alloc, store, &UNLIMITED, &mut x, &mut y) {
        Ok(true) => return x.as_int(store) == Ok(row.3),
        Ok(false) => {}
        Err(_) => return false,
    }
    match operate(row.0, alloc, store, &UNLIMITED, &mut x, &mut y) {
        Ok(Some(answer)) => answer.as_int(store) == Ok(row.3),
        Ok(None) | Err(_) => false,
    }
}

/// Whether two values can be compared.
fn is_compared(
    alloc: Global,
    store: &mut Store,
    token: Token,
    mut x: Dynamic,
    mut y: Dynamic,
    wanted: bool,
) -> bool {
    match operate(token, alloc, store, &UNLIMITED, &mut x, &mut y) {
        Ok(Some(answer)) => answer.as_bool(store) == Ok(wanted),
        Ok(None) | Err(_) => false,
    }
}

/// Whether a bit, some bits and a byte are written back.
fn is_propagated(alloc: Global, int: &mut Dynamic, blob: &mut Dynamic, store: &mut Store) -> bool {
    if !int.is_int(store) {
        return false;
    }
    let bit = Target::Bit {
        source: int,
        value: Dynamic::TRUE,
        bit: 0,
    };
    if propagated(bit, alloc, store).is_err() || !int.is_int(store) {
        return false;
    }
    let field = Target::BitField {
        source: int,
        value: Dynamic::ONE,
        mask: 240,
        shift: 4,
    };
    if propagated(field, alloc, store).is_err() || int.as_int(store) != Ok(17) {
        return false;
    }
    if !has_byte(blob, store, 1) {
        return false;
    }
    let byte = Target::BlobByte {
        source: blob,
        value: Dynamic::TEN,
        index: 1,
    };
    propagated(byte, alloc, store).is_ok()
}

/// Whether two ints make a range, which is of one of the host's types.
fn is_ranged(alloc: Global, store: &mut Store, token: Token) -> bool {
    let (mut first, mut last) = (Dynamic::ONE, Dynamic::TEN);
    match operate(token, alloc, store, &UNLIMITED, &mut first, &mut last) {
        Ok(Some(range)) => range.is_variant() && !first.is_variant(),
        Ok(None) | Err(_) => false,
    }
}

/// Whether a boolean gets this value by an assignment of `true`.
fn is_assigned(alloc: Global, store: &mut Store, token: Token, wanted: bool) -> bool {
    let (mut truth, mut other) = (Dynamic::TRUE, Dynamic::TRUE);
    matches!(
        assign(token, alloc, store, &UNLIMITED, &mut truth, &mut other),
        Ok(true)
    ) && truth.as_bool(store) == Ok(wanted)
}

#[test]
fn parts_ranges_and_booleans_take_no_memory(rt: HostRuntime) -> Result<(), Fail> {
    let alloc = rt.alloc();
    let mut store = Store::new(alloc);
    let mut blob = Dynamic::from_blob(Blob::from_slice(alloc, &[1, 2])?);
    let mut text = Dynamic::from_text(alloc, "hé")?;
    let mut int = Dynamic::from_int(0);
    assert!(rt; is_propagated(alloc, &mut int, &mut blob, &mut store));
    assert!(rt; is_ranged(alloc, &mut store, Token::ExclusiveRange));
    assert!(rt; is_ranged(alloc, &mut store, Token::InclusiveRange));
    assert!(rt; is_assigned(alloc, &mut store, Token::AndAssign, true));
    assert!(rt; is_assigned(alloc, &mut store, Token::OrAssign, true));
    assert!(rt; is_assigned(alloc, &mut store, Token::XOrAssign, false));
    assert!(rt; text.as_immutable_string_mut(&mut store).is_ok());
    Ok(())
}

/// Whether the entry `x` has one alias, `y`.
fn has_one_alias(scope: &Scope) -> bool {
    match scope.aliases("x") {
        Some(aliases) => aliases.len() == 1 && aliases[0].as_str() == "y",
        None => false,
    }
}

#[test]
fn an_alias_that_is_there_stays_the_only_one(rt: HostRuntime) -> Result<(), Fail> {
    let mut scope = Scope::new(rt.alloc());
    scope.push("x", 3i64)?;
    scope.set_alias("x", "y")?;
    scope.set_alias("x", "y")?;
    assert!(rt; has_one_alias(&scope));
    Ok(())
}

#[test]
fn calls_without_memory_answer(rt: HostRuntime) -> Result<(), Fail> {
    let alloc = rt.alloc();
    let mut store = Store::new(alloc);
    let mut scope = Scope::new(alloc);
    scope.push_constant("c", 1i64)?;
    scope.push_dynamic("x", Dynamic::from_text(alloc, "hé")?)?;
    let mut blob = Dynamic::from_blob(Blob::from_slice(alloc, &[1, 2])?);
    let Ok(mut holder) = Dynamic::from_int(7).into_shared(&mut store) else {
        return Err(Fail::from(AllocError));
    };
    assert!(rt; is_looked_up(&scope, &store));
    assert!(rt; is_emptied(&mut scope));
    assert!(rt; is_written_in_int(&mut holder, &mut store));
    assert!(rt; is_written_in_blob(&mut blob, &mut store));
    assert!(rt; is_target(&mut holder, &mut store));
    for row in &ROWS {
        assert!(rt; is_computed(alloc, &mut store, row), "{}", row.3);
    }
    assert!(rt;
        is_compared(
            alloc,
            &mut store,
            Token::LessThan,
            Dynamic::ONE,
            Dynamic::TWO,
            true
        )
    );
    assert!(rt;
        is_compared(
            alloc,
            &mut store,
            Token::GreaterThan,
            Dynamic::FALSE,
            Dynamic::TRUE,
            false
        )
    );
    assert!(rt;
        is_compared(
            alloc,
            &mut store,
            Token::XOr,
            Dynamic::FALSE,
            Dynamic::TRUE,
            true
        )
    );
    assert!(rt;
        is_compared(
            alloc,
            &mut store,
            Token::EqualsTo,
            Dynamic::ONE,
            Dynamic::UNIT,
            false
        )
    );
    assert!(rt;
        is_compared(
            alloc,
            &mut store,
            Token::NotEqualsTo,
            Dynamic::ONE,
            Dynamic::UNIT,
            true
        )
    );
    assert!(rt; calc_offset_len(5, -2, 10) == (3, 2));
    assert!(rt; matches!(calc_index(5, -1, true), Some(4)));
    Ok(())
}

#[test]
fn an_entry_is_lent_by_its_type(rt: HostRuntime) -> Result<(), Fail> {
    let store = Store::new(rt.alloc());
    let mut scope = Scope::new(rt.alloc());
    scope.push("n", 3i64)?;
    assert!(rt; is_lent_by_type(&mut scope, &store));
    Ok(())
}
