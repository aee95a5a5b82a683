//! Parts that are read, found by an int, and written back by value.
ghost use Rattle.std.specs.Prelude.{◌≡◌, [], true, is_some, IfOk, OnErr};
ghost use Rattle.std.specs.Bool.{OnFalse};
ghost use Rattle.rhai_value.specs.End.{end, held_part};
ghost use Rattle.rhai_value.specs.Parts.{text_of};

use super::parts::has_byte;
use super::*;
use rhai_target::{
    NoPart, ReadPart, Slice, read_bit, read_byte, read_char, read_field, read_slice,
};
use rhai_value::INT;

/// Inverts one bit of a variable, and returns whether there is such a bit.
fn turn_bit(
    flags: &mut Dynamic,
    alloc: Global,
    store: &mut Store,
    index: INT,
) -> Result<bool, EvalAltResult>
    ensures none { IfOk result (λ done. OnFalse done ((flags.new ≡ flags.old) × (store.new ≡ store.old))) }
    ensures err { OnErr result ((flags.new ≡ flags.old) × (store.new ≡ store.old)) }
{
    let Ok(part) = ReadPart::bit_at(flags, store, index) else {
        return Ok(false);
    };
    let turned = Dynamic::from_bool(part.value.as_bool(store) == Ok(false));
    let part = ReadPart {
        place: part.place,
        value: turned,
    };
    part.write_back(flags, alloc, store, Position::NONE)?;
    Ok(true)
}

#[test]
fn a_bit_is_turned_over(rt: HostRuntime) {
    let alloc = rt.alloc();
    let mut store = Store::new(alloc);
    let mut flags = Dynamic::from_int(5);
    assert!(rt; matches!(turn_bit(&mut flags, alloc, &mut store, 1), Ok(true)));
    assert!(rt; flags.as_int(&store) == Ok(7));
    assert!(rt; matches!(turn_bit(&mut flags, alloc, &mut store, 0), Ok(true)));
    assert!(rt; flags.as_int(&store) == Ok(6));
    assert!(rt; matches!(turn_bit(&mut flags, alloc, &mut store, 64), Ok(false)));
    assert!(rt; matches!(turn_bit(&mut flags, alloc, &mut store, -1), Ok(false)));
    assert!(rt; flags.as_int(&store) == Ok(6));
}

/// Whether the part exists and its working value prints like this.
fn prints(alloc: Global, part: Result<ReadPart, NoPart>, store: &Store, wanted: &str) -> bool {
    match part {
        Ok(part) => match rhai_show::display_text(alloc, &part.value, store) {
            Ok(text) => text.as_str() == wanted,
            Err(_) => false,
        },
        Err(_) => false,
    }
}

/// Whether there is no such part.
fn is_out(part: Result<ReadPart, NoPart>) -> bool {
    matches!(part, Err(NoPart::OutOfRange))
}

/// Whether another type was found.
fn is_other(part: Result<ReadPart, NoPart>, name: &str) -> bool {
    match part {
        Err(NoPart::Mismatch(found)) => found == name,
        _ => false,
    }
}

#[test]
fn bytes_are_found_from_both_ends(rt: HostRuntime) {
    let alloc = rt.alloc();
    let store = Store::new(alloc);
    let blob = bytes(alloc);
    assert!(rt; prints(alloc, ReadPart::byte_at(&blob, &store, 1), &store, "2"));
    assert!(rt; prints(alloc, ReadPart::byte_at(&blob, &store, -2), &store, "1"));
    assert!(rt; is_out(ReadPart::byte_at(&blob, &store, 2)));
    assert!(rt; is_out(ReadPart::byte_at(&blob, &store, -3)));
    assert!(rt; is_other(ReadPart::byte_at(&seven(), &store, 0), "i64"));
    assert!(rt; has_byte(&blob, &store, 1) && read_byte(&blob, &store, 1) == 2);
}

#[test]
fn characters_are_found_from_both_ends(rt: HostRuntime) {
    let alloc = rt.alloc();
    let store = Store::new(alloc);
    let text = hello(alloc);
    assert!(rt; prints(alloc, ReadPart::char_at(&text, &store, 1), &store, "e"));
    assert!(rt; prints(alloc, ReadPart::char_at(&text, &store, -1), &store, "o"));
    assert!(rt; prints(alloc, ReadPart::char_at(&text, &store, -5), &store, "h"));
    assert!(rt; is_out(ReadPart::char_at(&text, &store, 5)));
    assert!(rt; is_out(ReadPart::char_at(&text, &store, -6)));
    assert!(rt; is_other(ReadPart::char_at(&Dynamic::TRUE, &store, 0), "bool"));
    assert!(rt; text.is_string(&store) && read_char(&text, &store, 4) == Some('o'));
    assert!(rt; text.is_string(&store) && read_char(&text, &store, 5) == None);
}

/// The slice from the second character to the fourth.
const MIDDLE: Slice = Slice {
    start: 1,
    end: 3,
    exclusive: true,
};

/// Writes a value over that slice of a text, and returns the previous slice.
fn replace_middle(
    alloc: Global,
    text: &mut Dynamic,
    store: &mut Store,
    value: Dynamic,
) -> Result<Dynamic, EvalAltResult>
    ensures { OnErr result ((text.new ≡ text.old) × (store.new ≡ store.old)) }
{
    let part = match ReadPart::slice_at(alloc, text, store, MIDDLE) {
        Ok(part) => part,
        Err(NoPart::Mismatch(found)) => {
            return Err(EvalAltResult::mismatch("string", found, Position::new(3, 4)));
        }
        Err(NoPart::Memory(refused)) => return Err(EvalAltResult::ErrorMemory(refused)),
        Err(NoPart::OutOfRange) => unreachable!(),
    };
    let written = ReadPart {
        place: part.place,
        value,
    };
    written.write_back(text, alloc, store, Position::new(3, 4))?;
    Ok(part.value)
}

/// Whether that slice is "el", and 42 is written over it.
fn is_middle_replaced(alloc: Global, text: &mut Dynamic, store: &mut Store) -> bool {
    let Ok(before) = replace_middle(alloc, text, store, Dynamic::from_int(42)) else {
        return false;
    };
    match before.as_immutable_string_ref(store) {
        Ok(before) => before.as_str() == "el",
        Err(_) => false,
    }
}

/// Whether a value that isn't a text is refused.
fn is_refused_of(alloc: Global, store: &mut Store, mut value: Dynamic) -> bool {
    match replace_middle(alloc, &mut value, store, Dynamic::ONE) {
        Ok(_) => false,
        Err(refused) => is_refused(Err(refused), "string", "i64"),
    }
}

#[test]
fn a_slice_is_read_and_replaced(rt: HostRuntime) {
    let alloc = rt.alloc();
    let mut store = Store::new(alloc);
    let mut text = hello(alloc);
    assert!(rt; is_middle_replaced(alloc, &mut text, &mut store));
    assert!(rt; is_text(&text, "h42lo"));
    assert!(rt; is_refused_of(alloc, &mut store, Dynamic::ONE));
}

/// Whether that slice of a text is this one.
fn reads(alloc: Global, text: &Dynamic, store: &Store, slice: Slice, wanted: &str) -> bool
    requires { is_some (held_part text_of (end store.now [] text.now)) ≡ true }
{
    match read_slice(alloc, text, store, slice) {
        Ok(read) => read.as_str() == wanted,
        Err(_) => false,
    }
}

#[test]
fn slices_are_read_by_their_ends(rt: HostRuntime) {
    let alloc = rt.alloc();
    let store = Store::new(alloc);
    let text = hello(alloc);
    let included = Slice {
        start: 1,
        end: 3,
        exclusive: false,
    };
    let crossed = Slice {
        start: 3,
        end: 1,
        exclusive: false,
    };
    assert!(rt; text.is_string(&store) && reads(alloc, &text, &store, MIDDLE, "el"));
    assert!(rt; text.is_string(&store) && reads(alloc, &text, &store, included, "ell"));
    assert!(rt; text.is_string(&store) && reads(alloc, &text, &store, crossed, ""));
}

#[test]
fn bits_are_read_also_at_the_top(rt: HostRuntime) {
    let store = Store::new(rt.alloc());
    let source = Dynamic::from_int(-1152921504606846976);
    assert!(rt; source.is_int(&store) && read_bit(&source, &store, 63));
    assert!(rt; source.is_int(&store) && !read_bit(&source, &store, 59));
    assert!(rt;
        source.is_int(&store) && read_field(&source, &store, -1152921504606846976, 60) == 15
    );
    let field = ReadPart::field_at(&Dynamic::from_int(95), &store, 240, 4);
    assert!(rt; prints(rt.alloc(), field, &store, "5"));
    assert!(rt; is_out(ReadPart::field_at(&Dynamic::from_int(95), &store, 240, 64)));
}

/// Whether the target of a part has the part's working value, and leaves the source unchanged.
fn is_target(source: &mut Dynamic, store: &mut Store) -> bool {
    let Ok(part) = ReadPart::char_at(source, store, 0) else {
        return false;
    };
    let target = Target::of_part(source, part);
    let is_first = target.as_ref(store).as_char(store) == Ok('h');
    target.release(store);
    is_first
}

#[test]
fn a_part_is_made_a_target(rt: HostRuntime) {
    let alloc = rt.alloc();
    let mut store = Store::new(alloc);
    let mut text = hello(alloc);
    assert!(rt; is_target(&mut text, &mut store) && is_text(&text, "hello"));
}
