//! The caller in the README of `rhai_target`.
ghost use Rattle.std.specs.Prelude.{◌≡◌, ◌<◌, [], IfOk, OnErr};
ghost use Rattle.std.specs.Bool.{OnFalse, OnTrue};
ghost use Rattle.rhai_value.specs.End.{end};
ghost use Rattle.rhai_target.specs.Change.{bit_change, value_changed, store_changed};

use rhai_target::write_bit;
use rhai_text::{EvalAltResult, Position};
use rhai_value::{Dynamic, Store};

/// Writes a flag among those that a variable holds as bits, and returns whether it holds any.
pub(crate) fn write_flag(
    flags: &mut Dynamic,
    store: &mut Store,
    value: &Dynamic,
    place: u8,
) -> Result<bool, EvalAltResult>
    requires { place < 64 }
    ensures own { IfOk result (λ done. OnTrue done (flags.new ≡ value_changed (bit_change store.old value.now place) (end store.old [] flags.old) flags.old)) }
    ensures store { IfOk result (λ done. OnTrue done (store.new ≡ store_changed (bit_change store.old value.now place) (end store.old [] flags.old) store.old)) }
    ensures none { IfOk result (λ done. OnFalse done ((flags.new ≡ flags.old) × (store.new ≡ store.old))) }
    ensures err { OnErr result ((flags.new ≡ flags.old) × (store.new ≡ store.old)) }
{
    if !flags.is_int(store) {
        return Ok(false);
    }
    write_bit(flags, store, value, place, Position::NONE)?;
    Ok(true)
}
