//! The caller in the README.
ghost use Rattle.std.specs.Prelude.{◌≡◌, [], IfOk};
ghost use Rattle.rhai_show.specs.declared.form.Form.TheVariants.{Debug};
ghost use Rattle.rhai_show.specs.Text.{printed};

use rhai_show::Shown;
use rhai_value::{Dynamic, Store};
use std::alloc::{AllocError, Global};

/// Formats a value for a message.
fn quoted(alloc: Global, value: &Dynamic, store: &Store) -> Result<Shown, AllocError>
    ensures { IfOk result (λ shown. shown ≡ printed store.now [] value.now Debug) }
{
    Shown::debug(alloc, value, store)
}

#[test]
fn a_message_quotes(rt: HostRuntime) {
    let alloc = rt.alloc();
    let store = Store::new(alloc);
    assert!(rt; quoted(alloc, &Dynamic::UNIT, &store).is_ok());
}
