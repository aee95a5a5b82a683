//! A host's view of a world: the values of its hand, with tags and modes, and the scope. Marks show
//! in the texts.

use rhai_run::World;
use rhai_show::debug_text;
use rhai_value::{Dynamic, Store};
use std::alloc::{AllocError, Global};
use std::io::Eprint;

fn write_value(
    alloc: Global,
    value: &Dynamic,
    store: &Store,
    out: &mut String,
) -> Result<(), AllocError> {
    out.push_str(&debug_text(alloc, value, store)?)?;
    let text = format!(in alloc; " {} {}\n", value.tag(), value.is_read_only(store))?;
    out.push_str(&text)
}

/// Returns the view.
pub(crate) fn seen(alloc: Global, world: &World) -> Result<String, AllocError> {
    let mut out = String::new(alloc);
    for value in world.hand() {
        write_value(alloc, value, world.store(), &mut out)?;
    }
    out.push_str(&world.scope().shown(world.store())?.into_text())?;
    Ok(out)
}

/// Whether the view is this one.
pub(crate) fn is_seen(alloc: Global, world: &World, before: &str) -> Result<bool, AllocError> {
    Ok(seen(alloc, world)?.as_str() == before)
}

/// Reports on standard error what failed to allocate.
pub(crate) fn tell(rt: &impl Eprint, what: &str) {
    let _ = rt.eprintln(format_args!("refused: {what}"));
}
