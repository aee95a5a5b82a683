//! Snapshots of scripts and of the world, from which a host can draw what they share.
ghost use Rattle.rhai_host.specs.Content.{content};
ghost use Rattle.rhai_host.specs.Engines.{AnswersBytes};

use crate::answering::tell_bytes;
use crate::handle::Handle;
use crate::perform::CLOSED;
use crate::told::Told;
use rhai_run::{Bytes, World};
use script_engine::{Engine, Snapshot};
use std::alloc::{AllocError, Global};

/// The kind of a snapshot of a world.
const WORLD: u8 = 2;

fn script_bytes(engine: &Engine) -> Result<Option<Bytes>, AllocError> {
    Ok(Some(Bytes::new(engine.snapshot()?)))
}

/// Returns a snapshot: of the active functions with their visible variables while there is a run,
/// otherwise of the variables alone. `Engine::snapshot` describes the bytes.
#[unsafe(no_mangle)]
pub extern "C" fn rhai_host_script_snapshot(
    alloc: Global,
    handle: &mut Handle,
    told: &mut Told,
) -> u32
    ensures { AnswersBytes result (content handle.old) (content handle.new) told.old told.new }
{
    let Some(mut kept) = handle.take(alloc) else {
        return CLOSED;
    };
    let bytes = script_bytes(&kept.engine);
    let status = tell_bytes(&mut kept, bytes, told);
    handle.put(kept);
    status
}

fn world_bytes(alloc: Global, world: &World) -> Result<Option<Bytes>, AllocError> {
    let mut snapshot = Snapshot::new(alloc, world.store(), WORLD)?;
    for (k, token) in world.marks().iter().enumerate() {
        if let Some(content) = world.marked_content(k) {
            snapshot.add_mark(token, content)?;
        }
    }
    snapshot.end()?;
    for (name, _, value) in world.scope().iter_raw(world.store()) {
        snapshot.add_named(name, value)?;
    }
    snapshot.end()?;
    for value in world.hand() {
        snapshot.add(value)?;
    }
    snapshot.end()?;
    Ok(Some(Bytes::new(snapshot.into_bytes()?)))
}

/// Returns a snapshot of the world: the byte 2; the byte 1 for each open mark, the oldest first,
/// and 0 after the last one; the entries, the newest first, each behind the byte 1, and 0 after the
/// last one; the values of the hand in the same way; and what each cell holds. The first cells are
/// those of the marks.
#[unsafe(no_mangle)]
pub extern "C" fn rhai_host_snapshot(alloc: Global, handle: &mut Handle, told: &mut Told) -> u32
    ensures { AnswersBytes result (content handle.old) (content handle.new) told.old told.new }
{
    let Some(mut kept) = handle.take(alloc) else {
        return CLOSED;
    };
    let bytes = world_bytes(alloc, &kept.world);
    let status = tell_bytes(&mut kept, bytes, told);
    handle.put(kept);
    status
}
