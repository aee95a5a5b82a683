//! The contents of a handle.

use rhai_run::{Answer, World};
use rhai_text::ImmutableString;
use script_engine::Engine;
use slab::Slab;

/// A world, with what its host's calls share. Dropping it closes the world.
pub struct Kept {
    /// The world.
    pub world: World,
    /// The names that the host has passed, each at its number.
    pub names: Slab<ImmutableString>,
    /// The last answer that had a text, bytes or a reason.
    pub answer: Answer,
    /// The scripts, with variables of their own.
    pub engine: Engine,
}

impl Drop for Kept {
    fn drop(self) {
        let Kept {
            world,
            names: _,
            answer: _,
            engine: _,
        } = self;
        world.close();
    }
}
