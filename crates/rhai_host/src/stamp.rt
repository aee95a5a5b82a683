//! The stamp of what is exported: written by `tools/host_declarations`.

/// Does nothing: its name is a sum of all that is exported, so that a host of other declarations
/// doesn't link.
#[unsafe(no_mangle)]
pub extern "C" fn rhai_host_stamp_3b4407ede9898e77() {}
