//! What goes wrong while a script runs, and what its operations cost. It knows nothing of the
//! functions and trees of scripts.
#![tactic(auto)]

mod cost;
mod faults;
mod held;
mod keys;
mod resources;
mod type_names;
mod ways;

pub use cost::{
    bytes_cost, characters_cost, copies_cost, copy_cost, cost_of, entries_cost, has_parts,
    operations_of, operations_of_bytes, values_cost,
};
pub use faults::{Fault, FaultKind, check_size, in_use, mismatch};
pub use held::Held;
pub use keys::{Key, index_in, name_in};
pub use resources::Means;
pub use type_names::type_name_of;
pub use ways::{check_all_ways, check_ways, print_cost, walk_cost, walks_cost};
