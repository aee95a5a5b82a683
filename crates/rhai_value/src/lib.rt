//! The values of a script: trees that may have shared cells, and the store of these cells.
#![tactic(auto)]

mod cells;
pub mod laws;
mod map;
mod parts;
mod places;
mod value;
mod walk;

pub use cells::cell_ref::CellRef;
pub use cells::chain::Site;
pub use cells::marks::WriteToken;
pub use cells::path::{FIRST_CELLS, Path};
pub use cells::reach::{Kept, Reach};
pub use cells::roots::Roots;
pub use cells::store::{Cell, Store};
pub use map::Map;
pub use map::entries::{Entries, Keys, Values};
pub use map::into::{IntoEntries, IntoKeyedEntries};
pub use map::key::Key;
pub use map::write::ValueWriter;
pub use parts::host::HostPart;
pub use parts::in_store::InStore;
pub use parts::part::Part;
pub use places::place::Place;
pub use places::step::{PlaceError, PlaceErrorKind, Step, item_place};
pub use places::with_held::HeldError;
pub use value::access_mode::AccessMode;
pub use value::dynamic::Dynamic;
pub use value::fn_ptr::FnPtr;
pub use value::host::{ExclusiveRange, Host, InclusiveRange};
pub use value::into::IntoError;
pub use value::type_id::TypeId;
pub use value::union::{Array, Blob, INT, Tag, Union};
pub use walk::near::NEAR;
pub use walk::scan::Visitor;
