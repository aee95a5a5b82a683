//! Laws of scans, each the contract of a function with an empty body.
ghost use Rattle.std.specs.Prelude.{◌≡◌};
ghost use Rattle.rhai_value.specs.Tree.{Tree};
ghost use Rattle.rhai_value.specs.Relation.{Renaming};
ghost use Rattle.rhai_value.specs.Scan.{SameVisits, children_scanned, scan};

use crate::walk::scan::Visitor;

/// A scan visits the value, and then the children of the result, with the visitor passed along. The
/// number of nodes isn't mentioned.
pub fn scan_opens<V: Visitor>()
    ensures { (v : V) (t : Tree) → scan V.visited v t ≡ children_scanned (scan V.visited) (V.visited v t).0 (V.visited v t).1 }
{}

/// The result of a scan doesn't depend on cell numbers if that of a visit doesn't.
pub fn scan_is_renamed<V: Visitor>()
    ensures { (r : Renaming) → SameVisits r V.visited → SameVisits r (scan V.visited) }
{}
