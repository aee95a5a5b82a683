//! The syntax trees of a small script language, with resolved names.
#![tactic(auto)]

mod tree;

pub use tree::{
    Arm, Assignment, Block, Callee, Case, Expr, Field, Function, Missing, Operator, Pattern,
    Program, Slot, Step, Switch, Term, UnaryOperator, Variable,
};

/// The ints of scripts: those of values, here by another name, so that trees, parser and compiler
/// need no values.
pub type INT = i64;

/// The most levels of a tree, from a body down to a leaf.
pub const MOST_LEVELS: usize = 64;
