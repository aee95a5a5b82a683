//! The built-in operators of script values: which row of the table an operator has for two
//! operands, and the result of that row.
#![tactic(auto)]

mod answer;
mod assign;
mod assign_lookup;
mod blobs;
mod bools;
mod builtin;
mod call;
mod chars;
mod compare;
mod grow;
mod ints;
pub mod laws;
mod lookup;
mod operand_kind;
mod order;
mod push;
mod ranges;
mod texts;
mod tokens;
mod write;

pub use assign_lookup::get_builtin_op_assignment_fn;
pub use builtin::FnBuiltin;
pub use compare::compared;
pub use ints::int_answer;
pub use lookup::get_builtin_binary_op_fn;
pub use order::compare_values;
