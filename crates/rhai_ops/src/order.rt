//! The order of two values.
ghost use Rattle.std.specs.Prelude.{◌≡◌};
ghost use Rattle.rhai_ops.specs.Order.{value_order};

use crate::laws::rows_suit;
use crate::lookup::get_builtin_binary_op_fn;
use rhai_text::Token;
use rhai_value::{Dynamic, Store};
use std::cmp::Ordering;

/// Compares two held values, as the row of `<` does; `None` if there is no such row, or if it gives
/// the same result for all operands of these types.
/// Cost: that of `Dynamic::held`, and the length of two texts; no memory.
pub fn compare_values(left: &Dynamic, right: &Dynamic, store: &Store) -> Option<Ordering>
    ensures { result ≡ value_order store.now left.now right.now }
{
    let Some(left) = left.held(store) else {
        return None;
    };
    let Some(right) = right.held(store) else {
        return None;
    };
    rows_suit();
    match get_builtin_binary_op_fn(&Token::LessThan, left, right, store) {
        Some(row) => row.order(left, right, store),
        None => None,
    }
}
