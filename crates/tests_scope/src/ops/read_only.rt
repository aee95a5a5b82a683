//! Operators on values that are only read.
ghost use Rattle.std.specs.Prelude.{◌≡◌, None, IfNone, IfOk, IfSome};
ghost use Rattle.rhai_ops.specs.Outcome.{answers};
ghost use Rattle.rhai_ops.specs.Results.{outcome};
ghost use Rattle.rhai_ops.specs.Table.{row_of};

use super::holders::shared;
use rhai_ops::get_builtin_binary_op_fn;
use rhai_ops::laws::{operators_write_nothing, rows_suit};
use rhai_text::{ArithmeticFault, EvalAltResult, Limits, Position, Token};
use rhai_value::{Dynamic, INT, Store};
use std::alloc::Global;

/// Returns an operator's result for two variables, which are only read, or `None` if it isn't built
/// in; its errors have this position.
fn evaluate(
    op: Token,
    alloc: Global,
    store: &Store,
    x: &Dynamic,
    y: &Dynamic,
    pos: Position,
) -> Result<Option<Dynamic>, EvalAltResult>
    ensures none { IfOk result (λ d. IfNone d (row_of op store.now x.now y.now ≡ None)) }
    ensures some { IfOk result (λ d. IfSome d (λ v. IfSome (row_of op store.now x.now y.now) (λ row. outcome row (record { text = 0; items = 0 }) store.now x.now y.now ≡ answers v))) }
{
    let Some(row) = get_builtin_binary_op_fn(&op, x, y, store) else {
        return Ok(None);
    };
    rows_suit();
    operators_write_nothing();
    let limits = Limits { text: 0, items: 0 };
    match row.call_ref(alloc, store, &limits, x, y) {
        Ok(answer) => Ok(Some(answer)),
        Err(refused) => Err(refused.with_position(pos)),
    }
}

/// Whether two values add up to this.
fn adds_up(alloc: Global, store: &Store, x: &Dynamic, y: &Dynamic, wanted: INT) -> bool {
    match evaluate(Token::Plus, alloc, store, x, y, Position::NONE) {
        Ok(Some(sum)) => sum.as_int(store) == Ok(wanted),
        _ => false,
    }
}

#[test]
fn variables_are_only_read(rt: HostRuntime) {
    let alloc = rt.alloc();
    let store = Store::new(alloc);
    let (five, six) = (Dynamic::from_int(5), Dynamic::from_int(6));
    assert!(rt; adds_up(alloc, &store, &five, &six, 11));
    assert!(rt; adds_up(alloc, &store, &five, &five, 10));
}

#[test]
fn a_refusal_is_put_at_a_place(rt: HostRuntime) {
    let alloc = rt.alloc();
    let store = Store::new(alloc);
    let place = Position::new(3, 4);
    let refused = evaluate(
        Token::Divide,
        alloc,
        &store,
        &Dynamic::ONE,
        &Dynamic::ZERO,
        place,
    );
    assert!(rt;
        match &refused {
            Err(refused) => refused.position() == place
                && matches!(
                    refused,
                    EvalAltResult::ErrorArithmetic(ArithmeticFault::DivisionByZero, _)
                ),
            Ok(_) => false,
        }
    );
}

#[test]
fn a_holder_has_no_row(rt: HostRuntime) {
    let alloc = rt.alloc();
    let mut store = Store::new(alloc);
    let holder = shared(Dynamic::ONE, &mut store);
    let answer = evaluate(
        Token::Plus,
        alloc,
        &store,
        &holder,
        &Dynamic::ONE,
        Position::NONE,
    );
    assert!(rt; matches!(answer, Ok(None)));
}
