//! Calls of rows.
ghost use Rattle.std.specs.Prelude.{◌≡◌, Err, IfOk, IfErr, IfSome};
ghost use Rattle.rhai_ops.specs.Outcome.{IsOutcome, answers};
ghost use Rattle.rhai_ops.specs.Results.{MayWant, Suits, outcome};
ghost use Rattle.rhai_ops.specs.Order.{row_order};
ghost use Rattle.rhai_ops.specs.Effects.{answered, first_left, second_left, store_left, effect, operator};
ghost use Rattle.rhai_value.specs.Tree.{Tree, TakesNoMemory, copy};

use crate::answer::{part, value};
use crate::builtin::FnBuiltin;
use crate::operand_kind::{own_int, own_text};
use crate::{assign, blobs, bools, chars, grow, ints, push, ranges, texts};
use rhai_text::{EvalAltResult, ImmutableString, Limits};
use rhai_value::{Dynamic, INT, Store};
use std::alloc::Global;
use std::cmp::Ordering;

impl FnBuiltin {
    /// Calls the row on these operands, which hold the types it requires. An operator changes
    /// nothing. An assignment writes its result where the chain of the first operand ends, and
    /// returns unit; both operands are read first, even if they are holders of one cell.
    /// Errors: `ErrorArithmetic` if ints have no result, `ErrorDataTooLarge` if the new length
    /// exceeds its limit, each at `Position::NONE`; `ErrorMemory` if an allocation fails, only for
    /// rows that make a text, a blob, an array or a copy. Operands and store are then unchanged.
    /// Cost: the length of the operands' texts, blobs and items; for ints, booleans and characters
    /// constant, without memory.
    /// rhai: a call of the function that a look-up returned.
    #[inline(always)]
    #[tactic(auto, using(crate::proofs::Effects::answered_refuses, crate::proofs::Effects::answered_value))]
    pub fn call(
        &self,
        alloc: Global,
        store: &mut Store,
        limits: &Limits,
        left: &mut Dynamic,
        right: &mut Dynamic,
    ) -> Result<Dynamic, EvalAltResult>
        requires { Suits self.now store.old left.old right.old }
        ensures result { IsOutcome (MayWant self.now left.old right.old) result (answered (effect self.now) (outcome self.now limits.now store.old left.old right.old)) }
        ensures first { IfOk result (λ d. left.new ≡ first_left (effect self.now) (outcome self.now limits.now store.old left.old right.old) store.old left.old) }
        ensures second { IfOk result (λ d. right.new ≡ second_left (effect self.now) (outcome self.now limits.now store.old left.old right.old) right.old) }
        ensures store { IfOk result (λ d. store.new ≡ store_left (effect self.now) (outcome self.now limits.now store.old left.old right.old) store.old left.old) }
        ensures err { IfErr result (λ e. (left.new ≡ left.old) × (right.new ≡ right.old) × (store.new ≡ store.old)) }
        ensures row { IfOk result (λ d. (t : Tree) × (outcome self.now limits.now store.old left.old right.old ≡ answers t)) }
        ensures refusal { IfErr result (λ e. IsOutcome (MayWant self.now left.old right.old) (Err e) (outcome self.now limits.now store.old left.old right.old)) }
    {
        self.call_row(alloc, store, limits, left, right)
    }

    /// The same, without the contract that relates the result to the row. It has no locals, since a
    /// function clears its locals at entry: functions that would bring some aren't inlined.
    #[inline(always)]
    fn call_row(
        &self,
        alloc: Global,
        store: &mut Store,
        limits: &Limits,
        left: &mut Dynamic,
        right: &mut Dynamic,
    ) -> Result<Dynamic, EvalAltResult>
        requires { Suits self.now store.old left.old right.old }
        ensures result { IsOutcome (MayWant self.now left.old right.old) result (answered (effect self.now) (outcome self.now limits.now store.old left.old right.old)) }
        ensures first { IfOk result (λ d. left.new ≡ first_left (effect self.now) (outcome self.now limits.now store.old left.old right.old) store.old left.old) }
        ensures second { IfOk result (λ d. right.new ≡ second_left (effect self.now) (outcome self.now limits.now store.old left.old right.old) right.old) }
        ensures store { IfOk result (λ d. store.new ≡ store_left (effect self.now) (outcome self.now limits.now store.old left.old right.old) store.old left.old) }
        ensures err { IfErr result (λ e. (left.new ≡ left.old) × (right.new ≡ right.old) × (store.new ≡ store.old)) }
    {
        if let Some(answer) = self.own_answer(store, limits, left, right) {
            return answer;
        }
        if let FnBuiltin::IntAssign(t) = *self {
            if let Some(j) = own_int(right) {
                return ints::assign_number(t, store, left, j);
            }
        }
        match *self {
            // `return` passes the result on directly; as the value of the match it would be written
            // to a local shared by all arms, and read again
            FnBuiltin::Int(_)
            | FnBuiltin::IntCompare(_)
            | FnBuiltin::IntRange(_)
            | FnBuiltin::BoolCompare(_)
            | FnBuiltin::Bool(_)
            | FnBuiltin::TextJoin
            | FnBuiltin::TextMinus
            | FnBuiltin::TextCompare(_)
            | FnBuiltin::CharJoin
            | FnBuiltin::CharCompare(_)
            | FnBuiltin::BlobJoin
            | FnBuiltin::BlobEqual(_)
            | FnBuiltin::ConstTrue
            | FnBuiltin::ConstFalse
            | FnBuiltin::RangeFrom(_)
            | FnBuiltin::RangeTo(_)
            | FnBuiltin::CharText
            | FnBuiltin::CharTextCompare(_)
            | FnBuiltin::TextChar
            | FnBuiltin::TextMinusChar
            | FnBuiltin::TextCharCompare(_)
            | FnBuiltin::FirstCopy
            | FnBuiltin::SecondCopy
            | FnBuiltin::BlobChar
            | FnBuiltin::RangeEqual(_, _) => return self.call_on_any(
                alloc, store, limits, left, right,
            ),
            FnBuiltin::IntAssign(t) => ints::assign(t, store, left, right),
            FnBuiltin::BoolAssign(t) => assign::bits(t, store, left, right),
            FnBuiltin::CharJoinAssign => assign::two_chars(alloc, store, left, right),
            FnBuiltin::TextJoinAssign => grow::text_and_text(alloc, store, limits, left, right),
            FnBuiltin::TextMinusAssign => assign::text_minus_text(alloc, store, left, right),
            FnBuiltin::ArrayAppend => push::append_items(alloc, limits, store, left, right),
            FnBuiltin::BlobAppend => push::append_blob(alloc, limits, store, left, right),
            FnBuiltin::TextCharAssign => grow::text_and_char(alloc, store, limits, left, right),
            FnBuiltin::TextMinusCharAssign => assign::text_minus_char(alloc, store, left, right),
            FnBuiltin::CharTextAssign => assign::char_and_text(alloc, store, limits, left, right),
            FnBuiltin::ArrayPush => push::push_item(limits, store, left, right),
            FnBuiltin::BlobPush => push::push_byte(limits, store, left, right),
            FnBuiltin::BlobCharAssign => {
                let character = value(right, store);
                push::push_char(limits, store, left, character)
            }
            FnBuiltin::BlobTextAssign => push::append_text(alloc, limits, store, left, right),
        }
    }

    /// Calls the row of an operator on these operands, which are only read: returns what `call`
    /// does.
    /// Errors: those of `call`.
    /// Cost: that of `call`.
    #[inline(always)]
    pub fn call_ref(
        &self,
        alloc: Global,
        store: &Store,
        limits: &Limits,
        left: &Dynamic,
        right: &Dynamic,
    ) -> Result<Dynamic, EvalAltResult>
        requires operator { effect self.now ≡ operator }
        requires suits { Suits self.now store.now left.now right.now }
        ensures { IsOutcome (MayWant self.now left.now right.now) result (outcome self.now limits.now store.now left.now right.now) }
    {
        if let Some(answer) = self.own_answer(store, limits, left, right) {
            return answer;
        }
        self.call_on_any(alloc, store, limits, left, right)
    }

    /// Calls the row of an operator on any operands.
    #[inline(always)]
    fn call_on_any(
        &self,
        alloc: Global,
        store: &Store,
        limits: &Limits,
        left: &Dynamic,
        right: &Dynamic,
    ) -> Result<Dynamic, EvalAltResult>
        requires operator { effect self.now ≡ operator }
        requires suits { Suits self.now store.now left.now right.now }
        ensures { IsOutcome (MayWant self.now left.now right.now) result (outcome self.now limits.now store.now left.now right.now) }
    {
        match *self {
            FnBuiltin::Int(t) => ints::answer(t, store, left, right),
            FnBuiltin::IntCompare(t) => ints::compare(t, store, left, right),
            FnBuiltin::IntRange(i) => ranges::between(i, value(left, store), value(right, store)),
            FnBuiltin::BoolCompare(t) => bools::compare(t, value(left, store), value(right, store)),
            FnBuiltin::Bool(t) => bools::answer(t, value(left, store), value(right, store)),
            FnBuiltin::TextJoin => texts::join(alloc, limits, store, left, right),
            FnBuiltin::TextMinus => texts::minus(alloc, store, left, right),
            FnBuiltin::TextCompare(t) => texts::compare(t, store, left, right),
            FnBuiltin::CharJoin => chars::join(
                alloc,
                limits,
                value(left, store),
                value(right, store),
            ),
            FnBuiltin::CharCompare(t) => chars::compare(t, value(left, store), value(right, store)),
            FnBuiltin::BlobJoin => blobs::join(alloc, store, limits, left, right),
            FnBuiltin::BlobEqual(n) => blobs::equal(n, store, left, right),
            FnBuiltin::ConstTrue => Ok(Dynamic::TRUE),
            FnBuiltin::ConstFalse => Ok(Dynamic::FALSE),
            FnBuiltin::RangeFrom(i) => ranges::between(i, value(left, store), INT::MAX),
            FnBuiltin::RangeTo(i) => ranges::between(i, 0, value(right, store)),
            FnBuiltin::CharText => chars::join_text(
                alloc,
                limits,
                value(left, store),
                part(right, store),
            ),
            FnBuiltin::CharTextCompare(t) => chars::compare_text(
                t,
                value(left, store),
                part(right, store),
            ),
            FnBuiltin::TextChar => texts::join_char(alloc, limits, store, left, right),
            FnBuiltin::TextMinusChar => texts::minus_char(alloc, store, left, right),
            FnBuiltin::TextCharCompare(t) => texts::compare_char(t, store, left, right),
            FnBuiltin::FirstCopy => copied(alloc, left),
            FnBuiltin::SecondCopy => copied(alloc, right),
            FnBuiltin::BlobChar => blobs::join_char(alloc, limits, store, left, right),
            FnBuiltin::RangeEqual(false, n) => ranges::equal_exclusive(n, store, left, right),
            FnBuiltin::RangeEqual(true, n) => ranges::equal_inclusive(n, store, left, right),
            // Rows of operators and of assignments have one type, since look-ups return both; the
            // `requires` demands an operator's.
            FnBuiltin::IntAssign(_)
            | FnBuiltin::BoolAssign(_)
            | FnBuiltin::CharJoinAssign
            | FnBuiltin::TextJoinAssign
            | FnBuiltin::TextMinusAssign
            | FnBuiltin::ArrayAppend
            | FnBuiltin::BlobAppend
            | FnBuiltin::TextCharAssign
            | FnBuiltin::TextMinusCharAssign
            | FnBuiltin::CharTextAssign
            | FnBuiltin::ArrayPush
            | FnBuiltin::BlobPush
            | FnBuiltin::BlobCharAssign
            | FnBuiltin::BlobTextAssign => unreachable!(),
        }
    }

    /// The result of a row on the operands' own contents, if these are ints or texts that it
    /// compares, as most are.
    #[inline(always)]
    fn own_answer(
        &self,
        store: &Store,
        limits: &Limits,
        left: &Dynamic,
        right: &Dynamic,
    ) -> Option<Result<Dynamic, EvalAltResult>>
        requires { Suits self.now store.now left.now right.now }
        ensures outcome { IfSome result (λ answer. IsOutcome ⊥ answer (outcome self.now limits.now store.now left.now right.now)) }
        ensures operator { IfSome result (λ _. effect self.now ≡ operator) }
    {
        if let FnBuiltin::Int(t) = *self {
            if let Some(i) = own_int(left) {
                if let Some(j) = own_int(right) {
                    return Some(ints::answer_numbers(t, i, j));
                }
            }
        }
        if let FnBuiltin::IntCompare(t) = *self {
            if let Some(i) = own_int(left) {
                if let Some(j) = own_int(right) {
                    return Some(ints::compare_numbers(t, i, j));
                }
            }
        }
        if let FnBuiltin::TextCompare(t) = *self {
            if let Some(a) = own_text(left) {
                if let Some(b) = own_text(right) {
                    return Some(texts::compare_two(t, a, b));
                }
            }
        }
        None
    }

    /// The order by which a row compares; `None` for other rows.
    pub(crate) fn order(self, left: &Dynamic, right: &Dynamic, store: &Store) -> Option<Ordering>
        requires { Suits self store.now left.now right.now }
        ensures { result ≡ row_order self store.now left.now right.now }
    {
        match self {
            FnBuiltin::IntCompare(_) => Some(value::<INT>(left, store).cmp(&value::<INT>(
                right, store,
            ))),
            FnBuiltin::BoolCompare(_) => Some(value::<bool>(left, store).cmp(&value::<bool>(
                right, store,
            ))),
            FnBuiltin::TextCompare(_) => Some(part::<ImmutableString>(left, store).cmp(part::<
                ImmutableString,
            >(right, store))),
            FnBuiltin::CharCompare(_) => Some(value::<char>(left, store).cmp(&value::<char>(
                right, store,
            ))),
            FnBuiltin::CharTextCompare(_) => Some(chars::text_order_of(
                value(left, store),
                part(right, store),
            )),
            FnBuiltin::TextCharCompare(_) => Some(texts::char_order_of(
                part(left, store),
                value(right, store),
            )),
            FnBuiltin::Int(_)
            | FnBuiltin::IntRange(_)
            | FnBuiltin::Bool(_)
            | FnBuiltin::TextJoin
            | FnBuiltin::TextMinus
            | FnBuiltin::CharJoin
            | FnBuiltin::BlobJoin
            | FnBuiltin::BlobEqual(_)
            | FnBuiltin::ConstTrue
            | FnBuiltin::ConstFalse
            | FnBuiltin::RangeFrom(_)
            | FnBuiltin::RangeTo(_)
            | FnBuiltin::CharText
            | FnBuiltin::TextChar
            | FnBuiltin::TextMinusChar
            | FnBuiltin::FirstCopy
            | FnBuiltin::SecondCopy
            | FnBuiltin::BlobChar
            | FnBuiltin::RangeEqual(_, _)
            | FnBuiltin::IntAssign(_)
            | FnBuiltin::BoolAssign(_)
            | FnBuiltin::CharJoinAssign
            | FnBuiltin::TextJoinAssign
            | FnBuiltin::TextMinusAssign
            | FnBuiltin::ArrayAppend
            | FnBuiltin::BlobAppend
            | FnBuiltin::TextCharAssign
            | FnBuiltin::TextMinusCharAssign
            | FnBuiltin::CharTextAssign
            | FnBuiltin::ArrayPush
            | FnBuiltin::BlobPush
            | FnBuiltin::BlobCharAssign
            | FnBuiltin::BlobTextAssign => None,
        }
    }
}

/// A copy of an operand.
#[inline(never)]
fn copied(alloc: Global, value: &Dynamic) -> Result<Dynamic, EvalAltResult>
    ensures { IsOutcome (TakesNoMemory value.now → ⊥) result (answers (copy value.now)) }
{
    Ok(value.copy(alloc)?)
}
