//! `switch`: the tests of all cases first, then the code of each case.

use crate::compiler::Compiler;
use crate::error::CodeError;
use crate::expressions::small_int;
use crate::operations::{Op, Slot};
use crate::program::Place;
use crate::tables::to_number;
use rhai_text::{Position, Token};
use script_tree::{Case, Expr, INT, Pattern, Switch};

/// The operands of a `switch`'s tests.
#[derive(Clone, Copy)]
struct Tested {
    /// The slot of the value.
    value: Slot,
    /// The slot of the name of its type, if a test needs it.
    kind: Slot,
    /// The slot that says whether a literal was equal to the value, if ranges are tested
    /// afterwards.
    is_met: Option<Slot>,
    position: Position,
}

/// Returns the type name for a literal that can be equal to a value of another type.
fn asked_type(literal: &Expr) -> Option<&'static str> {
    if let Expr::Char(_) = literal {
        return Some("char");
    }
    if let Expr::Text(text) = literal {
        if text.as_str().chars().count() == 1 {
            return Some("string");
        }
    }
    None
}

/// Whether a pattern needs the type of the value.
fn asks_type(pattern: &Pattern) -> bool {
    match pattern {
        Pattern::Literal(literal) => asked_type(literal).is_some(),
        Pattern::Range { .. } => true,
    }
}

/// Whether a pattern of the cases needs the type of the value.
fn ask_type(cases: &[Case]) -> bool {
    for case in cases {
        if case.patterns.iter().any(asks_type) {
            return true;
        }
    }
    false
}

/// Whether a pattern of the cases is a range.
fn have_range(cases: &[Case]) -> bool {
    for case in cases {
        for pattern in case.patterns.iter() {
            if let Pattern::Range { .. } = pattern {
                return true;
            }
        }
    }
    false
}

/// Whether a case has a guard.
fn have_guard(cases: &[Case]) -> bool {
    for case in cases {
        if case.guard.is_some() {
            return true;
        }
    }
    false
}

impl<'p> Compiler<'p> {
    /// Compiles a `switch`: runs the selected case, if there is one.
    pub(crate) fn switch<P>(
        &mut self,
        switch: &Switch,
        to: Option<Slot>,
        levels: u32,
        parts: &P,
    ) -> Result<(), CodeError>
    where
        P: Fn(&mut Compiler, &Expr, Option<Slot>, u32) -> Result<(), CodeError>,
        requires { P.IsAlwaysCallable parts.now }
    {
        let tested = self.tested(switch, levels, parts)?;
        let mut bodies = Vec::new(self.alloc);
        for case in switch.cases.iter() {
            bodies.push(self.test_literals(case, tested, levels, parts)?)?;
        }
        if let Some(is_met) = tested.is_met {
            let mut misses = Vec::new(self.alloc);
            misses.push(self.emit_at(Op::JumpIf(is_met, 0), tested.position)?)?;
            misses.push(self.unless_type("i64", tested)?)?;
            for (number, case) in switch.cases.iter().enumerate() {
                let jumps = self.test_ranges(case, tested, levels, parts)?;
                if let Some(body) = bodies.get_mut(number) {
                    for jump in jumps {
                        body.push(jump)?;
                    }
                }
            }
            self.land(misses.as_slice())?;
        }
        self.do_cases(switch, bodies, to, levels, parts)
    }

    /// Compiles the code of the cases, after the tests: if no case matches, execution falls through
    /// to the default.
    fn do_cases<P>(
        &mut self,
        switch: &Switch,
        bodies: Vec<Vec<usize>>,
        to: Option<Slot>,
        levels: u32,
        parts: &P,
    ) -> Result<(), CodeError>
    where
        P: Fn(&mut Compiler, &Expr, Option<Slot>, u32) -> Result<(), CodeError>,
        requires { P.IsAlwaysCallable parts.now }
    {
        let mut ends = Vec::new(self.alloc);
        match (&switch.otherwise, to) {
            (Some(block), to) => self.block(block, to, levels, parts)?,
            (None, Some(to)) => {
                self.emit(Op::Unit(to))?;
            }
            (None, None) => {}
        }
        ends.push(self.emit(Op::Jump(0))?)?;
        for (case, body) in switch.cases.iter().zip(bodies) {
            self.land(body.as_slice())?;
            self.block(&case.body, to, levels, parts)?;
            ends.push(self.emit(Op::Jump(0))?)?;
        }
        self.land(ends.as_slice())
    }

    /// Compiles the value, and the other operands of the tests.
    fn tested<P>(&mut self, switch: &Switch, levels: u32, parts: &P) -> Result<Tested, CodeError>
    where
        P: Fn(&mut Compiler, &Expr, Option<Slot>, u32) -> Result<(), CodeError>,
        requires { P.IsAlwaysCallable parts.now }
    {
        let cases = switch.cases.as_slice();
        let value = self.operand(&switch.value, !have_guard(cases), levels, parts)?;
        let kind = self.take_slot()?;
        if ask_type(cases) {
            let number = to_number(switch.type_of)?;
            self.emit_at(Op::NativeOn(kind, value, number), switch.position)?;
        }
        let is_met = if have_range(cases) {
            let is_met = self.take_slot()?;
            self.emit(Op::Bool(is_met, false))?;
            Some(is_met)
        } else {
            None
        };
        Ok(Tested {
            value,
            kind,
            is_met,
            position: switch.position,
        })
    }

    /// Compiles the tests of a case's literals, and returns the jumps to its code.
    fn test_literals<P>(
        &mut self,
        case: &Case,
        tested: Tested,
        levels: u32,
        parts: &P,
    ) -> Result<Vec<usize>, CodeError>
    where
        P: Fn(&mut Compiler, &Expr, Option<Slot>, u32) -> Result<(), CodeError>,
        requires { P.IsAlwaysCallable parts.now }
    {
        let mut hits = Vec::new(self.alloc);
        for pattern in case.patterns.iter() {
            if let Pattern::Literal(literal) = pattern {
                self.test_literal(literal, tested, &mut hits, levels, parts)?;
            }
        }
        self.guarded(case, hits, tested.is_met, levels, parts)
    }

    /// Compiles the tests of a case's ranges, and returns the jumps to its code.
    fn test_ranges<P>(
        &mut self,
        case: &Case,
        tested: Tested,
        levels: u32,
        parts: &P,
    ) -> Result<Vec<usize>, CodeError>
    where
        P: Fn(&mut Compiler, &Expr, Option<Slot>, u32) -> Result<(), CodeError>,
        requires { P.IsAlwaysCallable parts.now }
    {
        let mut hits = Vec::new(self.alloc);
        for pattern in case.patterns.iter() {
            if let Pattern::Range {
                first,
                last,
                is_inclusive,
            } = pattern
            {
                self.test_range(*first, *last, *is_inclusive, tested, &mut hits)?;
            }
        }
        self.guarded(case, hits, None, levels, parts)
    }

    /// Compiles the guard of a matching case, and returns the jumps to its code.
    fn guarded<P>(
        &mut self,
        case: &Case,
        hits: Vec<usize>,
        is_met: Option<Slot>,
        levels: u32,
        parts: &P,
    ) -> Result<Vec<usize>, CodeError>
    where
        P: Fn(&mut Compiler, &Expr, Option<Slot>, u32) -> Result<(), CodeError>,
        requires { P.IsAlwaysCallable parts.now }
    {
        let Some(guard) = &case.guard else {
            return Ok(hits);
        };
        let mut jumps = Vec::new(self.alloc);
        if hits.is_empty() {
            return Ok(jumps);
        }
        let skip = self.emit(Op::Jump(0))?;
        self.land(hits.as_slice())?;
        if let Some(is_met) = is_met {
            self.emit(Op::Bool(is_met, true))?;
        }
        self.condition(guard, true, case.guard_position, &mut jumps, levels, parts)?;
        self.land(&[skip])?;
        Ok(jumps)
    }

    /// Jumps if the value equals a literal.
    fn test_literal<P>(
        &mut self,
        literal: &Expr,
        tested: Tested,
        hits: &mut Vec<usize>,
        levels: u32,
        parts: &P,
    ) -> Result<(), CodeError>
    where
        P: Fn(&mut Compiler, &Expr, Option<Slot>, u32) -> Result<(), CodeError>,
        requires { P.IsAlwaysCallable parts.now }
    {
        let top = self.top;
        if let Some(int) = small_int(literal) {
            let place = self.compared(Token::EqualsTo, tested);
            hits.push(self.emit_with(Op::JumpEqualInt(tested.value, int, 0), place)?)?;
            return Ok(());
        }
        let mut misses = Vec::new(self.alloc);
        if let Some(name) = asked_type(literal) {
            misses.push(self.unless_type(name, tested)?)?;
        }
        let slot = self.operand(literal, true, levels, parts)?;
        let place = self.compared(Token::EqualsTo, tested);
        hits.push(self.emit_with(Op::JumpEqual(tested.value, slot, 0), place)?)?;
        self.top = top;
        self.land(misses.as_slice())
    }

    /// Jumps if the value, an int, is in a range.
    fn test_range(
        &mut self,
        first: INT,
        last: INT,
        is_inclusive: bool,
        tested: Tested,
        hits: &mut Vec<usize>,
    ) -> Result<(), CodeError> {
        let top = self.top;
        let bound = self.take_slot()?;
        self.int(first, bound)?;
        let place = self.compared(Token::LessThan, tested);
        let miss = self.emit_with(Op::JumpLess(tested.value, bound, 0), place)?;
        self.int(last, bound)?;
        let hit = if is_inclusive {
            let place = self.compared(Token::LessThanEqualsTo, tested);
            self.emit_with(Op::JumpAtMost(tested.value, bound, 0), place)?
        } else {
            let place = self.compared(Token::LessThan, tested);
            self.emit_with(Op::JumpLess(tested.value, bound, 0), place)?
        };
        hits.push(hit)?;
        self.top = top;
        self.land(&[miss])
    }

    /// Jumps if the value has another type than the one with this name.
    fn unless_type(&mut self, name: &str, tested: Tested) -> Result<usize, CodeError> {
        let top = self.top;
        let slot = self.take_slot()?;
        let number = self.text(name)?;
        self.emit(Op::Text(slot, number))?;
        let place = self.compared(Token::NotEqualsTo, tested);
        let jump = self.emit_with(Op::JumpUnequal(tested.kind, slot, 0), place)?;
        self.top = top;
        Ok(jump)
    }

    /// Makes the place of a jump that is taken if a comparison holds.
    fn compared(&self, token: Token, tested: Tested) -> Place {
        Place {
            position: tested.position,
            token,
            flag: true,
            ..self.place()
        }
    }
}
