//! Whether the evaluation of an expression leaves a variable unchanged, so that the variable may be
//! read after it instead of before.

use crate::host_calls::host_changes;
use crate::meaning::{HostName, Meaning, meaning_of};
use script_tree::{Expr, Field, Program, Slot, Step, Term, Variable};

/// A variable, in the form that these tests use.
#[derive(Clone, Copy)]
pub(crate) struct Watched<'p> {
    pub(crate) program: &'p Program,
    pub(crate) host: &'p [HostName],
    pub(crate) slot: Slot,
    /// Whether no anonymous function shares it.
    pub(crate) is_plain: bool,
}

/// Returns the variable that an expression is.
pub(crate) fn known_variable(expr: &Expr) -> Option<Slot> {
    if let Expr::Variable {
        variable: Variable::Known(slot),
        position: _,
    } = expr
    {
        Some(*slot)
    } else {
        None
    }
}

/// Whether an expression is this variable.
pub(crate) fn is_variable(expr: &Expr, slot: Slot) -> bool {
    match known_variable(expr) {
        Some(known) => known == slot,
        None => false,
    }
}

impl<'p> Watched<'p> {
    /// Whether each of the expressions leaves it unchanged.
    #[cycle(quiet)]
    pub(crate) fn stays_in_all(&self, parts: &[Expr]) -> bool {
        for part in parts {
            if !self.stays(part) {
                return false;
            }
        }
        true
    }

    #[cycle(quiet)]
    fn stays_in_fields(&self, fields: &[Field]) -> bool {
        for field in fields {
            if !self.stays(&field.value) {
                return false;
            }
        }
        true
    }

    /// Whether the operands of terms leave it unchanged.
    #[cycle(quiet)]
    pub(crate) fn stays_in_terms(&self, terms: &[Term]) -> bool {
        for term in terms {
            if !self.stays(&term.operand) {
                return false;
            }
        }
        true
    }

    /// Whether steps leave it unchanged; the flag says whether it is their root.
    #[cycle(quiet)]
    pub(crate) fn stays_in_steps(&self, steps: &[Step], is_root: bool) -> bool {
        for step in steps {
            let stays = match step {
                Step::Index { index, position: _ } => self.stays(index),
                Step::Property { .. } | Step::Optional { .. } => true,
                Step::Method {
                    callee: _,
                    arguments,
                    position: _,
                } => self.stays_in_all(arguments) && self.stays_in_method(is_root),
            };
            if !stays {
                return false;
            }
        }
        true
    }

    /// Whether a method leaves it unchanged; the flag says whether it is the receiver. Any method
    /// may be one of the script's.
    fn stays_in_method(&self, is_first: bool) -> bool {
        self.is_plain && !is_first
    }

    /// Whether a callee leaves it unchanged; the flag says whether it is the first argument.
    fn stays_in_call(&self, callee: usize, is_first: bool) -> bool {
        let Some(callee) = self.program.callees.get(callee) else {
            return false;
        };
        match meaning_of(callee.name.as_str(), callee.arguments, self.host) {
            Meaning::Print
            | Meaning::Debug
            | Meaning::IsShared
            | Meaning::IsVariable
            | Meaning::IsFunction
            | Meaning::Curry
            | Meaning::Exit => true,
            Meaning::Native(native) => !is_first || !native.may_change(),
            Meaning::Call | Meaning::Each(_) | Meaning::Search => self.is_plain,
            Meaning::Host(number) => self.is_plain
                && !(is_first && host_changes(self.host, number)),
            Meaning::Sort | Meaning::Sift(_) => self.is_plain && !is_first,
        }
    }

    #[cycle(quiet)]
    fn stays_in_arguments(&self, callee: usize, arguments: &[Expr]) -> bool {
        if !self.stays_in_all(arguments) {
            return false;
        }
        let is_script = match self.program.callees.get(callee) {
            Some(callee) => callee.function.is_some(),
            None => false,
        };
        if is_script {
            return self.is_plain;
        }
        match arguments.first() {
            Some(first) => self.stays_in_call(callee, is_variable(first, self.slot)),
            None => self.is_plain,
        }
    }

    /// Whether the evaluation of an expression certainly leaves it unchanged.
    #[cycle(quiet)]
    pub(crate) fn stays(&self, expr: &Expr) -> bool {
        match expr {
            Expr::Unit
            | Expr::Bool(_)
            | Expr::Int(_)
            | Expr::Char(_)
            | Expr::Text(_)
            | Expr::Variable { .. }
            | Expr::Closure { .. } => true,
            Expr::Array(items) => self.stays_in_all(items),
            Expr::Object(fields) => self.stays_in_fields(fields),
            Expr::Unary { operand, .. } => self.stays(operand),
            Expr::Run { first, rest } => self.stays(first) && self.stays_in_terms(rest),
            Expr::Contains {
                callee,
                operands,
                ..
            } => self.stays_in_all(operands) && self.stays_in_call(*callee, false),
            Expr::Chain { root, steps } => {
                self.stays(root) && self.stays_in_steps(steps, is_variable(root, self.slot))
            }
            Expr::Call {
                callee,
                arguments,
                ..
            } => self.stays_in_arguments(*callee, arguments),
            Expr::Block(_)
            | Expr::If { .. }
            | Expr::Switch(_)
            | Expr::While(_)
            | Expr::Do(_, _)
            | Expr::Loop(_)
            | Expr::For { .. }
            | Expr::Let { .. }
            | Expr::Assign { .. }
            | Expr::Break(_)
            | Expr::Continue
            | Expr::Return(_)
            | Expr::Throw(_, _)
            | Expr::Try { .. } => false,
        }
    }
}
