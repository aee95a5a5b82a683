//! The shape of a tree, as a text.

use rhai_text::Token;
use script_syntax::Symbol;
use script_tree::{
    Arm, Block, Case, Expr, Field, Operator, Pattern, Program, Slot, Step, Switch, Term,
    UnaryOperator, Variable,
};
use std::alloc::AllocError;

/// Adds the shape of a script's body, and then of its functions.
pub(crate) fn add_program(out: &mut String, program: &Program) -> Result<(), AllocError> {
    add_all(out, &program.body.statements)?;
    for function in program.functions.iter() {
        let (captured, parameters, slots) = (
            function.captured,
            function.parameters,
            function.slots,
        );
        write!(out, " | {captured} {parameters} {slots}")?;
        if let Some(this_type) = &function.this_type {
            let this_type = this_type.as_str();
            write!(out, " of {this_type}")?;
        }
        out.push_str(":")?;
        add_all(out, &function.body.statements)?;
    }
    Ok(())
}

#[cycle(shape)]
fn add_all(out: &mut String, parts: &[Expr]) -> Result<(), AllocError> {
    for part in parts {
        out.push_str(" ")?;
        add(out, part)?;
    }
    Ok(())
}

#[cycle(shape)]
fn add(out: &mut String, part: &Expr) -> Result<(), AllocError> {
    match part {
        Expr::Unit => out.push_str("()"),
        Expr::Bool(value) => write!(out, "{value}"),
        Expr::Int(value) => write!(out, "{value}"),
        Expr::Char(value) => write!(out, "'{value}'"),
        Expr::Text(text) => {
            let text = text.as_str();
            write!(out, "<{text}>")
        }
        Expr::Variable { variable, .. } => add_variable(out, variable),
        Expr::Array(items) => add_named(out, "array", items),
        Expr::Object(fields) => add_fields(out, fields),
        Expr::Unary {
            operator,
            operand,
            ..
        } => add_unary(out, *operator, operand),
        Expr::Run { first, rest } => {
            out.push_str("(")?;
            add(out, first)?;
            add_terms(out, rest)
        }
        Expr::Contains { operands, .. } => add_named(out, "contains", operands),
        Expr::Chain { root, steps } => {
            add(out, root)?;
            add_steps(out, steps)
        }
        Expr::Call {
            callee,
            arguments,
            ..
        } => {
            write!(out, "call{callee}")?;
            add_named(out, "", arguments)
        }
        Expr::Closure {
            function,
            captured,
            missing,
            ..
        } => match missing {
            Some(missing) => {
                let name = missing.name.as_str();
                write!(out, "no {name}")
            }
            None => add_closure(out, *function, captured),
        },
        Expr::Block(block) => add_block(out, "block", block),
        Expr::If { arms, otherwise } => {
            add_arms(out, arms)?;
            add_otherwise(out, otherwise)
        }
        Expr::Switch(switch) => add_switch(out, switch),
        Expr::While(arm) => add_arm(out, "while", arm),
        Expr::Do(arm, goes_on) => {
            write!(out, "{goes_on} ")?;
            add_arm(out, "do", arm)
        }
        Expr::Loop(block) => add_block(out, "loop", block),
        Expr::For {
            item,
            source,
            body,
            ..
        } => {
            write!(out, "for {item} ")?;
            add(out, source)?;
            add_block(out, "", body)
        }
        Expr::Let { slot, value, .. } => {
            write!(out, "let {slot}")?;
            add_value(out, value)
        }
        Expr::Assign {
            variable,
            steps,
            operator,
            value,
            ..
        } => {
            let has_operator = operator.is_some();
            write!(out, "set {has_operator} ")?;
            add_variable(out, variable)?;
            add_steps(out, steps)?;
            out.push_str(" ")?;
            add(out, value)
        }
        Expr::Break(value) => {
            out.push_str("break")?;
            add_value(out, value)
        }
        Expr::Continue => out.push_str("continue"),
        Expr::Return(value) => {
            out.push_str("return")?;
            add_value(out, value)
        }
        Expr::Throw(value, _) => {
            out.push_str("throw")?;
            add_value(out, value)
        }
        Expr::Try { body, handler, .. } => {
            add_block(out, "try", body)?;
            add_block(out, "catch", handler)
        }
    }
}

fn add_variable(out: &mut String, variable: &Variable) -> Result<(), AllocError> {
    match variable {
        Variable::Known(Slot::Own(slot)) => write!(out, "#{slot}"),
        Variable::Known(Slot::Captured(number)) => write!(out, "^{number}"),
        Variable::Known(Slot::This) => out.push_str("this"),
        Variable::Unknown(name) => out.push_str(name.as_str()),
    }
}

#[cycle(shape)]
fn add_named(out: &mut String, name: &str, parts: &[Expr]) -> Result<(), AllocError> {
    write!(out, "({name}")?;
    add_all(out, parts)?;
    out.push_str(")")
}

#[cycle(shape)]
fn add_block(out: &mut String, name: &str, block: &Block) -> Result<(), AllocError> {
    let (first, end) = (block.first_slot, block.end_slot);
    write!(out, "({name} {first}..{end}")?;
    add_all(out, &block.statements)?;
    out.push_str(")")
}

#[cycle(shape)]
fn add_arm(out: &mut String, name: &str, arm: &Arm) -> Result<(), AllocError> {
    write!(out, "({name} ")?;
    add(out, &arm.condition)?;
    add_block(out, "", &arm.body)?;
    out.push_str(")")
}

#[cycle(shape)]
fn add_arms(out: &mut String, arms: &[Arm]) -> Result<(), AllocError> {
    for arm in arms {
        add_arm(out, "if", arm)?;
    }
    Ok(())
}

#[cycle(shape)]
fn add_otherwise(out: &mut String, otherwise: &Option<Block>) -> Result<(), AllocError> {
    match otherwise {
        Some(block) => add_block(out, "else", block),
        None => Ok(()),
    }
}

#[cycle(shape)]
fn add_switch(out: &mut String, switch: &Switch) -> Result<(), AllocError> {
    out.push_str("(switch ")?;
    add(out, &switch.value)?;
    for case in switch.cases.iter() {
        add_case(out, case)?;
    }
    add_otherwise(out, &switch.otherwise)?;
    out.push_str(")")
}

#[cycle(shape)]
fn add_case(out: &mut String, case: &Case) -> Result<(), AllocError> {
    out.push_str(" (case")?;
    for pattern in case.patterns.iter() {
        out.push_str(" ")?;
        add_pattern(out, pattern)?;
    }
    if let Some(guard) = &case.guard {
        out.push_str(" if ")?;
        add(out, guard)?;
    }
    add_block(out, "do", &case.body)?;
    out.push_str(")")
}

#[cycle(shape)]
fn add_pattern(out: &mut String, pattern: &Pattern) -> Result<(), AllocError> {
    match pattern {
        Pattern::Literal(literal) => add(out, literal),
        Pattern::Range {
            first,
            last,
            is_inclusive,
        } => {
            let sign = if *is_inclusive { "..=" } else { ".." };
            write!(out, "{first}{sign}{last}")
        }
    }
}

#[cycle(shape)]
fn add_value(out: &mut String, value: &Option<Box<Expr>>) -> Result<(), AllocError> {
    match value {
        Some(value) => {
            out.push_str(" ")?;
            add(out, value)
        }
        None => Ok(()),
    }
}

#[cycle(shape)]
fn add_fields(out: &mut String, fields: &[Field]) -> Result<(), AllocError> {
    out.push_str("(map")?;
    for field in fields {
        let key = field.key.as_str();
        write!(out, " {key}=")?;
        add(out, &field.value)?;
    }
    out.push_str(")")
}

#[cycle(shape)]
fn add_unary(out: &mut String, operator: UnaryOperator, operand: &Expr) -> Result<(), AllocError> {
    out.push_str(match operator {
        UnaryOperator::Not => "!",
        UnaryOperator::Minus => "-",
        UnaryOperator::Plus => "+",
    })?;
    add(out, operand)
}

fn symbol_of(operator: Operator) -> Symbol {
    match operator {
        Operator::And => Symbol::And,
        Operator::Or => Symbol::Or,
        Operator::Coalesce => Symbol::Coalesce,
        Operator::Plain(token) => Symbol::Operator(token),
    }
}

#[cycle(shape)]
fn add_terms(out: &mut String, terms: &[Term]) -> Result<(), AllocError> {
    for term in terms {
        let symbol = symbol_of(term.operator);
        write!(out, " {symbol} ")?;
        add(out, &term.operand)?;
    }
    out.push_str(")")
}

#[cycle(shape)]
fn add_steps(out: &mut String, steps: &[Step]) -> Result<(), AllocError> {
    for step in steps {
        match step {
            Step::Index { index, .. } => {
                out.push_str("[")?;
                add(out, index)?;
                out.push_str("]")?;
            }
            Step::Property { key, .. } => {
                let key = key.as_str();
                write!(out, ".{key}")?;
            }
            Step::Optional { .. } => out.push_str("?")?,
            Step::Method {
                callee,
                arguments,
                ..
            } => {
                write!(out, ".method{callee}")?;
                add_named(out, "", arguments)?;
            }
        }
    }
    Ok(())
}

fn add_closure(out: &mut String, function: usize, captured: &[Slot]) -> Result<(), AllocError> {
    write!(out, "closure{function}(")?;
    for slot in captured {
        match slot {
            Slot::Own(slot) => write!(out, "#{slot} ")?,
            Slot::Captured(number) => write!(out, "^{number} ")?,
            Slot::This => out.push_str("this ")?,
        }
    }
    out.push_str(")")
}
