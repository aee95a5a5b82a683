//! Expressions as rows of words: operands come before their operator.

use rhai_lines::command;
use rhai_run::{Command, Expr};
use rhai_text::{ImmutableString, Token};
use std::alloc::{AllocError, Global};

fn token_of(word: &str) -> Result<Token, AllocError> {
    match word {
        "+" => Ok(Token::Plus),
        "-" => Ok(Token::Minus),
        "*" => Ok(Token::Multiply),
        "+=" => Ok(Token::PlusAssign),
        _ => Err(AllocError),
    }
}

fn operand(alloc: Global, made: &mut Vec<Expr>) -> Result<Box<Expr>, AllocError> {
    match made.pop() {
        Some(expr) => Ok(Box::new(alloc, expr)?),
        None => Err(AllocError),
    }
}

fn operands(made: &mut Vec<Expr>, count: &str) -> Result<Vec<Expr>, AllocError> {
    match count.parse::<usize>() {
        Ok(count) if count <= made.len() => {
            let before = made.len() - count;
            made.split_off(before)
        }
        _ => Err(AllocError),
    }
}

fn names_of(alloc: Global, words: &str) -> Result<Vec<ImmutableString>, AllocError> {
    let mut names = Vec::new(alloc);
    for word in words.split(' ').filter(|word| !word.is_empty()) {
        names.push(ImmutableString::from_str(alloc, word)?)?;
    }
    Ok(names)
}

/// Reads an operator, or an assignment and the name that it applies to.
fn operation(alloc: Global, made: &mut Vec<Expr>, rest: &str) -> Result<Expr, AllocError> {
    let value = operand(alloc, made)?;
    match rest.split_once(' ') {
        Some((op, name)) => Ok(Expr::Update(
            token_of(op)?,
            ImmutableString::from_str(alloc, name)?,
            value,
        )),
        None => Ok(Expr::Op(token_of(rest)?, operand(alloc, made)?, value)),
    }
}

/// Reads a closure with the first name that captures the others.
fn closure(alloc: Global, rest: &str) -> Result<Expr, AllocError> {
    let (name, captured) = rest.split_once(' ').unwrap_or((rest, ""));
    Ok(Expr::Closure(
        ImmutableString::from_str(alloc, name)?,
        names_of(alloc, captured)?,
    ))
}

fn named(alloc: Global, made: &mut Vec<Expr>, verb: &str, rest: &str) -> Result<Expr, AllocError> {
    let name = ImmutableString::from_str(alloc, rest)?;
    match verb {
        "var" => Ok(Expr::Var(name)),
        "capture" => Ok(Expr::Capture(name)),
        "let" => Ok(Expr::Let(name, operand(alloc, made)?)),
        "const" => Ok(Expr::Const(name, operand(alloc, made)?)),
        "set" => Ok(Expr::Set(name, operand(alloc, made)?)),
        _ => Err(AllocError),
    }
}

/// Reads a literal, written as the line that puts its value into a hand.
fn literal(alloc: Global, words: &str) -> Result<Expr, AllocError> {
    match command(alloc, words.as_bytes())? {
        Some(Command::Put(literal)) => Ok(Expr::Literal(literal)),
        _ => Err(AllocError),
    }
}

fn take_words(alloc: Global, made: &mut Vec<Expr>, words: &str) -> Result<(), AllocError> {
    let (verb, rest) = words.split_once(' ').unwrap_or((words, ""));
    let expr = match verb {
        "op" | "update" => operation(alloc, made, rest)?,
        "closure" => closure(alloc, rest)?,
        "array" => Expr::Array(operands(made, rest)?),
        "block" => Expr::Block(operands(made, rest)?),
        "var" | "capture" | "let" | "const" | "set" => named(alloc, made, verb, rest)?,
        _ => literal(alloc, words)?,
    };
    Ok(made.push(expr)?)
}

/// Reads the expression of a row.
pub(crate) fn expr_of(alloc: Global, row: &str) -> Result<Expr, AllocError> {
    let mut made = Vec::new(alloc);
    for words in row.split(';') {
        take_words(alloc, &mut made, words.trim())?;
    }
    match made.pop() {
        Some(expr) => Ok(expr),
        None => Err(AllocError),
    }
}
