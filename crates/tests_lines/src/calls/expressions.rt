//! The block in the README of `rhai_run`.

use super::printed::is_printed;
use crate::sections::UNLIMITED;
use rhai_run::eval::eval;
use rhai_run::{Command, Expr, Literal, World, apply};
use rhai_text::{ImmutableString, Token};
use std::alloc::{AllocError, Global};

fn name(alloc: Global, text: &str) -> Result<ImmutableString, AllocError> {
    ImmutableString::from_str(alloc, text)
}

fn number(alloc: Global, n: i64) -> Result<Box<Expr>, AllocError> {
    Ok(Box::new(alloc, Expr::Literal(Literal::Int(n)))?)
}

/// Binds a name to a closure with this name that captures `n`.
fn capturing_n(alloc: Global, closure: &str) -> Result<Expr, AllocError> {
    let mut captured = Vec::new(alloc);
    captured.push(name(alloc, "n")?)?;
    let value = Expr::Closure(name(alloc, closure)?, captured);
    Ok(Expr::Let(name(alloc, closure)?, Box::new(alloc, value)?))
}

/// Makes two closures that capture a name and share its cell.
fn shared_counter(alloc: Global) -> Result<Expr, AllocError> {
    let mut parts = Vec::new(alloc);
    parts.push(Expr::Let(name(alloc, "n")?, number(alloc, 0)?))?;
    parts.push(capturing_n(alloc, "f")?)?;
    parts.push(capturing_n(alloc, "g")?)?;
    parts.push(Expr::Update(Token::PlusAssign, name(alloc, "n")?, number(alloc, 1)?))?;
    parts.push(Expr::Var(name(alloc, "g")?))?;
    Ok(Expr::Block(parts))
}

/// Whether the result of a block is this text, as the only value of a hand over an empty scope.
fn comes_to(alloc: Global, world: &mut World, expr: &Expr, wanted: &str) -> bool {
    let is_valued = matches!(eval(world, expr), Ok(None));
    match apply(world, &Command::Debug(0)) {
        Ok(answer) => {
            is_valued
                && is_printed(alloc, &answer, wanted)
                && world.hand().len() == 1
                && world.scope().len() == 0
        }
        Err(_) => false,
    }
}

pub(super) fn closures_share_a_counter(alloc: Global) -> bool {
    let Ok(expr) = shared_counter(alloc) else {
        return false;
    };
    let mut world = World::new(alloc, UNLIMITED);
    let is_right = comes_to(alloc, &mut world, &expr, "Fn(\"g\", 1 (shared))");
    world.close();
    is_right
}
