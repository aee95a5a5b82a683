//! Expressions of many levels.

use rhai_run::eval::eval;
use rhai_run::{Answer, Command, Expr, Literal, World, apply};
use rhai_text::{ImmutableString, Limits, Token};
use std::alloc::{AllocError, Global};

/// How an expression is made one level deeper.
#[derive(Clone, Copy)]
pub(crate) enum Level {
    BlockOfOne,
    SumOnTheLeft,
    SumOnTheRight,
    BetweenLeaves,
    BetweenBlocks,
    Let,
}

impl Level {
    pub(crate) const ALL: [Level; 6] = [
        Level::BlockOfOne,
        Level::SumOnTheLeft,
        Level::SumOnTheRight,
        Level::BetweenLeaves,
        Level::BetweenBlocks,
        Level::Let,
    ];

    pub(crate) fn name(self) -> &'static str {
        match self {
            Level::BlockOfOne => "a block of one part",
            Level::SumOnTheLeft => "a sum with one on the right",
            Level::SumOnTheRight => "a sum with one on the left",
            Level::BetweenLeaves => "a block with a leaf on either side",
            Level::BetweenBlocks => "a block with a block on either side",
            Level::Let => "a let",
        }
    }
}

fn leaf(n: i64) -> Expr {
    Expr::Literal(Literal::Int(n))
}

fn sum(alloc: Global, left: Expr, right: Expr) -> Result<Expr, AllocError> {
    let left = Box::new(alloc, left)?;
    let right = Box::new(alloc, right)?;
    Ok(Expr::Op(Token::Plus, left, right))
}

fn block_of_one(alloc: Global, part: Expr) -> Result<Expr, AllocError> {
    let mut parts = Vec::new(alloc);
    parts.push(part)?;
    Ok(Expr::Block(parts))
}

fn block_of_three(alloc: Global, first: Expr, inner: Expr, last: Expr) -> Result<Expr, AllocError> {
    let mut parts = Vec::new(alloc);
    parts.push(first)?;
    parts.push(inner)?;
    parts.push(last)?;
    Ok(Expr::Block(parts))
}

/// Makes an expression one level deeper; for some levels the number is on the other side.
fn deeper(alloc: Global, level: Level, number: i64, inner: Expr) -> Result<Expr, AllocError> {
    match level {
        Level::BlockOfOne => block_of_one(alloc, inner),
        Level::SumOnTheLeft => sum(alloc, inner, leaf(1)),
        Level::SumOnTheRight => sum(alloc, leaf(1), inner),
        Level::BetweenLeaves => block_of_three(alloc, leaf(number), inner, leaf(number)),
        Level::BetweenBlocks => {
            let first = block_of_one(alloc, leaf(number))?;
            let last = block_of_one(alloc, leaf(number))?;
            block_of_three(alloc, first, inner, last)
        }
        Level::Let => {
            let name = ImmutableString::from_str(alloc, "x")?;
            Ok(Expr::Let(name, Box::new(alloc, inner)?))
        }
    }
}

fn nested(alloc: Global, level: Level, depth: usize) -> Result<Expr, AllocError> {
    let mut whole = leaf(0);
    for number in 0..i64::try_from(depth).unwrap_or(i64::MAX) {
        whole = deeper(alloc, level, number, whole)?;
    }
    Ok(whole)
}

/// Returns the text of an expression's value, and how many values and entries there are then.
fn evaluated(alloc: Global, world: &mut World, expr: &Expr) -> Result<String, AllocError> {
    match eval(world, expr) {
        Ok(None) => {}
        Ok(Some(_)) => return format!(in alloc; "refused"),
        Err(_) => return Err(AllocError),
    }
    let values = world.hand().len();
    let entries = world.scope().len();
    if let Answer::Text(text) = apply(world, &Command::Debug(0))? {
        format!(in alloc; "{} in {values}, {entries}", text.as_str())
    } else {
        format!(in alloc; "no text")
    }
}

/// Returns the result of an expression of this many levels around 0, on a new world.
pub(crate) fn outcome(alloc: Global, level: Level, depth: usize) -> Result<String, AllocError> {
    let expr = nested(alloc, level, depth)?;
    let mut world = World::new(alloc, Limits { text: 0, items: 0 });
    let text = evaluated(alloc, &mut world, &expr);
    world.close();
    text
}
