//! What is left of operands if an allocation of a row fails.
use super::tell;
use crate::ops::readme::{assign, operate};
use rhai_show::debug_text;
use rhai_text::{Limits, Token};
use rhai_value::{Blob, Dynamic, Store};
use std::alloc::{AllocError, Global};
use std::io::Eprint;
use std::test::Fail;

const UNLIMITED: Limits = Limits { text: 0, items: 0 };

/// Makes an operand for a letter: a text, a character, a blob, an array, an int.
fn operand(alloc: Global, letter: char) -> Result<Dynamic, AllocError> {
    match letter {
        't' => Dynamic::from_text(alloc, "ab"),
        'c' => Ok(Dynamic::from_char('b')),
        'b' => Ok(Dynamic::from_blob(Blob::from_slice(alloc, &[1, 2])?)),
        'a' => Ok(Dynamic::from_array(vec![in alloc; Dynamic::ONE]?)),
        _ => Ok(Dynamic::TWO),
    }
}

/// Rows with both operands, and the debug format of the first operand and the result afterwards.
const ROWS: [(Token, char, char, &str, &str); 14] = [
    (Token::Plus, 't', 't', "\"ab\"", "\"abab\""),
    (Token::Plus, 't', 'c', "\"ab\"", "\"abb\""),
    (Token::Plus, 'c', 't', "'b'", "\"bab\""),
    (Token::Plus, 'c', 'c', "'b'", "\"bb\""),
    (Token::Plus, 'b', 'b', "[0102]", "[01020102]"),
    (Token::Minus, 't', 't', "\"ab\"", "\"\""),
    (Token::Minus, 't', 'c', "\"ab\"", "\"a\""),
    (Token::PlusAssign, 't', 't', "\"abab\"", "()"),
    (Token::PlusAssign, 't', 'c', "\"abb\"", "()"),
    (Token::PlusAssign, 'c', 't', "\"bab\"", "()"),
    (Token::PlusAssign, 'b', 'b', "[01020102]", "()"),
    (Token::PlusAssign, 'b', 'i', "[010202]", "()"),
    (Token::PlusAssign, 'a', 'i', "[1, 2]", "()"),
    (Token::MinusAssign, 't', 'c', "\"a\"", "()"),
];

fn debugs(alloc: Global, value: &Dynamic, store: &Store, wanted: &str) -> Result<bool, AllocError> {
    Ok(debug_text(alloc, value, store)?.as_str() == wanted)
}

/// Returns the result of an assignment, or of an operator; `None` if an allocation fails.
fn called(
    token: Token,
    alloc: Global,
    store: &mut Store,
    x: &mut Dynamic,
    y: &mut Dynamic,
) -> Option<Dynamic> {
    match assign(token, alloc, store, &UNLIMITED, x, y) {
        Ok(true) => return Some(Dynamic::UNIT),
        Ok(false) => {}
        Err(_) => return None,
    }
    match operate(token, alloc, store, &UNLIMITED, x, y) {
        Ok(answer) => answer,
        Err(_) => None,
    }
}

/// Whether a row has the right result; if an allocation fails, both operands are unchanged, and it
/// has it then.
fn answers(
    rt: &impl Eprint,
    alloc: Global,
    row: &(Token, char, char, &str, &str),
) -> Result<bool, AllocError> {
    let (token, first, second, left, wanted) = row;
    let mut store = Store::new(alloc);
    let (mut x, mut y) = (operand(alloc, *first)?, operand(alloc, *second)?);
    let before = (
        debug_text(alloc, &x, &store)?,
        debug_text(alloc, &y, &store)?,
    );
    let answer = match called(*token, alloc, &mut store, &mut x, &mut y) {
        Some(answer) => answer,
        None => {
            tell(rt, "FnBuiltin::call");
            if !debugs(alloc, &x, &store, &before.0)? || !debugs(alloc, &y, &store, &before.1)? {
                return Ok(false);
            }
            match called(*token, alloc, &mut store, &mut x, &mut y) {
                Some(answer) => answer,
                None => return Err(AllocError),
            }
        }
    };
    Ok(debugs(alloc, &x, &store, left)? && debugs(alloc, &answer, &store, wanted)?)
}

#[test]
fn operands_stay(rt: HostRuntime) -> Result<(), Fail> {
    for row in &ROWS {
        assert!(rt;
            answers(&rt, rt.alloc(), row)?,
            "{} {} = {}",
            row.1,
            row.2,
            row.4
        );
    }
    Ok(())
}
