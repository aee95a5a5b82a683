//! Functions on characters.

use rhai_packs::chars;
use rhai_value::Dynamic;
use script_natives::{CharChange, CharFunction, CharQuestion};

/// Calls a function that doesn't change a character, if it is one.
pub(crate) fn ask_char(function: Option<CharFunction>, character: char) -> Option<Dynamic> {
    match function {
        Some(CharFunction::Ask(CharQuestion::ToUpper)) => {
            Some(Dynamic::from_char(chars::to_upper(character)))
        }
        Some(CharFunction::Ask(CharQuestion::ToLower)) => {
            Some(Dynamic::from_char(chars::to_lower(character)))
        }
        Some(CharFunction::Ask(CharQuestion::ToInt)) => {
            Some(Dynamic::from_int(chars::to_int(character)))
        }
        Some(CharFunction::Change(_)) | None => None,
    }
}

/// Changes a character.
pub(crate) fn change_char(change: CharChange, character: &mut char) -> Dynamic {
    *character = match change {
        CharChange::MakeUpper => chars::to_upper(*character),
        CharChange::MakeLower => chars::to_lower(*character),
    };
    Dynamic::UNIT
}
