//! Functions on characters. Those that change a character in rhai's scripts replace it by the
//! result.
ghost use Rattle.std.specs.Prelude.{◌≡◌, pos};
ghost use Rattle.std.specs.Char.Unicode.ToLowercase.{to_lowercase};
ghost use Rattle.std.specs.Char.Unicode.ToUppercase.{to_uppercase};
ghost use Rattle.rhai_packs.specs.Texts.{only_or};

use rhai_value::INT;

/// Returns the character in upper case, by Unicode; the character itself if that is several
/// characters.
/// Cost: constant.
/// rhai: `to_upper`.
pub fn to_upper(character: char) -> char
    ensures { result ≡ only_or character (to_uppercase character) }
{
    let mut cased = character.to_uppercase();
    match (cased.next(), cased.next()) {
        (Some(only), None) => only,
        (Some(_), Some(_)) | (None, Some(_)) | (None, None) => character,
    }
}

/// Returns the character in lower case, by Unicode; the character itself if that is several
/// characters.
/// Cost: constant.
/// rhai: `to_lower`.
pub fn to_lower(character: char) -> char
    ensures { result ≡ only_or character (to_lowercase character) }
{
    let mut cased = character.to_lowercase();
    match (cased.next(), cased.next()) {
        (Some(only), None) => only,
        (Some(_), Some(_)) | (None, Some(_)) | (None, None) => character,
    }
}

/// Returns the number of the character in Unicode.
/// Cost: constant.
/// rhai: `to_int`.
pub fn to_int(character: char) -> INT
    ensures { result ≡ pos character }
{
    INT::from(u32::from(character))
}
