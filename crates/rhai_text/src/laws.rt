//! Laws of the edits, each the contract of a function with an empty body.
ghost use Rattle.std.specs.Prelude.{◌≡◌, ◌≢◌, ℕ, ◌+◌, ◌-◌, ◌<◌, ◌≤◌, Bool, true, false, if◌then◌else◌, min, List, [], ◌∷◌, ◌++◌, length, take, drop};
ghost use Rattle.std.specs.Cmp.Lexicographic.{slice_cmp};
ghost use Rattle.std.specs.Ordering.{nat_cmp};
ghost use Rattle.std.specs.Str.{encode_utf8_all};
ghost use Rattle.rhai_text.specs.Text.{minus, slice_of, with_slice};

use crate::position::Position;

/// If a text begins with the pattern, `minus` goes on with the rest after it.
pub fn minus_drops_the_pattern()
    ensures { (pattern rest : List ℕ) → minus (pattern ++ rest) pattern ≡ minus rest pattern }
{}

/// If a text doesn't begin with the pattern, `minus` keeps its first character.
pub fn minus_keeps_what_is_no_pattern()
    ensures { (c : ℕ) (cs pattern : List ℕ) → ((rest : List ℕ) → c ∷ cs ≢ pattern ++ rest) → minus (c ∷ cs) pattern ≡ c ∷ minus cs pattern }
{}

/// `minus` removes nothing from the empty text, and nothing if the pattern is empty.
pub fn minus_of_nothing()
    ensures pattern { (text : List ℕ) → minus text [] ≡ text }
    ensures text { (pattern : List ℕ) → minus [] pattern ≡ [] }
{}

/// `with_slice` with the places clamped to the text's length: an included end is at most the last
/// character.
pub fn slice_places_stop_at_the_end()
    ensures exclusive { (text slice : List ℕ) (start end : ℕ) → with_slice text start end true slice ≡ take (min start (length text)) text ++ (slice ++ drop (min end (length text)) text) }
    ensures inclusive { (text slice : List ℕ) (start end : ℕ) → 0 < length text → with_slice text start end false slice ≡ take (min start (length text)) text ++ (slice ++ drop (min end (length text - 1) + 1) text) }
    ensures empty { (slice : List ℕ) (start end : ℕ) (exclusive : Bool) → with_slice [] start end exclusive slice ≡ slice }
{}

/// Writing a slice back where it was read leaves the text unchanged, and a slice written within the
/// text is read back there.
pub fn slices_read_as_written()
    ensures unchanged { (text : List ℕ) (start end : ℕ) (exclusive : Bool) → start ≤ (if exclusive then end else end + 1)
        → with_slice text start end exclusive (slice_of text start end exclusive) ≡ text }
    ensures written { (text slice : List ℕ) (start end : ℕ) (exclusive : Bool) → start ≤ length text
        → slice_of (with_slice text start end exclusive slice) start (start + length slice) true ≡ slice }
{}

/// Texts have the same order by their UTF-8 bytes as by their characters.
pub fn byte_order_is_character_order()
    ensures { (a b : List ℕ) → slice_cmp nat_cmp (encode_utf8_all a) (encode_utf8_all b) ≡ slice_cmp nat_cmp a b }
{}

/// No position has line 0 and position 0.
pub fn no_position_is_zero()
    ensures { Position.NONE ≡ record { line = 0; position = 0 } }
{}
