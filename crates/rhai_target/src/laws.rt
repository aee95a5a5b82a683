//! Laws of the definitions: each is the contract of a function with an empty body.
ghost use Rattle.std.specs.Prelude.{◌≡◌, ◌≤◌, ◌<◌, ◌+◌, ◌-◌, ◌*ℤ◌, ◌^◌, ℕ, ℤ, pos, Bool, true, false, ◌&&◌, IfSome, List, [], Option, Some, option_map, option_and_then, length, slice_get, FitsSigned};
ghost use Rattle.std.specs.Int.{w64, int_wrap};
ghost use Rattle.rhai_value.specs.declared.cells.store.Cell.{Cell};
ghost use Rattle.rhai_value.specs.Tree.{Tree, Leaf, tag_of, mode_of};
ghost use Rattle.rhai_value.specs.Parts.{bool_of, int_of, char_of, text_of, blob_of};
ghost use Rattle.rhai_value.specs.Store.{is_marked_at};
ghost use Rattle.rhai_value.specs.End.{End, end, held_part};
ghost use Rattle.rhai_value.specs.Relation.{Renaming, Related, Alike, Respect, IsOneToOne, RelatedCells, RelatedEnds};
ghost use Rattle.rhai_target.specs.declared.slice.Slice.{Slice};
ghost use Rattle.rhai_bits.specs.Bits.{bit, field, int_of_bits};
ghost use Rattle.rhai_value.specs.Bytes.{low_byte};
ghost use Rattle.rhai_target.specs.Change.{Change, with_leaf, on_int, on_bytes, on_text, bit_change, field_change, byte_change, char_change, slice_change, value_changed, store_changed, end_changed};
ghost use Rattle.rhai_target.specs.Offset.{offset, count, place};

/// A slice ends within the list, and the place of an item is within it.
pub fn places_stay_inside()
    ensures slice { (length : ℕ) (start len : ℤ) → offset length start + count (length - offset length start) len ≤ length }
    ensures item { (length : ℕ) (index : ℤ) (from_end : Bool) → IfSome (place length index from_end) (λ i. i < length) }
{}

/// A bit that was written back is read as written, and every other bit is unchanged; writing a bit
/// over itself leaves source and store unchanged.
#[tactic(auto, using(crate::proofs::ReadBack::bit_read, crate::proofs::ReadBack::other_bits_read))]
pub fn bits_read_as_written()
    ensures written { (s : List Cell) (t v : Tree) (place : ℕ) (n : ℤ) (b : Bool) → place < 64
        → held_part int_of (end s [] t) ≡ Some n → held_part bool_of (end s [] v) ≡ Some b
        → option_map (λ m. bit m place) (held_part int_of (end_changed (bit_change s v place) s t)) ≡ Some b }
    ensures others { (s : List Cell) (t v : Tree) (place i : ℕ) (n : ℤ) (b : Bool) → i < 64 → (i ≡ place → ⊥)
        → held_part int_of (end s [] t) ≡ Some n → held_part bool_of (end s [] v) ≡ Some b
        → option_map (λ m. bit m i) (held_part int_of (end_changed (bit_change s v place) s t)) ≡ Some (bit n i) }
    ensures unchanged { (s : List Cell) (t v : Tree) (place : ℕ) (n : ℤ) → FitsSigned w64 n
        → held_part int_of (end s [] t) ≡ Some n → held_part bool_of (end s [] v) ≡ Some (bit n place)
        → (value_changed (bit_change s v place) (end s [] t) t ≡ t) × (store_changed (bit_change s v place) (end s [] t) s ≡ s) }
{}

/// Writing a field back changes only the bits of its mask: these become the bits of the value times
/// a power of two, truncated to 64 bits.
#[tactic(auto, using(crate::proofs::ReadBack::outside_read, crate::proofs::ReadBack::inside_read))]
pub fn fields_keep_to_the_mask()
    ensures outside { (s : List Cell) (t v : Tree) (mask : ℤ) (shift i : ℕ) (n x : ℤ) → i < 64 → bit mask i ≡ false
        → held_part int_of (end s [] t) ≡ Some n → held_part int_of (end s [] v) ≡ Some x
        → option_map (λ m. bit m i) (held_part int_of (end_changed (field_change s v mask shift) s t)) ≡ Some (bit n i) }
    ensures inside { (s : List Cell) (t v : Tree) (mask : ℤ) (shift i : ℕ) (n x : ℤ) → i < 64 → shift < 64 → FitsSigned w64 x → bit mask i ≡ true
        → held_part int_of (end s [] t) ≡ Some n → held_part int_of (end s [] v) ≡ Some x
        → option_map (λ m. bit m i) (held_part int_of (end_changed (field_change s v mask shift) s t)) ≡ Some (bit (int_wrap w64 (x *ℤ pos (2 ^ shift))) i) }
{}

/// A field that was written back is read as the bits of the value within its mask; writing a field
/// over itself, with a mask that has no bit below it, leaves source and store unchanged.
#[tactic(auto, using(crate::proofs::ReadBack::field_read))]
pub fn fields_read_as_written()
    ensures written { (s : List Cell) (t v : Tree) (mask : ℤ) (shift : ℕ) (n x : ℤ) → FitsSigned w64 mask
        → held_part int_of (end s [] t) ≡ Some n → held_part int_of (end s [] v) ≡ Some x
        → option_map (field mask shift) (held_part int_of (end_changed (field_change s v mask shift) s t)) ≡ Some (int_of_bits (λ i. bit mask (i + shift) && bit x i)) }
    ensures unchanged { (s : List Cell) (t v : Tree) (mask : ℤ) (shift : ℕ) (n : ℤ) → FitsSigned w64 n → ((i : ℕ) → i < shift → bit mask i ≡ false)
        → held_part int_of (end s [] t) ≡ Some n → held_part int_of (end s [] v) ≡ Some (field mask shift n)
        → (value_changed (field_change s v mask shift) (end s [] t) t ≡ t) × (store_changed (field_change s v mask shift) (end s [] t) s ≡ s) }
{}

/// A byte that was written back is read as the int modulo 256, and every other byte is unchanged;
/// writing a byte over itself leaves source and store unchanged.
#[tactic(auto, using(crate::proofs::ReadBack::byte_read, crate::proofs::ReadBack::other_bytes_read))]
pub fn bytes_read_as_written()
    ensures written { (s : List Cell) (t v : Tree) (index : ℕ) (bs : List ℕ) (n : ℤ) → index < length bs
        → held_part blob_of (end s [] t) ≡ Some bs → held_part int_of (end s [] v) ≡ Some n
        → option_and_then (λ x. slice_get x index) (held_part blob_of (end_changed (byte_change s v index) s t)) ≡ Some (low_byte n) }
    ensures others { (s : List Cell) (t v : Tree) (index i : ℕ) (bs : List ℕ) (n : ℤ) → (i ≡ index → ⊥)
        → held_part blob_of (end s [] t) ≡ Some bs → held_part int_of (end s [] v) ≡ Some n
        → option_and_then (λ x. slice_get x i) (held_part blob_of (end_changed (byte_change s v index) s t)) ≡ slice_get bs i }
    ensures unchanged { (s : List Cell) (t v : Tree) (index b : ℕ) (bs : List ℕ) → b < 256 → slice_get bs index ≡ Some b
        → held_part blob_of (end s [] t) ≡ Some bs → held_part int_of (end s [] v) ≡ Some (pos b)
        → (value_changed (byte_change s v index) (end s [] t) t ≡ t) × (store_changed (byte_change s v index) (end s [] t) s ≡ s) }
{}

/// A character that was written back is read as written, and every other character is unchanged;
/// writing a character over itself leaves source and store unchanged.
#[tactic(auto, using(crate::proofs::ReadBack::char_read, crate::proofs::ReadBack::other_chars_read))]
pub fn characters_read_as_written()
    ensures written { (s : List Cell) (t v : Tree) (index : ℕ) (cs : List ℕ) (c : ℕ) → index < length cs
        → held_part text_of (end s [] t) ≡ Some cs → held_part char_of (end s [] v) ≡ Some c
        → option_and_then (λ x. slice_get x index) (held_part text_of (end_changed (char_change s v index) s t)) ≡ Some c }
    ensures others { (s : List Cell) (t v : Tree) (index i : ℕ) (cs : List ℕ) (c : ℕ) → (i ≡ index → ⊥)
        → held_part text_of (end s [] t) ≡ Some cs → held_part char_of (end s [] v) ≡ Some c
        → option_and_then (λ x. slice_get x i) (held_part text_of (end_changed (char_change s v index) s t)) ≡ slice_get cs i }
    ensures unchanged { (s : List Cell) (t v : Tree) (index c : ℕ) (cs : List ℕ) → slice_get cs index ≡ Some c
        → held_part text_of (end s [] t) ≡ Some cs → held_part char_of (end s [] v) ≡ Some c
        → (value_changed (char_change s v index) (end s [] t) t ≡ t) × (store_changed (char_change s v index) (end s [] t) s ≡ s) }
{}

/// A change of an int, of bytes or of characters keeps tag and mode, changes the content by its
/// function, and leaves a value of another kind unchanged.
#[tactic(auto, using(crate::proofs::Items::leaf_tag, crate::proofs::Items::leaf_mode, crate::proofs::Items::int_changed, crate::proofs::Items::bytes_changed, crate::proofs::Items::text_changed))]
pub fn changes_keep_tag_and_mode()
    ensures tag { (l : Option Leaf) (t : Tree) → tag_of (with_leaf l t) ≡ tag_of t }
    ensures mode { (l : Option Leaf) (t : Tree) → mode_of (with_leaf l t) ≡ mode_of t }
    ensures int { (f : ℤ → ℤ) (t : Tree) → int_of (on_int f t) ≡ option_map f (int_of t) }
    ensures bytes { (f : List ℕ → List ℕ) (t : Tree) → blob_of (on_bytes f t) ≡ option_map f (blob_of t) }
    ensures characters { (f : List ℕ → List ℕ) (t : Tree) → text_of (on_text f t) ≡ option_map f (text_of t) }
{}

/// Related working values make related changes, however cells are numbered.
#[tactic(auto, using(crate::proofs::SameChanges::same_bit_change, crate::proofs::SameChanges::same_field_change, crate::proofs::SameChanges::same_byte_change, crate::proofs::SameChanges::same_char_change, crate::proofs::SameChanges::same_slice_change))]
pub fn changes_are_renamed()
    ensures bit { (r : Renaming) (s z : List Cell) (v w : Tree) (place : ℕ) → IsOneToOne r → RelatedCells r s z → Related r v w
        → Alike (Respect r) (bit_change s v place) (bit_change z w place) }
    ensures field { (r : Renaming) (s z : List Cell) (v w : Tree) (mask : ℤ) (shift : ℕ) → IsOneToOne r → RelatedCells r s z → Related r v w
        → Alike (Respect r) (field_change s v mask shift) (field_change z w mask shift) }
    ensures byte { (r : Renaming) (s z : List Cell) (v w : Tree) (index : ℕ) → IsOneToOne r → RelatedCells r s z → Related r v w
        → Alike (Respect r) (byte_change s v index) (byte_change z w index) }
    ensures character { (r : Renaming) (s z : List Cell) (v w : Tree) (index : ℕ) → IsOneToOne r → RelatedCells r s z → Related r v w
        → Alike (Respect r) (char_change s v index) (char_change z w index) }
    ensures slice { (r : Renaming) (s z : List Cell) (t u v w : Tree) (slice : Slice) → IsOneToOne r → RelatedCells r s z → Related r t u → Related r v w
        → Alike (Respect r) (slice_change s t v slice) (slice_change z u w slice) }
{}

/// Write-backs by related changes leave related values and stores.
#[tactic(auto, using(crate::proofs::SameChanges::same_value_changed, crate::proofs::SameChanges::same_store_changed))]
pub fn write_back_is_renamed()
    ensures value { (r : Renaming) (c d : Change) (t u : Tree) (e o : End) → Alike (Respect r) c d → Related r t u → RelatedEnds r e o
        → Related r (value_changed c e t) (value_changed d o u) }
    ensures store { (r : Renaming) (c d : Change) (s z : List Cell) (e o : End) → Alike (Respect r) c d → IsOneToOne r → RelatedCells r s z → RelatedEnds r e o
        → RelatedCells r (store_changed c e s) (store_changed d o z) }
{}

/// A write-back makes no cell, and neither sets nor clears a mark.
#[tactic(auto, using(crate::proofs::SameChanges::length_changed, crate::proofs::SameChanges::marked_changed))]
pub fn write_back_keeps_marks()
    ensures length { (c : Change) (e : End) (s : List Cell) → length (store_changed c e s) ≡ length s }
    ensures marks { (c : Change) (e : End) (s : List Cell) (d : ℕ) → is_marked_at (store_changed c e s) d ≡ is_marked_at s d }
{}
