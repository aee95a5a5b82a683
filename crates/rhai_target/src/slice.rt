//! Write-back of a slice of a text; its new characters are printed while the text's cell is marked.
ghost use Rattle.std.specs.Prelude.{◌≡◌, [], true, is_some, IfOk, IfSome, MatchOption, MatchResult, OnOk, OnErr, string_bytes};
ghost use Rattle.std.specs.Str.{chars};
ghost use Rattle.rhai_value.specs.End.{end, held_part};
ghost use Rattle.rhai_value.specs.Parts.{text_of, with_content};
ghost use Rattle.rhai_value.specs.Store.{content_at, is_marked_at, put};
ghost use Rattle.rhai_value.specs.Tree.{leaf, text};
ghost use Rattle.rhai_target.specs.Change.{on_text, spliced, slice_change, value_changed, store_changed};

use rhai_show::display_text;
use rhai_text::ImmutableString;
use rhai_value::laws::{mark_is_cleared, sites_are_read};
use rhai_value::{Dynamic, Store, WriteToken};
use std::alloc::{AllocError, Global};

/// The bounds of a slice, in characters; a place past the text means its end.
#[derive(Clone, Copy)]
pub struct Slice {
    /// The first replaced character.
    pub start: usize,
    /// The first character after the slice, or the last one in it if the slice is inclusive.
    pub end: usize,
    /// Whether `end` is excluded.
    pub exclusive: bool,
}

/// Writes the printed text of the working value over the characters of a slice of the held text. It
/// is printed while the cell of the held text is marked, so that a holder of that cell prints as
/// `<shared>`. If the slice ends before it starts, the characters between occur twice.
/// Errors: the allocation of one of the two texts fails; nothing changes.
/// Cost: the length of both texts; memory for these.
/// rhai: an assignment to a range of a text.
#[inline(never)]
pub fn write_slice(
    source: &mut Dynamic,
    alloc: Global,
    store: &mut Store,
    value: &Dynamic,
    slice: Slice,
) -> Result<(), AllocError>
    requires held { is_some (held_part text_of (end store.old [] source.old)) ≡ true }
    ensures own { OnOk result (source.new ≡ value_changed (slice_change store.old source.old value.now slice) (end store.old [] source.old) source.old) }
    ensures store { OnOk result (store.new ≡ store_changed (slice_change store.old source.old value.now slice) (end store.old [] source.old) store.old) }
    ensures err { OnErr result ((source.new ≡ source.old) × (store.new ≡ store.old)) }
{
    let mark = store.mark_held(source);
    let printed = display_text(alloc, value, store);
    match mark {
        None => {
            let text = sliced(source, store, alloc, printed?.as_str(), slice)?;
            put_text(source, text);
            Ok(())
        }
        Some(token) => {
            sites_are_read();
            mark_is_cleared();
            let done = write_marked_slice(&token, alloc, store, printed, slice);
            store.release(token);
            done
        }
    }
}

/// The same for the text in the cell of a token, given the printed text of the working value.
#[tactic(auto, using(crate::proofs::MarkedTexts::mark_outlasts))]
fn write_marked_slice(
    token: &WriteToken,
    alloc: Global,
    store: &mut Store,
    printed: Result<String, AllocError>,
    slice: Slice,
) -> Result<(), AllocError>
    requires marked { is_marked_at store.old token.now ≡ true }
    requires held { MatchOption (content_at store.old token.now) ⊥ (λ t. is_some (text_of t) ≡ true) }
    ensures ok { OnOk result (MatchResult printed (λ p. IfSome (content_at store.old token.now) (λ t. store.new ≡ put store.old token.now (on_text (spliced (chars (string_bytes p)) slice) t))) (λ e. ⊥)) }
    ensures err { OnErr result (store.new ≡ store.old) }
    ensures marked { is_marked_at store.new token.now ≡ true }
{
    let text = sliced(store.through(token), store, alloc, printed?.as_str(), slice)?;
    put_text(store.through_mut(token), text);
    Ok(())
}

/// The text of a value with the slice replaced by the printed text of the working value.
#[tactic(auto, using(crate::proofs::MarkedTexts::text_held))]
fn sliced(
    held: &Dynamic,
    store: &Store,
    alloc: Global,
    printed: &str,
    slice: Slice,
) -> Result<ImmutableString, AllocError>
    requires { is_some (text_of held.now) ≡ true }
    ensures { IfOk result (λ new. IfSome (text_of held.now) (λ cs. new ≡ spliced (chars printed.now) slice cs)) }
{
    held.known_part::<ImmutableString>(store)
        .with_slice(alloc, slice.start, slice.end, slice.exclusive, printed)
}

/// Replaces a text, and keeps tag and mode.
fn put_text(held: &mut Dynamic, new: ImmutableString)
    ensures { held.new ≡ with_content (leaf (text new)) held.old }
{
    *held = Dynamic::from(new).labelled(held.tag(), held.access_mode());
}
