//! The operation that takes back another, and its text.

ghost use Rattle.std.specs.Prelude.{◌≡◌, ◌<◌, [], ◌∷◌, ◌++◌, IfOk, List, Some, ℕ, codes};
ghost use Rattle.std.specs.Bool.{Decides};
ghost use Rattle.std.specs.String.{string_bytes};
ghost use Rattle.json.specs.Json.{Items, Json, array};
ghost use Rattle.json.specs.Print.{quoted};
ghost use Rattle.json_lexemes.specs.Spelled.{IsShallowText, Says};
ghost use Rattle.json_patch_text.specs.Changed.{count};
ghost use Rattle.json_patch_text.specs.Drafts.{IsDraft, KeepsDraft, draft_text};
ghost use Rattle.json_patch_text.specs.Inverses.{settled, undo_added};
ghost use Rattle.json_patch_text.specs.Undos.{IsUndo, in_array, is_array, undo_text};
ghost use Rattle.json_text.specs.Pointed.{tree_at};
ghost use Rattle.jsonptr.specs.Pointers.{tokens_of};
ghost use Rattle.jsonptr.specs.Text.{Pointer as Tokens, text_of};

use crate::draft::Draft;
use json_text::{Shape, quoted};
use jsonptr::{Pointer, PointerBuf};
use std::alloc::{AllocError, Global};

/// An operation that takes back another, with its value as it was written.
#[derive(Drop)]
pub(crate) enum Undo {
    /// `path` and `value`
    Add(PointerBuf, String),
    /// `path`
    Remove(PointerBuf),
    /// `path` and `value`
    Replace(PointerBuf, String),
}

/// The text of an operation, up to its path and with what comes behind it.
fn operation_text(
    alloc: Global,
    ahead: &str,
    path: Pointer,
    behind: &str,
) -> Result<String, AllocError>
    ensures { IfOk result (λ s. string_bytes s
        ≡ ahead.now ++ (quoted (text_of (tokens_of path.entry)) ++ behind.now)) }
{
    let path = quoted(alloc, path.as_str())?;
    let mut text = String::from_str(alloc, ahead)?;
    text.push_str(path.as_str())?;
    text.push_str(behind)?;
    Ok(text)
}

/// That of an operation with a value.
fn with_value(alloc: Global, ahead: &str, path: Pointer, value: &str) -> Result<String, AllocError>
    ensures { IfOk result (λ s. string_bytes s ≡ ahead.now ++ (quoted (text_of (tokens_of path.entry))
        ++ (codes ",\"value\":" ++ (value.now ++ codes "}")))) }
{
    let mut text = operation_text(alloc, ahead, path, r#","value":"#)?;
    text.push_str(value)?;
    text.push_str("}")?;
    Ok(text)
}

impl Undo {
    /// Its text, with no whitespace but that of its value.
    pub(crate) fn to_text(&self, alloc: Global) -> Result<String, AllocError>
        ensures { IfOk result (λ s. string_bytes s ≡ undo_text self.now) }
    {
        match self {
            Undo::Remove(path) => {
                operation_text(alloc, r#"{"op":"remove","path":"#, path.as_pointer(), "}")
            }
            Undo::Add(path, value) => {
                let ahead = r#"{"op":"add","path":"#;
                with_value(alloc, ahead, path.as_pointer(), value.as_str())
            }
            Undo::Replace(path, value) => {
                let ahead = r#"{"op":"replace","path":"#;
                with_value(alloc, ahead, path.as_pointer(), value.as_str())
            }
        }
    }
}

fn is_array(shape: Option<Shape>) -> bool
    ensures { result ≡ is_array shape }
{
    match shape {
        Some(Shape::Array) => true,
        Some(Shape::Object) => false,
        Some(Shape::String) => false,
        Some(Shape::Atom) => false,
        None => false,
    }
}

/// Whether the pointer is at a place in an array.
#[tactic(auto, using(crate::proofs::Kept::kept_first, crate::proofs::Kept::kept_more))]
fn in_array(alloc: Global, draft: &mut Draft, path: Pointer) -> Result<bool, AllocError>
    requires draft { IsDraft draft.old }
    requires shallow { (j : Json) × IsShallowText (draft_text draft.old) j }
    ensures draft { IsDraft draft.new }
    ensures back { KeepsDraft draft.old draft.new }
    ensures kept { IfOk result (λ is. draft_text draft.new ≡ draft_text draft.old) }
    ensures array { IfOk result (λ is. (i : Json) → Says (draft_text draft.old) i
        → is ≡ in_array i (tokens_of path.entry)) }
{
    match path.split_back() {
        Some((parent, _)) => Ok(is_array(draft.shape(alloc, parent)?)),
        None => Ok(false),
    }
}

/// Whether an array has an element of this number.
#[tactic(auto, using(crate::proofs::Kept::kept_first, crate::proofs::Kept::kept_more))]
fn has_element(
    alloc: Global,
    draft: &mut Draft,
    place: Pointer,
    number: usize,
) -> Result<bool, AllocError>
    requires draft { IsDraft draft.old }
    requires shallow { (j : Json) × IsShallowText (draft_text draft.old) j }
    ensures draft { IsDraft draft.new }
    ensures back { KeepsDraft draft.old draft.new }
    ensures kept { IfOk result (λ has. draft_text draft.new ≡ draft_text draft.old) }
    ensures element { IfOk result (λ has. (i : Json) (js : Items) → Says (draft_text draft.old) i
        → tree_at (tokens_of place.entry) i ≡ Some (array js) → Decides has (number < count js)) }
{
    let name = number.to_string(alloc)?;
    let mut element = place.to_buf(alloc)?;
    element.push_back(alloc, name.as_str())?;
    let found = draft.shape(alloc, element.as_pointer())?;
    Ok(found.is_some())
}

/// How many elements an array has: found by looking at some of them, so that a long one isn't passed
/// over.
#[tactic(auto, using(crate::proofs::Kept::kept_first, crate::proofs::Kept::kept_more))]
fn count_at(alloc: Global, draft: &mut Draft, place: Pointer) -> Result<usize, AllocError>
    requires draft { IsDraft draft.old }
    requires shallow { (j : Json) × IsShallowText (draft_text draft.old) j }
    ensures draft { IsDraft draft.new }
    ensures back { KeepsDraft draft.old draft.new }
    ensures kept { IfOk result (λ n. draft_text draft.new ≡ draft_text draft.old) }
    ensures count { IfOk result (λ n. (i : Json) (js : Items) → Says (draft_text draft.old) i
        → tree_at (tokens_of place.entry) i ≡ Some (array js) → n ≡ count js) }
{
    let mut low = 0;
    let mut high = draft.len();
    for _halving in 0..64 {
        if low < high {
            let middle = low + (high - low) / 2;
            if has_element(alloc, draft, place, middle)? {
                low = middle + 1;
            } else {
                high = middle;
            }
        }
    }
    // It has fewer elements than the text has bytes, so this never comes.
    if has_element(alloc, draft, place, low)? {
        return Err(AllocError);
    }
    Ok(low)
}

/// Where what is added to an array is taken out: at the number of the new element, where the pointer has
/// `-`.
#[tactic(auto, using(crate::proofs::Kept::kept_first, crate::proofs::Kept::kept_more))]
fn settled(alloc: Global, draft: &mut Draft, path: Pointer) -> Result<PointerBuf, AllocError>
    requires draft { IsDraft draft.old }
    requires shallow { (j : Json) × IsShallowText (draft_text draft.old) j }
    ensures draft { IsDraft draft.new }
    ensures back { KeepsDraft draft.old draft.new }
    ensures kept { IfOk result (λ place. draft_text draft.new ≡ draft_text draft.old) }
    ensures place { IfOk result (λ place. (i : Json) (F : Tokens) (l : List ℕ) (js : Items)
        → Says (draft_text draft.old) i → tokens_of path.entry ≡ F ++ l ∷ []
        → tree_at F i ≡ Some (array js) → place ≡ F ++ settled js l ∷ []) }
{
    let place = path.to_buf(alloc)?;
    let Some((parent, last)) = path.split_back() else {
        return Ok(place);
    };
    if !last.is_key("-") {
        return Ok(place);
    }
    let count = count_at(alloc, draft, parent)?;
    let number = count.to_string(alloc)?;
    place.with_last(alloc, number.as_str())
}

/// What takes back a value that is to be added at `path`, with the value that it displaces, if there is
/// one, as it stands in the text.
#[tactic(auto, using(crate::proofs::Kept::kept_first, crate::proofs::Kept::kept_more))]
pub(crate) fn undo_added(
    alloc: Global,
    draft: &mut Draft,
    path: Pointer,
) -> Result<Undo, AllocError>
    requires draft { IsDraft draft.old }
    requires shallow { (j : Json) × IsShallowText (draft_text draft.old) j }
    ensures draft { IsDraft draft.new }
    ensures back { KeepsDraft draft.old draft.new }
    ensures kept { IfOk result (λ undo. draft_text draft.new ≡ draft_text draft.old) }
    ensures undo { IfOk result (λ undo. (i : Json) → Says (draft_text draft.old) i
        → IsUndo (draft_text draft.old) i undo (undo_added i (tokens_of path.entry))) }
{
    if in_array(alloc, draft, path)? {
        return Ok(Undo::Remove(settled(alloc, draft, path)?));
    }
    match draft.value(alloc, path)? {
        Some(old) => Ok(Undo::Replace(path.to_buf(alloc)?, old)),
        None => Ok(Undo::Remove(path.to_buf(alloc)?)),
    }
}
