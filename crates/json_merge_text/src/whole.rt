//! A JSON text into which the text of a merge patch is merged (RFC 7396).

ghost use Rattle.std.specs.Prelude.{◌≡◌, ◌≤◌, [], IfErr, IfNone, IfOk, IfSome, List, OnOk, Some, length, max, ℕ};
ghost use Rattle.std.specs.String.{string_bytes};
ghost use Rattle.json.specs.Json.{Json, document};
ghost use Rattle.json.specs.Value.{value_view};
ghost use Rattle.json.specs.declared.error.Error.TheVariants as Error;
ghost use Rattle.json_merge_text.specs.Merged.{IsMergeOver, IsMergeTextFault, IsMergedAlready, IsMergedText, SaysMerged, most_bytes};
ghost use Rattle.json_merge_text.specs.Merging.{IsChanged, MergesInto};
ghost use Rattle.json_merge_text.specs.Steps.{AreTexts, as_document, as_patch};
ghost use Rattle.json_lexemes.specs.Skipped.{nesting};
ghost use Rattle.json_lexemes.specs.Spelled.{IsShallowText};
ghost use Rattle.json_pieces.specs.Whole.{text_of};
ghost use Rattle.json_text.specs.Checked.{text_in};

use crate::fault::MergeTextFault;
use crate::merging::merge_into;
use crate::texts::Texts;
use json::{Error, Scratch, Value};
use json_text::{CheckedText, Shape, TextFault};
use jsonptr::PointerBuf;
use std::alloc::{AllocError, Global};

/// The fault where the document's text isn't read.
fn document_fault(fault: TextFault) -> MergeTextFault
    ensures { result ≡ as_document fault }
{
    match fault {
        TextFault::Memory(failed) => MergeTextFault::Memory(failed),
        TextFault::NotJson => MergeTextFault::Document(TextFault::NotJson),
        TextFault::TooDeep => MergeTextFault::Document(TextFault::TooDeep),
    }
}

/// The fault where the patch's text isn't read.
fn patch_fault(fault: TextFault) -> MergeTextFault
    ensures { result ≡ as_patch fault }
{
    match fault {
        TextFault::Memory(failed) => MergeTextFault::Memory(failed),
        TextFault::NotJson => MergeTextFault::Patch(TextFault::NotJson),
        TextFault::TooDeep => MergeTextFault::Patch(TextFault::TooDeep),
    }
}

/// The failure of a text that is JSON and nests no deeper than 128 levels.
fn parse_failure(error: Error) -> AllocError
    requires { error ≡ Error.OutOfMemory }
{
    match error {
        Error::OutOfMemory => AllocError,
        Error::Invalid => unreachable!(),
        Error::TooLong => unreachable!(),
        Error::DuplicateKey => unreachable!(),
    }
}

/// The patch's tree.
// Not inlined: what the reader takes of the stack would else lie below the merging, which goes by recursion.
#[inline(never)]
fn tree<'a>(
    alloc: Global,
    patch: CheckedText<'a>,
    scratch: &'a mut Scratch<Global>,
) -> Result<Value<'a, Global>, AllocError>
    ensures { IfOk result (λ value. document (text_in patch.entry) ≡ Some (value_view value)) }
{
    match Value::parse(alloc, patch.as_str(), scratch) {
        Ok(value) => Ok(value),
        Err(error) => Err(parse_failure(error)),
    }
}

/// Room for the reading of a text. It has many kilobytes, which on the stack would lie below the merging.
#[inline(never)]
fn room(alloc: Global) -> Result<Box<Scratch>, AllocError> {
    Ok(Box::new(alloc, Scratch::new(alloc))?)
}

/// Both texts in pieces, with the patch merged into the document's.
fn merged<'a>(
    alloc: Global,
    text: CheckedText<'a>,
    patch: CheckedText<'a>,
) -> Result<Texts<'a>, AllocError>
    ensures texts { IfOk result AreTexts }
    ensures changed { IfOk result (λ new. (i p : Json) → IsShallowText (text_in text.entry) i
        → IsShallowText (text_in patch.entry) p
        → IsChanged (text_in text.entry) (text_of new.document) (MergesInto (text_in patch.entry) [] i p)) }
{
    let mut scratch = room(alloc)?;
    let change = tree(alloc, patch, &mut *scratch)?;
    let here = Shape::of(text.as_str());
    let mut texts = Texts::new(text, patch);
    merge_into(alloc, &mut texts, &PointerBuf::new(), here, &change)?;
    Ok(texts)
}

/// The document's text, checked.
fn document(alloc: Global, text: &str) -> Result<CheckedText<'_>, MergeTextFault>
    ensures text { IfOk result (λ checked. text_in checked ≡ text.now) }
    ensures fault { IfErr result (λ fault. (patch : List ℕ) → IsMergeTextFault text.now patch fault) }
{
    match CheckedText::new(alloc, text) {
        Ok(checked) => Ok(checked),
        Err(fault) => Err(document_fault(fault)),
    }
}

/// The patch's text, checked.
// Not inlined, as `tree` isn't.
#[inline(never)]
fn checked(alloc: Global, patch: &str) -> Result<CheckedText<'_>, MergeTextFault>
    ensures text { IfOk result (λ checked. text_in checked ≡ patch.now) }
    ensures shallow { OnOk result ((j : Json) × IsShallowText patch.now j) }
    ensures fault { IfErr result (λ fault. (text : List ℕ) → IsMergeTextFault text patch.now fault) }
{
    match CheckedText::new(alloc, patch) {
        Ok(checked) => Ok(checked),
        Err(fault) => Err(patch_fault(fault)),
    }
}

/// The same, of a patch that is checked here.
fn patch_merged<'a>(
    alloc: Global,
    text: CheckedText<'a>,
    patch: &'a str,
) -> Result<Texts<'a>, MergeTextFault>
    ensures texts { IfOk result AreTexts }
    ensures merged { IfOk result
        (λ new. IsMergedText (text_in text.entry) patch.now (text_of new.document)) }
    ensures fault { IfErr result (IsMergeTextFault (text_in text.entry) patch.now) }
{
    let patch = checked(alloc, patch)?;
    Ok(merged(alloc, text, patch)?)
}

/// The text with the merge patch merged in, and every byte kept that the merge doesn't change.
///
/// A member of the patch that is null removes the text's member of that name, an object is merged into
/// an object member by member, and any other value is put in as it is written in the patch, unless the
/// same stands there. An object that is put in loses its null members. What goes with a new member
/// follows the style of the one before it, as `json_text::add` says. Numbers are compared by their
/// value, exactly.
///
/// A text that isn't JSON, or has an unpaired surrogate, or nests deeper than 128 levels, is refused, the
/// document's before the patch's. No change is refused.
///
/// ```rust
/// let text = "{\n  \"title\": \"Hello!\",\n  \"price\": 1.50\n}\n";
/// let patch = r#"{"title": null, "tags": ["new"]}"#;
/// let new = merge_text(alloc, text, patch)?;
/// // "{\n  \"price\": 1.50,\n  \"tags\": [\"new\"]\n}\n"
/// ```
pub fn merge_text(alloc: Global, text: &str, patch: &str) -> Result<String, MergeTextFault>
    // What it says.
    ensures merged { IfOk result (λ new. SaysMerged text.now patch.now (string_bytes new)) }
    // Where the merge changes nothing, it changes no byte.
    ensures unchanged { IfOk result (λ new. IsMergedAlready text.now patch.now
        → string_bytes new ≡ text.now) }
    // How deep it nests.
    ensures depth { IfOk result (λ new.
        nesting (string_bytes new) ≤ max (nesting text.now) (nesting patch.now)) }
    // Its bytes.
    ensures kept { IfOk result (λ new. IsMergedText text.now patch.now (string_bytes new)) }
    // Why there is none.
    ensures fault { IfErr result (IsMergeTextFault text.now patch.now) }
{
    let text = document(alloc, text)?;
    let texts = patch_merged(alloc, text, patch)?;
    Ok(texts.document.to_text(alloc)?)
}

/// The same, if the new text has at most as many bytes as the document's, the patch's and `copied`
/// together; else `None`, and no text is made.
///
/// ```rust
/// let new = merge_text_within(alloc, r#"{ "a": 1}"#, r#"{"b":2}"#, 1)?;
/// // { "a": 1, "b": 2}
/// ```
pub fn merge_text_within(
    alloc: Global,
    text: &str,
    patch: &str,
    copied: usize,
) -> Result<Option<String>, MergeTextFault>
    // The text, as `merge_text` leaves it.
    ensures merged { IfOk result (λ found. IfSome found (λ new. SaysMerged text.now patch.now (string_bytes new))) }
    ensures unchanged { IfOk result (λ found. IfSome found (λ new. IsMergedAlready text.now patch.now
        → string_bytes new ≡ text.now)) }
    ensures depth { IfOk result (λ found. IfSome found (λ new.
        nesting (string_bytes new) ≤ max (nesting text.now) (nesting patch.now))) }
    ensures kept { IfOk result (λ found. IfSome found (λ new. IsMergedText text.now patch.now (string_bytes new))) }
    // How long it is at the most, and that else it would be longer.
    ensures small { IfOk result (λ found. IfSome found (λ new.
        length (string_bytes new) ≤ most_bytes copied text.now patch.now)) }
    ensures over { IfOk result (λ found. IfNone found (IsMergeOver copied text.now patch.now)) }
    // Why there is none.
    ensures fault { IfErr result (IsMergeTextFault text.now patch.now) }
{
    let text = document(alloc, text)?;
    merge_checked_within(alloc, text, patch, copied)
}

/// The same, of a document's text that was checked before: it isn't checked again.
pub fn merge_checked_within(
    alloc: Global,
    text: CheckedText,
    patch: &str,
    copied: usize,
) -> Result<Option<String>, MergeTextFault>
    ensures merged { IfOk result (λ found. IfSome found
        (λ new. SaysMerged (text_in text.entry) patch.now (string_bytes new))) }
    ensures unchanged { IfOk result (λ found. IfSome found (λ new.
        IsMergedAlready (text_in text.entry) patch.now → string_bytes new ≡ text_in text.entry)) }
    ensures depth { IfOk result (λ found. IfSome found (λ new.
        nesting (string_bytes new) ≤ max (nesting (text_in text.entry)) (nesting patch.now))) }
    ensures kept { IfOk result (λ found. IfSome found
        (λ new. IsMergedText (text_in text.entry) patch.now (string_bytes new))) }
    ensures small { IfOk result (λ found. IfSome found (λ new.
        length (string_bytes new) ≤ most_bytes copied (text_in text.entry) patch.now)) }
    ensures over { IfOk result
        (λ found. IfNone found (IsMergeOver copied (text_in text.entry) patch.now)) }
    ensures fault { IfErr result (IsMergeTextFault (text_in text.entry) patch.now) }
{
    let bytes = text.as_str().len();
    let texts = patch_merged(alloc, text, patch)?;
    let more = texts.document.len().saturating_sub(bytes);
    if more.saturating_sub(patch.len()) > copied {
        return Ok(None);
    }
    Ok(Some(texts.document.to_text(alloc)?))
}
