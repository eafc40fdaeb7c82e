//! The examples of the comments, each at a place that the row tells.

use crate::places::{found, shape_name};
use crate::rows::told;
use crate::{differences, keeps, merges, patches, records};
use json_lexemes::Signposts;
use json_pieces::{Pieces, Taken};
use json_text::{
    ChangeFault, CheckedText, TextFault, add, child_texts, is_deeper, plain_string, remove,
    replace, split_around, string_of, value_text,
};
use jsonptr::Pointer;
use std::alloc::{AllocError, Global};

/// The line of the example that a call has in its comment.
pub(crate) fn answer(alloc: Global, call: &str, place: Pointer) -> Result<String, AllocError> {
    match call {
        "value_text" => told(alloc, array_in(alloc, place)),
        "split_around" => told(alloc, parts_around(alloc, place)),
        "add" => told(alloc, added(alloc, place)),
        "remove" => told(alloc, removed(alloc, place)),
        "replace" => told(alloc, replaced(alloc, place)),
        "is_deeper" => told(alloc, found(alloc, array_in_object().then_some("yes"))),
        "child_texts" => told(alloc, texts_in_object(alloc)),
        "string_of" => told(alloc, name_in_text(alloc)),
        "plain_string" => told(alloc, plain_name(alloc)),
        "patch_text" | "patch_text_within" | "patch_pieces" => patches::shown(alloc, call),
        "record_text" | "record_text_within" => records::shown(alloc, call),
        "merge_text" | "merge_text_within" => merges::shown(alloc, call),
        "diff_text"
        | "moving_diff_text"
        | "guarded_diff_text"
        | "merge_diff_text"
        | "merge_both_text" => differences::shown(alloc, call),
        _ => of_checked(alloc, call, place),
    }
}

fn of_checked(alloc: Global, call: &str, place: Pointer) -> Result<String, AllocError> {
    match call {
        "CheckedText::within" => told(alloc, found(alloc, is_of_two_levels().then_some("yes"))),
        "CheckedText::signposted" => told(alloc, found(alloc, is_signposted().then_some("yes"))),
        "CheckedText::value" => told(alloc, array_in_checked(alloc, place)),
        "CheckedText::add" => told(alloc, added_to_checked(alloc, place)),
        "CheckedText::remove" => told(alloc, removed_from_checked(alloc, place)),
        "CheckedText::replace" => told(alloc, replaced_in_checked(alloc, place)),
        "Pieces" => told(alloc, moved_out(alloc, place)),
        "Pieces::value" => told(alloc, array_in_pieces(alloc, place)),
        "Pieces::shape" => told(alloc, shape_in_pieces(alloc, place)),
        "Pieces::add" => told(alloc, added_to_pieces(alloc, place)),
        "Pieces::remove" => told(alloc, removed_from_pieces(alloc, place)),
        "Pieces::take" => told(alloc, moved_in_pieces(alloc, place)),
        "Pieces::take_back" => told(alloc, taken_back(alloc, place)),
        "Taken" => told(alloc, text_of_taken(alloc)),
        "Pieces::replace" => told(alloc, replaced_in_pieces(alloc, place)),
        _ => keeps::shown(alloc, call, place),
    }
}

// ---- of the functions on texts

fn array_in(alloc: Global, place: Pointer) -> Result<String, TextFault> {
    let text = r#"{"name": "x", "list": [1.50, "\u0041"] }"#;
    let array = value_text(alloc, text, place)?;
    Ok(found(alloc, array)?)
}

fn parts_around(alloc: Global, place: Pointer) -> Result<String, AllocError> {
    let text = r#"{"list": [1.50, 2] }"#;
    let parts = split_around(alloc, text, place.tokens())?;
    format!(in alloc; "{parts:?}")
}

fn replaced(alloc: Global, place: Pointer) -> Result<String, ChangeFault> {
    let text = r#"{"name": "x", "list": [1.50, 2] }"#;
    let new = replace(alloc, text, place, "7")?;
    Ok(new)
}

fn removed(alloc: Global, place: Pointer) -> Result<String, ChangeFault> {
    let text = r#"{"name": "x", "list": [1.50, 2] }"#;
    let new = remove(alloc, text, place)?;
    Ok(new)
}

fn added(alloc: Global, place: Pointer) -> Result<String, ChangeFault> {
    let text = r#"{"name": "x", "list": [1.50, 2] }"#;
    let new = add(alloc, text, place, "7")?;
    Ok(new)
}

fn array_in_object() -> bool {
    is_deeper(r#"{"a": [1]}"#, 1)
}

fn texts_in_object(alloc: Global) -> Result<String, AllocError> {
    let found = child_texts(alloc, r#"{"a": 1.50, "b": [ ]}"#)?;
    format!(in alloc; "{found:?}")
}

fn name_in_text(alloc: Global) -> Result<String, AllocError> {
    let name = string_of(alloc, r#""caf\u00e9""#)?;
    found(alloc, name.as_ref().map(|name| name.as_str()))
}

fn plain_name(alloc: Global) -> Result<String, AllocError> {
    let name = plain_string(r#""café""#);
    found(alloc, name)
}

// ---- of a checked text

fn is_of_two_levels() -> bool {
    let text = CheckedText::within(r#"{"list": [1.50, 2] }"#, 2);
    text.is_some()
}

fn is_signposted() -> bool {
    let mut signposts = Signposts::new();
    let text = CheckedText::signposted(r#"{"list": [1.50, 2] }"#, 2, &mut signposts);
    text.is_some()
}

fn array_in_checked(alloc: Global, place: Pointer) -> Result<String, TextFault> {
    let text = CheckedText::new(alloc, r#"{"list": [1.50, 2] }"#)?;
    let array = text.value(alloc, place)?;
    Ok(found(alloc, array.map(|array| array.as_str()))?)
}

fn replaced_in_checked(alloc: Global, place: Pointer) -> Result<String, TextFault> {
    let text = CheckedText::new(alloc, r#"{"list": [1.50, 2] }"#)?;
    let value = CheckedText::new(alloc, "7")?;
    let new = text.replace(alloc, place, value)?;
    Ok(left(alloc, new)?)
}

fn removed_from_checked(alloc: Global, place: Pointer) -> Result<String, TextFault> {
    let text = CheckedText::new(alloc, r#"{"list": [1.50, 2] }"#)?;
    let new = text.remove(alloc, place)?;
    Ok(left(alloc, new)?)
}

fn added_to_checked(alloc: Global, place: Pointer) -> Result<String, TextFault> {
    let text = CheckedText::new(alloc, r#"{"list": [1.50, 2] }"#)?;
    let value = CheckedText::new(alloc, "7")?;
    let new = text.add(alloc, place, value)?;
    Ok(left(alloc, new)?)
}

/// The text that a change leaves, or `nothing` where there is no such place.
fn left(alloc: Global, new: Option<String>) -> Result<String, AllocError> {
    match new {
        Some(new) => Ok(new),
        None => found(alloc, None),
    }
}

// ---- of pieces

fn array_in_pieces(alloc: Global, place: Pointer) -> Result<String, TextFault> {
    let text = CheckedText::new(alloc, r#"{"list": [1.50, 2] }"#)?;
    let mut pieces = Pieces::new(text);
    pieces.close_if_large(alloc)?;
    let array = pieces.value(alloc, place)?;
    Ok(left(alloc, array)?)
}

fn shape_in_pieces(alloc: Global, place: Pointer) -> Result<String, TextFault> {
    let text = CheckedText::new(alloc, r#"{"list": [1.50, 2] }"#)?;
    let mut pieces = Pieces::owned(alloc, text)?;
    let shape = pieces.shape(alloc, place)?;
    Ok(String::from_str(alloc, shape_name(shape))?)
}

fn replaced_in_pieces(alloc: Global, place: Pointer) -> Result<String, TextFault> {
    let text = CheckedText::new(alloc, r#"{"list": [1.50, 2] }"#)?;
    let value = CheckedText::new(alloc, "7")?;
    let mut pieces = Pieces::new(text);
    let done = pieces.replace(alloc, place, value)?;
    let new = pieces.to_text(alloc)?;
    Ok(left(alloc, done.then_some(new))?)
}

fn removed_from_pieces(alloc: Global, place: Pointer) -> Result<String, TextFault> {
    let text = CheckedText::new(alloc, r#"{"list": [1.50, 2] }"#)?;
    let mut pieces = Pieces::new(text);
    let done = pieces.remove(alloc, place)?;
    let new = pieces.to_text(alloc)?;
    Ok(left(alloc, done.then_some(new))?)
}

fn added_to_pieces(alloc: Global, place: Pointer) -> Result<String, TextFault> {
    let text = CheckedText::new(alloc, r#"{"list": [1.50, 2] }"#)?;
    let value = CheckedText::new(alloc, "7")?;
    let mut pieces = Pieces::new(text);
    let done = pieces.add(alloc, place, value)?;
    let new = pieces.to_text(alloc)?;
    Ok(left(alloc, done.then_some(new))?)
}

fn moved_in_pieces(alloc: Global, place: Pointer) -> Result<String, TextFault> {
    let text = CheckedText::new(alloc, r#"{"list": [1.50, 2] }"#)?;
    let mut pieces = Pieces::new(text);
    let Ok(from) = Pointer::parse("/list/0") else {
        return Ok(left(alloc, None)?);
    };
    if let Some(taken) = pieces.take(alloc, from)? {
        let done = pieces.put(alloc, place, taken)?;
        let new = pieces.to_text(alloc)?;
    }
    let new = pieces.to_text(alloc)?;
    Ok(left(alloc, Some(new))?)
}

/// What is changed since a mark is taken back.
fn taken_back(alloc: Global, place: Pointer) -> Result<String, TextFault> {
    let text = CheckedText::new(alloc, r#"{"list": [1.50, 2] }"#)?;
    let mut pieces = Pieces::owned(alloc, text)?;
    pieces.mark(alloc)?;
    let done = pieces.remove(alloc, place)?;
    pieces.take_back();
    let old = pieces.to_text(alloc)?;
    pieces.forget();
    Ok(left(alloc, done.then_some(old))?)
}

fn text_of_taken(alloc: Global) -> Result<String, TextFault> {
    let text = CheckedText::new(alloc, " [1.50, 2]\n")?;
    let taken = Taken::new(alloc, text)?;
    let value = taken.into_text(alloc)?;
    Ok(value)
}

/// What stands there is read and then taken out: both texts, a line each.
fn moved_out(alloc: Global, place: Pointer) -> Result<String, TextFault> {
    let text = CheckedText::new(alloc, r#"{"list": [1.50, 2] }"#)?;
    let mut pieces = Pieces::new(text);
    let first = pieces.value(alloc, place)?;
    let done = pieces.remove(alloc, place)?;
    let new = pieces.to_text(alloc)?;
    let first = left(alloc, first)?;
    let new = left(alloc, done.then_some(new))?;
    Ok(format!(in alloc; "{first}\n{new}")?)
}
