//! What a row asks for.

use crate::{examples, keeps, merges, patches, pieces, places, records};
use json_diff_text::{guarded_diff_text, merge_both_text, merge_diff_text};
use json_patch_limits::limits::Limits;
use json_text::{CheckedText, add, remove, replace};
use jsonptr::Pointer;
use serde_json::Value;
use std::alloc::{AllocError, Global};
use std::fmt::Display;

/// The line that answers a line.
pub(crate) fn answer(alloc: Global, line: &str) -> Result<String, AllocError> {
    if line.starts_with('#') {
        return String::from_str(alloc, line);
    }
    let words = words_of(alloc, line)?;
    match words.as_slice() {
        [call, text] => on_one(alloc, call.as_str(), text.as_str()),
        [call, text, second] => on_two(alloc, call.as_str(), text.as_str(), second.as_str()),
        [call, text, place, third] => on_three(
            alloc,
            call.as_str(),
            text.as_str(),
            place.as_str(),
            third.as_str(),
        ),
        [call, text, patch, depth, copied] => {
            let depth = number(depth.as_str());
            let copied = number(copied.as_str());
            within(
                alloc,
                call.as_str(),
                text.as_str(),
                patch.as_str(),
                Limits { depth, copied },
            )
        }
        _ => no_row(alloc),
    }
}

fn within(
    alloc: Global,
    call: &str,
    text: &str,
    patch: &str,
    limits: Limits,
) -> Result<String, AllocError> {
    let Limits { depth, copied } = limits;
    match call {
        "record_text_within" => records::within(alloc, text, patch, depth, copied),
        "KeptText::merge" => told(alloc, keeps::merged(alloc, text, patch, depth, copied)),
        _ => told(alloc, patches::within(alloc, text, patch, depth, copied)),
    }
}

fn on_one(alloc: Global, call: &str, text: &str) -> Result<String, AllocError> {
    match call {
        "CheckedText::new" => told(alloc, places::checked(alloc, text)),
        "Shape::of" => told(alloc, places::shape(alloc, text)),
        "child_texts" => told(alloc, places::children(alloc, text)),
        "string_of" => told(alloc, places::string(alloc, text)),
        _ => no_row(alloc),
    }
}

fn on_two(alloc: Global, call: &str, text: &str, second: &str) -> Result<String, AllocError> {
    match call {
        "CheckedText::within" => {
            let checked = CheckedText::within(text, number(second));
            yes_or_no(alloc, checked.is_some())
        }
        "diff_text" => told(alloc, json_diff_text::diff_text(alloc, text, second)),
        "moving_diff_text" => told(alloc, json_diff_text::moving_diff_text(alloc, text, second)),
        "guarded_diff_text" => told(alloc, guarded_diff_text(alloc, text, second)),
        "is_deeper" => yes_or_no(alloc, json_text::is_deeper(text, number(second))),
        "merge_text" => told(alloc, json_merge_text::merge_text(alloc, text, second)),
        "merge_diff_text" => merges::if_made(alloc, merge_diff_text(alloc, text, second)),
        "merge_both_text" => merges::if_made(alloc, merge_both_text(alloc, text, second)),
        "patch_text" => told(alloc, json_patch_text::patch_text(alloc, text, second)),
        "record_text" => records::recorded(alloc, text, second),
        "Pieces" => told(alloc, pieces::changed(alloc, text, second)),
        "KeptText" => told(alloc, keeps::changed(alloc, text, second)),
        _ => on_place(alloc, call, text, second),
    }
}

fn on_place(alloc: Global, call: &str, text: &str, place: &str) -> Result<String, AllocError> {
    let Ok(place) = Pointer::parse(place) else {
        return no_row(alloc);
    };
    match call {
        "value_text" => told(alloc, places::value(alloc, text, place)),
        "split_around" => told(alloc, places::around(alloc, text, place)),
        "remove" => told(alloc, remove(alloc, text, place)),
        "example" => examples::answer(alloc, text, place),
        _ => no_row(alloc),
    }
}

fn on_three(
    alloc: Global,
    call: &str,
    text: &str,
    place: &str,
    third: &str,
) -> Result<String, AllocError> {
    if call == "merge_text_within" {
        return merges::within(alloc, text, place, number(third));
    }
    let Ok(place) = Pointer::parse(place) else {
        return no_row(alloc);
    };
    match call {
        "add" => told(alloc, add(alloc, text, place, third)),
        "replace" => told(alloc, replace(alloc, text, place, third)),
        "is_written" => told(alloc, places::written(alloc, text, place, third)),
        _ => no_row(alloc),
    }
}

/// The words of a row. A word is a string, or an array of strings that is put together: of one that
/// begins with a number that many.
fn words_of(alloc: Global, line: &str) -> Result<Vec<String>, AllocError> {
    let mut words = Vec::new(alloc);
    let Ok(Value::Array(elements)) = Value::from_str(alloc, line) else {
        return Ok(words);
    };
    for element in elements.iter() {
        let mut word = String::new(alloc);
        append(&mut word, element)?;
        words.push(word)?;
    }
    Ok(words)
}

/// Appends a string, or each string of an array.
fn append(word: &mut String, element: &Value) -> Result<(), AllocError> {
    if let Some(text) = element.as_str() {
        return word.push_str(text);
    }
    let Some(parts) = element.as_array() else {
        return Ok(());
    };
    let mut times = 1;
    for part in parts.iter() {
        if let Some(count) = part.as_u64() {
            times = count;
        } else if let Some(text) = part.as_str() {
            for _ in 0..times {
                word.push_str(text)?;
            }
            times = 1;
        }
    }
    Ok(())
}

fn number(word: &str) -> usize {
    word.parse::<usize>().unwrap_or(0)
}

fn no_row(alloc: Global) -> Result<String, AllocError> {
    String::from_str(alloc, "no row")
}

fn yes_or_no(alloc: Global, answer: bool) -> Result<String, AllocError> {
    String::from_str(alloc, if answer { "yes" } else { "no" })
}

/// The line for a text, or for why there is none.
pub(crate) fn told<E: Display + Drop>(
    alloc: Global,
    answer: Result<String, E>,
) -> Result<String, AllocError> {
    match answer {
        Ok(text) => Value::String(text).to_string(alloc),
        Err(fault) => format!(in alloc; "{fault}"),
    }
}
