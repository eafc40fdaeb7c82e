//! Merging into a text within a limit, and the examples of merging.

use crate::places::found;
use crate::rows::told;
use json_merge_text::{MergeTextFault, merge_text, merge_text_within};
use std::alloc::{AllocError, Global};
use std::fmt::Display;

fn example(alloc: Global) -> Result<String, MergeTextFault> {
    let text = "{\n  \"title\": \"Hello!\",\n  \"price\": 1.50\n}\n";
    let patch = r#"{"title": null, "tags": ["new"]}"#;
    let new = merge_text(alloc, text, patch)?;
    Ok(new)
}

fn within_example(alloc: Global) -> Result<Option<String>, MergeTextFault> {
    let new = merge_text_within(alloc, r#"{ "a": 1}"#, r#"{"b":2}"#, 1)?;
    Ok(new)
}

/// The line of the example.
pub(crate) fn shown(alloc: Global, call: &str) -> Result<String, AllocError> {
    match call {
        "merge_text" => told(alloc, example(alloc)),
        _ => if_made(alloc, within_example(alloc)),
    }
}

/// The line of a merge within a limit.
pub(crate) fn within(
    alloc: Global,
    text: &str,
    patch: &str,
    copied: usize,
) -> Result<String, AllocError> {
    if_made(alloc, merge_text_within(alloc, text, patch, copied))
}

/// The line for a text, if there is one, or for why there is no answer.
pub(crate) fn if_made<E: Display + Drop>(
    alloc: Global,
    answer: Result<Option<String>, E>,
) -> Result<String, AllocError> {
    match answer {
        Ok(Some(new)) => told::<E>(alloc, Ok(new)),
        Ok(None) => found(alloc, None),
        Err(fault) => told(alloc, Err(fault)),
    }
}
