//! What a row asks for.

ghost use Rattle.serde_json.specs.View.{view};
ghost use Rattle.json_patch.specs.Document.{IsDocument};
ghost use Rattle.json_patch.specs.Operation.{AreWhole, operations_of};

use crate::readme::{
    from_bytes, from_texts, has_two_levels, is_of_ann, is_of_size_four, led_there, left_part_way,
    made_late, merged_and_looked_up, moved_there, taken_back, there_and_back,
    there_and_back_within, told_within, what_was_refused, written_and_read,
};
use crate::{callers, uses};
use json_patch::{Fault, Patch, document_from_str};
use json_patch_uses::{first_example, member, patched};
use serde_json::Value;
use std::alloc::{AllocError, Global};
use std::fmt::Display;

/// The line that answers a line.
pub(crate) fn answer(alloc: Global, line: &str) -> Result<String, AllocError> {
    if line.starts_with('#') {
        return String::from_str(alloc, line);
    }
    let words = words_of(alloc, line)?;
    let Some((call, rest)) = words.as_slice().split_first() else {
        return no_row(alloc);
    };
    told(alloc, on_words(alloc, call.as_str(), rest))
}

fn on_words(alloc: Global, call: &str, words: &[String]) -> Result<String, Fault> {
    match (call, words) {
        ("Guarded" | "Settings" | "SharedDocument" | "Store", words) => {
            uses::in_turn(alloc, call, words)
        }
        ("TextEditor", words) => Ok(uses::edited(alloc, words)?),
        (_, []) => on_none(alloc, call),
        (_, [text]) => on_one(alloc, call, text.as_str()),
        (_, [first, second]) => on_two(alloc, call, first.as_str(), second.as_str()),
        (_, [first, second, third]) => on_three(
            alloc,
            call,
            first.as_str(),
            second.as_str(),
            third.as_str(),
        ),
        _ => Ok(no_row(alloc)?),
    }
}

fn on_none(alloc: Global, call: &str) -> Result<String, Fault> {
    match call {
        "first_example" => Ok(told(alloc, first_example(alloc))?),
        "from_texts" => Ok(told(alloc, from_texts(alloc))?),
        _ => Ok(no_row(alloc)?),
    }
}

fn on_one(alloc: Global, call: &str, text: &str) -> Result<String, Fault> {
    match call {
        "back_and_on" => callers::answer(alloc, &Patch::from_str(alloc, text)?),
        "depth" | "item" => Ok(uses::of_pointer(alloc, call, text)?),
        "is_of_ann" => Ok(told(alloc, is_of_ann(&Patch::from_str(alloc, text)?))?),
        _ => on_document(alloc, call, document_from_str(alloc, text)?),
    }
}

fn on_document(alloc: Global, call: &str, mut document: Value) -> Result<String, Fault>
    requires { IsDocument (view document) }
{
    match call {
        "has_two_levels" => Ok(yes_or_no(alloc, has_two_levels(document))?),
        "is_of_size_four" => Ok(yes_or_no(alloc, is_of_size_four(document))?),
        "written_and_read" => Ok(told(alloc, written_and_read(alloc, document))?),
        "merged_and_looked_up" => match merged_and_looked_up(alloc, &mut document)? {
            Some(found) => Ok(left(alloc, &found, &document)?),
            None => Ok(no_row(alloc)?),
        },
        _ => Ok(no_row(alloc)?),
    }
}

fn on_two(alloc: Global, call: &str, first: &str, second: &str) -> Result<String, Fault> {
    match call {
        "from_bytes" => {
            let changes = Patch::from_str(alloc, second)?;
            Ok(told(alloc, from_bytes(alloc, first.as_bytes(), &changes))?)
        }
        "led_there" | "moved_there" | "replace_with" | "send" => {
            let document = document_from_str(alloc, first)?;
            on_documents(alloc, call, document, &document_from_str(alloc, second)?)
        }
        "member" => Ok(told(alloc, member(alloc, first, second))?),
        "number_or" => uses::number_at(alloc, first, second),
        "patched" => Ok(told(alloc, patched(alloc, first, second))?),
        _ => {
            let document = document_from_str(alloc, first)?;
            on_patch(alloc, call, document, &Patch::from_str(alloc, second)?)
        }
    }
}

fn on_documents(
    alloc: Global,
    call: &str,
    mut document: Value,
    goal: &Value,
) -> Result<String, Fault>
    requires document { IsDocument (view document) }
    requires goal { IsDocument (view goal.now) }
{
    match call {
        "led_there" => {
            let told = led_there(alloc, &mut document, goal)?;
            Ok(left(alloc, &told, &document)?)
        }
        "moved_there" => {
            let told = moved_there(alloc, &mut document, goal)?;
            Ok(left(alloc, &told, &document)?)
        }
        "send" => uses::sent(alloc, document, goal),
        _ => uses::replaced(alloc, document, goal),
    }
}

fn on_patch(
    alloc: Global,
    call: &str,
    mut document: Value,
    changes: &Patch,
) -> Result<String, Fault>
    requires document { IsDocument (view document) }
    requires whole { AreWhole (operations_of changes.now) }
{
    if call == "taken_back" {
        return Ok(told(alloc, taken_back(alloc, document, changes))?);
    }
    let told = match call {
        "left_part_way" => {
            let made = left_part_way(alloc, &mut document, changes)?;
            format!(in alloc; "{made}")?
        }
        "there_and_back" => there_and_back(alloc, &mut document, changes)?,
        "there_and_back_within" => {
            let answer = there_and_back_within(alloc, &mut document, changes);
            told(alloc, done(answer))?
        }
        "told_within" => told_within(alloc, &mut document, changes)?,
        _ => what_was_refused(alloc, &mut document, changes)?,
    };
    Ok(left(alloc, &told, &document)?)
}

fn on_three(
    alloc: Global,
    call: &str,
    first: &str,
    second: &str,
    third: &str,
) -> Result<String, Fault> {
    match call {
        "made_late" => {
            let mut document = document_from_str(alloc, first)?;
            let late = Patch::from_str(alloc, second)?;
            let since = Patch::from_str(alloc, third)?;
            let made = made_late(alloc, &mut document, &late, &since)?;
            Ok(left(alloc, &made, &document)?)
        }
        "merge_all" => uses::merged(alloc, first, second, third),
        "patch_section" => uses::in_section(alloc, first, second, third),
        "tried" => uses::kept_or_back(alloc, first, second, third),
        "update_version" => uses::of_version(alloc, first, second, third),
        _ => Ok(no_row(alloc)?),
    }
}

fn words_of(alloc: Global, line: &str) -> Result<Vec<String>, AllocError> {
    let mut words = Vec::new(alloc);
    let Ok(Value::Array(items)) = Value::from_str(alloc, line) else {
        return Ok(words);
    };
    for item in items.iter() {
        let word = match item.as_str() {
            Some(text) => String::from_str(alloc, text)?,
            None => item.to_string(alloc)?,
        };
        words.push(word)?;
    }
    Ok(words)
}

pub(crate) fn no_row(alloc: Global) -> Result<String, AllocError> {
    String::from_str(alloc, "no row")
}

fn yes_or_no(alloc: Global, answer: bool) -> Result<String, AllocError> {
    String::from_str(alloc, if answer { "yes" } else { "no" })
}

/// `done`, in place of a result that is empty.
pub(crate) fn done<E>(answer: Result<(), E>) -> Result<&'static str, E> {
    match answer {
        Ok(()) => Ok("done"),
        Err(fault) => Err(fault),
    }
}

/// The text of a result, or of why there is none.
pub(crate) fn told<T: Display + Drop, E: Display + Drop>(
    alloc: Global,
    answer: Result<T, E>,
) -> Result<String, AllocError> {
    match answer {
        Ok(answer) => format!(in alloc; "{answer}"),
        Err(fault) => format!(in alloc; "{fault}"),
    }
}

/// The text of an answer, and of what it leaves.
pub(crate) fn left<T: Display>(
    alloc: Global,
    answer: &T,
    document: &Value,
) -> Result<String, AllocError> {
    format!(in alloc; "{answer} leaves {document}")
}
