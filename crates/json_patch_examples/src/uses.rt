//! The programs of `json_patch_uses`.

ghost use Rattle.serde_json.specs.View.{view};
ghost use Rattle.json_patch.specs.Document.{IsDocument};

use crate::readme::rows::{done, left, no_row, told};
use json_kept_text::KeptText;
use json_patch::jsonptr::Pointer;
use json_patch::{Fault, Limits, Patch, document_from_str};
use json_patch_editor::Editor;
use json_patch_uses::{
    Guarded, Message, Settings, SharedDocument, Store, TextEditor, depth, element, merge_all,
    number_or, patch_section, receive, replace_with, send, tried, undo_newest, update_version,
};
use serde_json::Value;
use std::alloc::{AllocError, Global};

fn number(word: &str) -> usize {
    word.parse::<usize>().unwrap_or(0)
}

// ---- one call

pub(crate) fn of_pointer(alloc: Global, call: &str, text: &str) -> Result<String, AllocError> {
    let Ok(pointer) = Pointer::parse(text) else {
        return no_row(alloc);
    };
    if call == "depth" {
        return format!(in alloc; "{}", depth(pointer));
    }
    match element(pointer) {
        Some((array, place)) => format!(in alloc; "{array} {place}"),
        None => String::from_str(alloc, "nothing"),
    }
}

/// The number at a path, or 1.
pub(crate) fn number_at(alloc: Global, document: &str, place: &str) -> Result<String, Fault> {
    let document = document_from_str(alloc, document)?;
    let Ok(place) = Pointer::parse(place) else {
        return Ok(no_row(alloc)?);
    };
    Ok(format!(in alloc; "{}", number_or(&document, place, 1))?)
}

pub(crate) fn merged(
    alloc: Global,
    base: &str,
    first: &str,
    second: &str,
) -> Result<String, Fault> {
    let base = document_from_str(alloc, base)?;
    let first = document_from_str(alloc, first)?;
    let second = document_from_str(alloc, second)?;
    Ok(told(alloc, merge_all(alloc, &base, &[first, second]))?)
}

pub(crate) fn in_section(
    alloc: Global,
    document: &str,
    section: &str,
    text: &str,
) -> Result<String, Fault> {
    let mut document = document_from_str(alloc, document)?;
    let Ok(section) = Pointer::parse(section) else {
        return Ok(no_row(alloc)?);
    };
    let undo = told(alloc, patch_section(alloc, &mut document, section, text))?;
    Ok(left(alloc, &undo, &document)?)
}

/// What is left where the changes are kept, or taken back.
pub(crate) fn kept_or_back(
    alloc: Global,
    document: &str,
    changes: &str,
    word: &str,
) -> Result<String, Fault> {
    let document = document_from_str(alloc, document)?;
    let changes = Patch::from_str(alloc, changes)?;
    Ok(told(alloc, tried(alloc, document, &changes, word == "keep"))?)
}

pub(crate) fn of_version(
    alloc: Global,
    document: &str,
    version: &str,
    changes: &str,
) -> Result<String, Fault> {
    let mut document = document_from_str(alloc, document)?;
    let version = version.parse::<u64>().unwrap_or(0);
    let changes = Patch::from_str(alloc, changes)?;
    let answer = update_version(alloc, &mut document, version, changes);
    let told = told(alloc, done(answer))?;
    Ok(left(alloc, &told, &document)?)
}

/// The document that a version takes the place of, and what an undo leaves.
pub(crate) fn replaced(alloc: Global, document: Value, version: &Value) -> Result<String, Fault>
    requires document { IsDocument (view document) }
    requires version { IsDocument (view version.now) }
{
    let mut editor = Editor::open(alloc, document, 1);
    let answer = told(alloc, done(replace_with(alloc, &mut editor, version)))?;
    let there = left(alloc, &answer, editor.document())?;
    let undone = editor.undo(alloc)?;
    let back = left(alloc, &undone, editor.document())?;
    Ok(format!(in alloc; "{there}; {back}")?)
}

/// What is sent to a client when its settings change, and its copy after that.
pub(crate) fn sent(alloc: Global, mut copy: Value, settings: &Value) -> Result<String, Fault>
    requires copy { IsDocument (view copy) }
    requires settings { IsDocument (view settings.now) }
{
    let message = send(alloc, &copy, settings)?;
    receive(alloc, &mut copy, &message)?;
    let said = match &message {
        Message::Changes(changes) => changes.to_string(alloc)?,
        Message::Whole(_settings) => String::from_str(alloc, "whole")?,
    };
    Ok(left(alloc, &said, &copy)?)
}

// ---- one call after another

/// What a document is put through, command after command.
pub(crate) fn in_turn(alloc: Global, call: &str, words: &[String]) -> Result<String, Fault> {
    let Some((document, commands)) = words.split_first() else {
        return Ok(no_row(alloc)?);
    };
    let document = document_from_str(alloc, document.as_str())?;
    match call {
        "Guarded" => guarded(alloc, document, commands),
        "Settings" => Ok(settings(alloc, document, commands)?),
        "SharedDocument" => shared(alloc, document, commands),
        _ => Ok(stored(alloc, document, commands)?),
    }
}

fn stored(alloc: Global, document: Value, texts: &[String]) -> Result<String, AllocError>
    requires { IsDocument (view document) }
{
    let mut store = Store::open(document);
    let mut lines = String::new(alloc);
    for text in texts.iter() {
        rehearse(alloc, &mut store, text.as_str(), &mut lines)?;
        update(alloc, &mut store, text.as_str(), &mut lines)?;
    }
    Ok(lines)
}

fn rehearse(
    alloc: Global,
    store: &mut Store,
    text: &str,
    lines: &mut String,
) -> Result<(), AllocError> {
    let answer = told(alloc, done(store.rehearse(alloc, text)))?;
    append(alloc, lines, &answer, store.document())
}

/// An update, and what takes it back.
fn update(
    alloc: Global,
    store: &mut Store,
    text: &str,
    lines: &mut String,
) -> Result<(), AllocError> {
    match store.update(alloc, text) {
        Ok(undo) => {
            append(alloc, lines, "updated", store.document())?;
            let answer = told(alloc, done(store.revert(alloc, &undo)))?;
            append(alloc, lines, &answer, store.document())
        }
        Err(fault) => {
            let answer = format!(in alloc; "{fault}")?;
            append(alloc, lines, &answer, store.document())
        }
    }
}

fn append(
    alloc: Global,
    lines: &mut String,
    answer: &str,
    document: &Value,
) -> Result<(), AllocError> {
    let line = format!(in alloc; "{answer} leaves {document}; ")?;
    lines.push_str(line.as_str())
}

/// Changes, and all of them taken back.
fn settings(alloc: Global, document: Value, texts: &[String]) -> Result<String, AllocError>
    requires { IsDocument (view document) }
{
    let mut settings = Settings::open(alloc, document);
    let mut lines = String::new(alloc);
    for text in texts.iter() {
        let answer = told(alloc, done(settings.change(alloc, text.as_str())))?;
        append(alloc, &mut lines, &answer, settings.values())?;
    }
    settings.take_all_back(alloc)?;
    append(alloc, &mut lines, "all back", settings.values())?;
    Ok(lines)
}

/// A text whose changes are undone and made again: a command is `undo`, `redo` or a patch.
pub(crate) fn edited(alloc: Global, words: &[String]) -> Result<String, AllocError> {
    let Some((text, commands)) = words.split_first() else {
        return no_row(alloc);
    };
    let limits = Limits {
        depth: 100,
        copied: 100_000,
    };
    let kept = match KeptText::new(alloc, text.as_str(), limits) {
        Ok(kept) => kept,
        Err(fault) => return format!(in alloc; "{fault}"),
    };
    let mut editor = TextEditor::open(alloc, kept, 2);
    let mut lines = String::new(alloc);
    for command in commands.iter() {
        let answer = match command.as_str() {
            "undo" => told(alloc, editor.undo(alloc))?,
            "redo" => told(alloc, editor.redo(alloc))?,
            patch => told(alloc, done(editor.apply(alloc, patch)))?,
        };
        let text = editor.to_text(alloc)?;
        let line = format!(in alloc; "{answer} leaves {text}; ")?;
        lines.push_str(line.as_str())?;
    }
    Ok(lines)
}

/// The first two words are the levels and the size.
fn guarded(alloc: Global, document: Value, words: &[String]) -> Result<String, Fault>
    requires { IsDocument (view document) }
{
    let mut lines = String::new(alloc);
    let [levels, size, texts @ ..] = words else {
        return Ok(lines);
    };
    let (levels, size) = (number(levels.as_str()), number(size.as_str()));
    let Some(mut guarded) = Guarded::open(document, levels, size) else {
        return Ok(lines);
    };
    for text in texts.iter() {
        let answer = told(alloc, done(guarded.change(alloc, text.as_str())))?;
        append(alloc, &mut lines, &answer, guarded.document())?;
    }
    Ok(lines)
}

fn shared(alloc: Global, document: Value, commands: &[String]) -> Result<String, Fault>
    requires { IsDocument (view document) }
{
    let mut shared = SharedDocument::open(alloc, document);
    let mut lines = String::new(alloc);
    for command in commands.iter() {
        let answer = run(alloc, &mut shared, command.as_str())?;
        let line = format!(in alloc; "{answer}, version {}", shared.version())?;
        append(alloc, &mut lines, &line, shared.document())?;
    }
    Ok(lines)
}

/// `newest` takes back the newest change, `undo N` that of a version; else a patch is for a version.
fn run(alloc: Global, shared: &mut SharedDocument, command: &str) -> Result<String, Fault> {
    let Some((word, rest)) = command.split_once(' ') else {
        if shared.version() > 0 {
            undo_newest(alloc, shared)?;
        }
        return Ok(String::from_str(alloc, "newest")?);
    };
    if word == "undo" {
        return Ok(told(alloc, done(shared.undo(alloc, number(rest))))?);
    }
    let changes = Patch::from_str(alloc, rest)?;
    Ok(told(alloc, done(shared.update(alloc, number(word), changes)))?)
}
