//! The JSON text that bytes are.

ghost use Rattle.std.specs.Prelude.{◌≡◌, ◌≤◌, IfErr, IfOk, IsUtf8, OnOk};
ghost use Rattle.json_lexemes.specs.Skipped.{nesting};
ghost use Rattle.json_patch_bytes.specs.Failures.{IsFailure};
ghost use Rattle.json_patch_text_bytes.specs.Failures.{IsNamed, IsTold};
ghost use Rattle.json_patch_text_bytes.specs.Reasons.{of_text, of_texts, of_two};
ghost use Rattle.json_patch_text_bytes.specs.Texts.{HasAtMost, IsJsonText, IsNoFlatText};
ghost use Rattle.json_text.specs.Checked.{text_in};

use crate::count::counted_text;
use crate::failures::of_document;
use json_patch_bytes::failure::Failure;
use json_patch_bytes::kinds::{NOT_JSON, TOO_DEEP};
use json_patch_bytes::unread::kind_of_no_json;
use json_text::{CheckedText, TextFault, is_deeper};
use simdutf8::compat::from_utf8;
use std::alloc::Global;

/// The most levels of a patch's text, as of one whose values are documents.
pub(crate) const MOST_OF_PATCH: usize = 127;

/// The text that the bytes are, of at most so many levels, or the kind of what is wrong with them.
/// Whether it is JSON isn't looked at.
pub(crate) fn flat_text(bytes: &[u8], levels: usize) -> Result<&str, u8>
    ensures text { IfOk result (λ text. (text.now ≡ bytes.now) × IsUtf8 bytes.now
        × (nesting bytes.now ≤ levels)) }
    ensures kind { IfErr result (IsNoFlatText levels bytes.now) }
{
    let Ok(text) = from_utf8(bytes) else {
        return Err(NOT_JSON);
    };
    if is_deeper(text, levels) {
        return Err(TOO_DEEP);
    }
    Ok(text)
}

/// The texts that the bytes of a document and of a second text are, or what is wrong with one, the
/// document's first. Whether the second is JSON isn't looked at.
pub(crate) fn two_texts<'a>(
    alloc: Global,
    document: &'a [u8],
    second: &'a [u8],
    levels: usize,
) -> Result<(&'a str, &'a str), Failure>
    requires { levels ≤ 124 }
    ensures document { IfOk result (λ two. (two.0.now ≡ document.now) × IsUtf8 document.now
        × (nesting document.now ≤ levels)) }
    ensures second { IfOk result (λ two. (two.1.now ≡ second.now) × IsUtf8 second.now
        × (nesting second.now ≤ levels)) }
    ensures failure { IfErr result (IsFailure (of_two levels document.now second.now)) }
{
    let text = match flat_text(document, levels) {
        Ok(text) => text,
        Err(kind) => return Err(Failure::NoDocument(kind)),
    };
    match flat_text(second, levels) {
        Ok(second) => Ok((text, second)),
        Err(kind) => Err(told(alloc, document, second, levels, Failure::NoPatch(0, kind))),
    }
}

/// The texts that the bytes of a document and of a patch are, or what is wrong with one, the document's first.
/// Of the document no more than its bytes is looked at, and of the patch how many operations it has, where they are
/// limited: to patch reads both.
#[tactic(auto, using(crate::proofs::Faults::counted_texts))]
pub(crate) fn text_and_patch<'a>(
    alloc: Global,
    document: &'a [u8],
    patch: &'a [u8],
    levels: usize,
    most: Option<usize>,
) -> Result<(&'a str, &'a str), Failure>
    requires { levels ≤ 124 }
    ensures document { IfOk result (λ two. (two.0.now ≡ document.now) × IsUtf8 document.now) }
    ensures few { OnOk result (HasAtMost most patch.now) }
    ensures patch { IfOk result (λ two. (two.1.now ≡ patch.now) × IsUtf8 patch.now × (nesting patch.now ≤ 127)) }
    ensures failure { IfErr result (IsFailure (of_texts most levels document.now patch.now)) }
{
    let Ok(text) = from_utf8(document) else {
        return Err(Failure::NoDocument(NOT_JSON));
    };
    match counted_text(alloc, patch, most) {
        Ok(patch) => Ok((text, patch)),
        Err(failure) => Err(told(alloc, document, patch, levels, failure)),
    }
}

/// The JSON text that the bytes are, of at most so many levels, and else why they are none.
pub(crate) fn checked_text(
    alloc: Global,
    bytes: &[u8],
    levels: usize,
) -> Result<CheckedText<'_>, Failure>
    requires { levels ≤ 124 }
    ensures text { IfOk result (λ text. (text_in text ≡ bytes.now) × IsJsonText levels bytes.now) }
    ensures failure { IfErr result (IsFailure (of_text levels bytes.now)) }
{
    // One pass checks the text and how deep it nests, where nothing is wrong with it.
    if let Ok(text) = from_utf8(bytes) {
        if let Some(checked) = CheckedText::within(text, levels) {
            return Ok(checked);
        }
    }
    let text = match flat_text(bytes, levels) {
        Ok(text) => text,
        Err(kind) => return Err(Failure::NoDocument(kind)),
    };
    match CheckedText::new(alloc, text) {
        Ok(checked) => Ok(checked),
        Err(TextFault::NotJson) => match kind_of_no_json(alloc, bytes) {
            Ok(kind) => Err(Failure::NoDocument(kind)),
            Err(_) => Err(Failure::Memory),
        },
        Err(fault) => Err(of_document(fault)),
    }
}

/// The failure, with the kind of what is wrong with the second text where that isn't JSON.
pub(crate) fn named(alloc: Global, second: &[u8], failure: Failure) -> Failure
    ensures { IsNamed second.now failure result }
{
    let Failure::NoPatch(0, NOT_JSON) = failure else {
        return failure;
    };
    match kind_of_no_json(alloc, second) {
        Ok(kind) => Failure::NoPatch(0, kind),
        Err(_) => Failure::Memory,
    }
}

/// The failure that is told where a call fails so: one that speaks of a text only where the document's
/// bytes are a JSON text, and else why they are none.
pub(crate) fn told(
    alloc: Global,
    document: &[u8],
    second: &[u8],
    levels: usize,
    failure: Failure,
) -> Failure
    requires { levels ≤ 124 }
    ensures { IsTold levels document.now second.now failure result }
{
    match failure {
        Failure::NoDocument(_) | Failure::NoPatch(_, _) | Failure::TooMany(_) => {}
        _ => return failure,
    }
    match checked_text(alloc, document, levels) {
        Ok(_) => named(alloc, second, failure),
        Err(own) => own,
    }
}
