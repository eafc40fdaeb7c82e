//! Calls on a document.

ghost use Rattle.std.specs.Prelude.{IfOk};
ghost use Rattle.serde_json.specs.View.{view};
ghost use Rattle.json_patch.specs.Document.{IsDocument};
ghost use Rattle.json_patch.specs.Operation.{AreWhole, operations_of};

use crate::counted::{counted, line};
use json_patch::{Patch, PatchFault, document_from_str};
use serde_json::Value;
use std::alloc::AllocError;
use std::io;
use std::io::ErrorKind;

/// `done`, in place of a result that is empty.
pub(crate) fn done<E>(answer: Result<(), E>) -> Result<&'static str, E> {
    match answer {
        Ok(()) => Ok("done"),
        Err(fault) => Err(fault),
    }
}

pub(crate) fn patch(rt: &HostRuntime, document: &str, changes: &str) -> io::Result<String> {
    let mut document = document_of(rt, document)?;
    let changes = patch_of(rt, changes)?;
    let answer = counted!(rt; json_patch::patch(rt.alloc(), &mut document, changes.as_slice()));
    line(rt, &done(answer), &document)
}

pub(crate) fn patch_unsafe(rt: &HostRuntime, document: &str, changes: &str) -> io::Result<String> {
    let mut document = document_of(rt, document)?;
    let changes = patch_of(rt, changes)?;
    let answer =
        counted!(rt; json_patch::patch_unsafe(rt.alloc(), &mut document, changes.as_slice()));
    line(rt, &done(answer), &document)
}

pub(crate) fn apply_patches(rt: &HostRuntime, document: &str, changes: &str) -> io::Result<String> {
    let mut document = document_of(rt, document)?;
    let changes = patch_of(rt, changes)?;
    let answer =
        counted!(rt; json_patch::apply_patches(rt.alloc(), &mut document, changes.as_slice()));
    line(rt, &answer, &document)
}

pub(crate) fn merge(rt: &HostRuntime, document: &str, changes: &str) -> io::Result<String> {
    let mut document = document_of(rt, document)?;
    let changes = document_of(rt, changes)?;
    let answer = counted!(rt; json_patch::merge(rt.alloc(), &mut document, &changes));
    let answer = done(answer.map_err(PatchFault::Memory));
    line(rt, &answer, &document)
}

pub(crate) fn diff(rt: &HostRuntime, from: &str, to: &str) -> io::Result<String> {
    let from = document_of(rt, from)?;
    let to = document_of(rt, to)?;
    let answer = counted!(rt; json_patch_diff::diff(rt.alloc(), &from, &to));
    line(rt, &answer.map_err(PatchFault::Memory), &from)
}

pub(crate) fn guarded_diff(rt: &HostRuntime, from: &str, to: &str) -> io::Result<String> {
    let from = document_of(rt, from)?;
    let to = document_of(rt, to)?;
    let answer = counted!(rt; json_patch_diff::guarded_diff(rt.alloc(), &from, &to));
    line(rt, &answer.map_err(PatchFault::Memory), &from)
}

pub(crate) fn moving_diff(rt: &HostRuntime, from: &str, to: &str) -> io::Result<String> {
    let from = document_of(rt, from)?;
    let to = document_of(rt, to)?;
    let answer = counted!(rt; json_patch_moves::moving_diff(rt.alloc(), &from, &to));
    line(rt, &answer.map_err(PatchFault::Memory), &from)
}

pub(crate) fn merge_diff(rt: &HostRuntime, from: &str, to: &str) -> io::Result<String> {
    let from = document_of(rt, from)?;
    let to = document_of(rt, to)?;
    let answer = counted!(rt; json_merge_diff::merge_diff(rt.alloc(), &from, &to));
    made(rt, answer, &from)
}

pub(crate) fn merge_both(rt: &HostRuntime, first: &str, then: &str) -> io::Result<String> {
    let first = document_of(rt, first)?;
    let then = document_of(rt, then)?;
    let answer = counted!(rt; json_merge_diff::merge_both(rt.alloc(), &first, &then));
    made(rt, answer, &first)
}

/// The line of a merge patch, or of `none` where there is none.
fn made(
    rt: &HostRuntime,
    answer: Result<Option<Value>, AllocError>,
    left: &Value,
) -> io::Result<String> {
    match answer.transpose() {
        Some(answer) => line(rt, &answer.map_err(PatchFault::Memory), left),
        None => line(rt, &Ok::<&str, PatchFault>("none"), left),
    }
}

pub(crate) fn pretty(rt: &HostRuntime, document: &str) -> io::Result<String> {
    let document = document_of(rt, document)?;
    let answer = counted!(rt; json_patch::pretty(rt.alloc(), &document));
    line(rt, &answer.map_err(PatchFault::Memory), &document)
}

pub(crate) fn document_of(rt: &HostRuntime, text: &str) -> io::Result<Value>
    ensures { IfOk result (λ document. IsDocument (view document)) }
{
    match document_from_str(rt.alloc(), text) {
        Ok(document) => Ok(document),
        Err(_) => Err(io::Error::from(ErrorKind::InvalidInput)),
    }
}

pub(crate) fn patch_of(rt: &HostRuntime, text: &str) -> io::Result<Patch>
    ensures { IfOk result (λ changes. AreWhole (operations_of changes)) }
{
    patch_from(rt, &value_of(rt, text)?)
}

pub(crate) fn patch_from(rt: &HostRuntime, value: &Value) -> io::Result<Patch>
    ensures { IfOk result (λ changes. AreWhole (operations_of changes)) }
{
    match Patch::from_value(rt.alloc(), value) {
        Ok(changes) => Ok(changes),
        Err(_) => Err(io::Error::from(ErrorKind::InvalidInput)),
    }
}

pub(crate) fn value_of(rt: &HostRuntime, text: &str) -> io::Result<Value> {
    match Value::from_str(rt.alloc(), text) {
        Ok(value) => Ok(value),
        Err(_) => Err(io::Error::from(ErrorKind::InvalidInput)),
    }
}
