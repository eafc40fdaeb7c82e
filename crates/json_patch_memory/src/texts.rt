//! Calls on a text.

use crate::counted::{counted, line};
use crate::pointers::pointer_of;
use json_patch::{Patch, document_from_slice, document_from_str};
use json_patch_answers::mode_of;
use std::io;
use std::io::ErrorKind;

pub(crate) fn document(rt: &HostRuntime, text: &str) -> io::Result<String> {
    let answer = counted!(rt; document_from_str(rt.alloc(), text));
    line(rt, &answer, &text)
}

pub(crate) fn document_of_bytes(rt: &HostRuntime, text: &str) -> io::Result<String> {
    let answer = counted!(rt; document_from_slice(rt.alloc(), text.as_bytes()));
    line(rt, &answer, &text)
}

pub(crate) fn patch(rt: &HostRuntime, text: &str) -> io::Result<String> {
    let answer = counted!(rt; Patch::from_str(rt.alloc(), text));
    line(rt, &answer, &text)
}

pub(crate) fn add(rt: &HostRuntime, text: &str, path: &str, value: &str) -> io::Result<String> {
    let place = pointer_of(path)?;
    let answer = counted!(rt; json_text::add(rt.alloc(), text, place, value));
    line(rt, &answer, &text)
}

pub(crate) fn replace(rt: &HostRuntime, text: &str, path: &str, value: &str) -> io::Result<String> {
    let place = pointer_of(path)?;
    let answer = counted!(rt; json_text::replace(rt.alloc(), text, place, value));
    line(rt, &answer, &text)
}

pub(crate) fn remove(rt: &HostRuntime, text: &str, path: &str) -> io::Result<String> {
    let place = pointer_of(path)?;
    let answer = counted!(rt; json_text::remove(rt.alloc(), text, place));
    line(rt, &answer, &text)
}

pub(crate) fn respond(rt: &HostRuntime, mode: &str, text: &str) -> io::Result<String> {
    let Some(mode) = mode_of(mode) else {
        return Err(io::Error::from(ErrorKind::InvalidInput));
    };
    let answer = counted!(rt; json_patch_answers::respond(rt.alloc(), mode, text.as_bytes()));
    line(rt, &answer, &text)
}
