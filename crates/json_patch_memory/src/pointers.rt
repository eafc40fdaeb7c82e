//! Calls on a pointer.

use crate::counted::{counted, line};
use json_patch::jsonptr::{Pointer, PointerBuf, PointerFault};
use std::io;
use std::io::ErrorKind;

pub(crate) fn to_buf(rt: &HostRuntime, text: &str) -> io::Result<String> {
    let pointer = pointer_of(text)?;
    let answer = counted!(rt; pointer.to_buf(rt.alloc()));
    line(rt, &answer.map_err(PointerFault::Memory), &pointer)
}

/// `decoded` of the pointer's last token.
pub(crate) fn decoded(rt: &HostRuntime, text: &str) -> io::Result<String> {
    let pointer = pointer_of(text)?;
    let Some((_, token)) = pointer.split_back() else {
        return Err(io::Error::from(ErrorKind::InvalidInput));
    };
    let answer = counted!(rt; token.decoded(rt.alloc()));
    line(rt, &answer.map_err(PointerFault::Memory), &pointer)
}

pub(crate) fn parse(rt: &HostRuntime, text: &str) -> io::Result<String> {
    let answer = counted!(rt; PointerBuf::parse(rt.alloc(), text));
    line(rt, &answer, &text)
}

pub(crate) fn clone(rt: &HostRuntime, text: &str) -> io::Result<String> {
    let pointer = pointer_of(text)?.to_buf(rt.alloc())?;
    let answer = counted!(rt; pointer.clone(rt.alloc()));
    line(rt, &answer.map_err(PointerFault::Memory), &pointer)
}

pub(crate) fn push_back(rt: &HostRuntime, text: &str, raw: &str) -> io::Result<String> {
    let mut pointer = pointer_of(text)?.to_buf(rt.alloc())?;
    match counted!(rt; pointer.push_back(rt.alloc(), raw)) {
        Ok(()) => line(rt, &Ok::<&str, PointerFault>("done"), &pointer),
        Err(fault) => line(
            rt,
            &Err::<&str, PointerFault>(PointerFault::Memory(fault)),
            &pointer,
        ),
    }
}

pub(crate) fn with_last(rt: &HostRuntime, text: &str, raw: &str) -> io::Result<String> {
    let pointer = pointer_of(text)?.to_buf(rt.alloc())?;
    if pointer.as_pointer().is_root() {
        return Err(io::Error::from(ErrorKind::InvalidInput));
    }
    let answer = counted!(rt; pointer.with_last(rt.alloc(), raw));
    line(rt, &answer.map_err(PointerFault::Memory), &pointer)
}

pub(crate) fn pointer_of(text: &str) -> io::Result<Pointer<'_>> {
    match Pointer::parse(text) {
        Ok(pointer) => Ok(pointer),
        Err(_) => Err(io::Error::from(ErrorKind::InvalidInput)),
    }
}
