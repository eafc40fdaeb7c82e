//! Calls within limits.

use crate::counted::line;
use crate::runs::{document_of, done, patch_of};
use json_patch::Limits;
use std::io;
use std::io::ErrorKind;

/// Limits whose numbers these words are.
pub(crate) fn of(depth: &str, copied: &str) -> io::Result<Limits> {
    let (depth, copied) = (number(depth)?, number(copied)?);
    Ok(Limits { depth, copied })
}

fn number(word: &str) -> io::Result<usize> {
    match word.parse::<usize>() {
        Ok(number) => Ok(number),
        Err(_) => Err(io::Error::from(ErrorKind::InvalidInput)),
    }
}

pub(crate) fn within(
    rt: &HostRuntime,
    call: &str,
    document: &str,
    changes: &str,
    limits: Limits,
) -> io::Result<String> {
    let mut document = document_of(rt, document)?;
    let changes = patch_of(rt, changes)?;
    let (alloc, list) = (rt.alloc(), changes.as_slice());
    match call {
        "patch_within" => {
            let answer = json_patch::patch_within(alloc, &mut document, list, limits);
            line(rt, &done(answer), &document)
        }
        "apply_patches_within" => {
            let answer = json_patch::apply_patches_within(alloc, &mut document, list, limits);
            line(rt, &answer, &document)
        }
        _ => Err(io::Error::from(ErrorKind::InvalidInput)),
    }
}

pub(crate) fn is_shallow(rt: &HostRuntime, document: &str, levels: &str) -> io::Result<String> {
    let is = json_patch::is_shallow(&document_of(rt, document)?, number(levels)?);
    Ok(format!(in rt.alloc(); "{is}")?)
}

pub(crate) fn is_small(rt: &HostRuntime, document: &str, size: &str) -> io::Result<String> {
    let is = json_patch::is_small(&document_of(rt, document)?, number(size)?);
    Ok(format!(in rt.alloc(); "{is}")?)
}
