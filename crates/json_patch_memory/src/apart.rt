//! Calls on two patches.

use crate::runs::patch_of;
use std::io;

/// Whether the operations of the two are apart, in this order and in the other.
pub(crate) fn are_apart(rt: &HostRuntime, first: &str, second: &str) -> io::Result<String> {
    let first = patch_of(rt, first)?;
    let second = patch_of(rt, second)?;
    let there = json_patch::are_apart(first.as_slice(), second.as_slice());
    let back = json_patch::are_apart(second.as_slice(), first.as_slice());
    Ok(format!(in rt.alloc(); "{there}, {back}")?)
}
