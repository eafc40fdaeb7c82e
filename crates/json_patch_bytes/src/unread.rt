//! Why bytes aren't read as JSON.

ghost use Rattle.std.specs.Prelude.{IfOk, IsTrue};
ghost use Rattle.json_patch_bytes.specs.Surrogates.{IsNoJsonKind, IsSaying};

use crate::kinds::{NOT_JSON, UNPAIRED_SURROGATE};
use crate::surrogates::mended;
use json_text::{CheckedText, TextFault};
use simdutf8::compat::from_utf8;
use std::alloc::{AllocError, Global};

/// The kind of what is wrong with bytes that are no JSON, though they nest no deeper than they may:
/// `UNPAIRED_SURROGATE` where they would be JSON with `\ufffd` in the place of the surrogates that have no other
/// half, and else `NOT_JSON`.
#[tactic(auto, using(crate::proofs::Mending::of_mended))]
pub fn kind_of_no_json(alloc: Global, bytes: &[u8]) -> Result<u8, AllocError>
    ensures { IfOk result (λ kind. IsNoJsonKind bytes.now kind) }
{
    let mended = mended(alloc, bytes)?;
    if is_json(alloc, mended.as_slice())? {
        return Ok(UNPAIRED_SURROGATE);
    }
    Ok(NOT_JSON)
}

/// Whether the bytes are JSON (RFC 8259), whatever numbers they have.
fn is_json(alloc: Global, bytes: &[u8]) -> Result<bool, AllocError>
    ensures { IfOk result (λ is. IsTrue is → IsSaying bytes.now) }
{
    let Ok(text) = from_utf8(bytes) else {
        return Ok(false);
    };
    match CheckedText::new(alloc, text) {
        Ok(_) => Ok(true),
        Err(TextFault::Memory(error)) => Err(error),
        Err(_) => Ok(false),
    }
}
