//! Why a pointer leads to no value's text.

use json_patch_bytes::failure::Failure;

/// Why a pointer leads to no value's text.
#[derive(Drop)]
pub enum LookupFault {
    /// The document's bytes are no JSON text within the limits, or memory ran out.
    Document(Failure),
    /// The pointer's bytes are no pointer's text (RFC 6901).
    NoPointer,
    /// It leads nowhere.
    Nothing,
}
