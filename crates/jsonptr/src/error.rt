//! Why a string is not a pointer's.

use std::alloc::AllocError;
use thiserror::Error;

/// Why a string is not that of a pointer (RFC 6901, section 3).
#[derive(Debug, Drop, Error)]
pub enum ParseError {
    /// The string isn't empty and doesn't begin with a slash.
    #[error("pointer does not begin with a slash")]
    NoLeadingSlash,
    /// A tilde is followed by neither `0` nor `1`.
    #[error("invalid escape at byte {offset}")]
    InvalidEncoding {
        /// The byte offset of the first such tilde.
        offset: usize,
    },
}

/// Why no owned pointer was made of a string.
#[derive(Debug, Drop, Error)]
pub enum PointerFault {
    /// The string is not that of a pointer.
    #[error("{0}")]
    Parse(ParseError),
    /// The string is that of a pointer, and no memory was found for it.
    #[error("out of memory")]
    Memory(AllocError),
}
