//! Why a text isn't read.

ghost use Rattle.std.specs.Prelude.{◌≡◌};

use std::alloc::AllocError;
use thiserror::Error;

/// Why a text isn't read.
#[derive(Debug, Drop, Error)]
pub enum TextFault {
    /// The text is not JSON (RFC 8259), or has an unpaired surrogate, such as `"\ud800"`: the grammar
    /// takes that, but what it says is left open (section 8.2).
    #[error("the text is not JSON")]
    NotJson,
    /// More than 128 objects and arrays are open at once. Whether the text is JSON isn't told.
    #[error("the text nests too deep")]
    TooDeep,
    /// No memory was found.
    #[error("out of memory")]
    Memory(AllocError),
}

impl From<AllocError> for TextFault {
    ghost use Rattle.json_text.specs.declared.fault.TextFault.TheVariants.{Memory};

    ghost from_gives = { λ error fault. fault ≡ Memory error };

    fn from(error: AllocError) -> TextFault {
        TextFault::Memory(error)
    }
}

/// Why a text isn't changed.
#[derive(Debug, Drop, Error)]
pub enum ChangeFault {
    /// The text isn't read.
    #[error("{0}")]
    Text(TextFault),
    /// The value's text isn't read. [`crate::remove`] has none.
    #[error("the value: {0}")]
    Value(TextFault),
    /// The pointer leads to nothing that can be replaced or removed, or nowhere that can be added to.
    #[error("no such place")]
    NoTarget,
    /// No memory was found.
    #[error("out of memory")]
    Memory(AllocError),
}

impl From<AllocError> for ChangeFault {
    ghost use Rattle.json_text.specs.declared.fault.ChangeFault.TheVariants.{Memory};

    ghost from_gives = { λ error fault. fault ≡ Memory error };

    fn from(error: AllocError) -> ChangeFault {
        ChangeFault::Memory(error)
    }
}
