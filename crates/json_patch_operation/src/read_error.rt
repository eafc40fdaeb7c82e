//! Why a JSON value isn't read as a patch or an operation.

ghost use Rattle.std.specs.Prelude.{◌≡◌};
ghost use Rattle.json_patch_operation.specs.declared.read_error.ReadFault.TheVariants.{Memory};

use jsonptr::ParseError;
use std::alloc::AllocError;
use thiserror::Error;

/// Why a JSON value isn't read as a patch or an operation, in the order in which it is looked for.
#[derive(Debug, Drop, Error)]
pub enum ReadKind {
    /// The patch isn't an array.
    #[error("patch is not a list")]
    NotAList,
    /// The operation isn't an object.
    #[error("operation is not an object")]
    NotAnObject,
    /// There is no member `op`.
    #[error("member \"op\" is missing")]
    MissingOp,
    /// The member `op` isn't a string.
    #[error("member \"op\" is not a text")]
    OpNotText,
    /// The member `op` names no operation.
    #[error("member \"op\" is unknown")]
    UnknownOp,
    /// There is no member `from`.
    #[error("member \"from\" is missing")]
    MissingFrom,
    /// The member `from` isn't a string.
    #[error("member \"from\" is not a text")]
    FromNotText,
    /// The member `from` isn't a JSON pointer.
    #[error("member \"from\" is not a pointer: {0}")]
    BadFrom(ParseError),
    /// There is no member `path`.
    #[error("member \"path\" is missing")]
    MissingPath,
    /// The member `path` isn't a string.
    #[error("member \"path\" is not a text")]
    PathNotText,
    /// The member `path` isn't a JSON pointer.
    #[error("member \"path\" is not a pointer: {0}")]
    BadPath(ParseError),
    /// There is no member `value`.
    #[error("member \"value\" is missing")]
    MissingValue,
    /// The member `value` holds a number that is no 64-bit integer: one with a fraction or an
    /// exponent, minus zero, or one of more bits.
    #[error("member \"value\" holds a number that is not whole")]
    ValueNotWhole,
}

/// The first thing at fault in a JSON value that isn't read as a patch or an operation.
#[derive(Debug, Drop, Error)]
#[error("{place}{kind}", place = self.place())]
pub struct ReadError {
    /// Which operation of the list is at fault, counted from 0. There is none where a single
    /// operation is read, or where the patch isn't an array.
    pub operation: Option<usize>,
    /// What is at fault.
    pub kind: ReadKind,
}

/// How the text of a fault begins.
#[derive(Debug, Drop, Error)]
enum Place {
    #[error("operation '/{0}': ")]
    At(usize),
    #[error("")]
    Nowhere,
}

impl ReadError {
    fn place(&self) -> Place {
        match self.operation {
            Some(operation) => Place::At(operation),
            None => Place::Nowhere,
        }
    }
}

/// Why a patch or an operation wasn't read.
#[derive(Debug, Drop, Error)]
pub enum ReadFault {
    /// The value is at fault.
    #[error("{0}")]
    Refused(ReadError),
    /// A growth of memory was refused.
    #[error("out of memory")]
    Memory(AllocError),
}

impl From<AllocError> for ReadFault {
    ghost from_gives = { λ error fault. fault ≡ Memory error };

    fn from(error: AllocError) -> ReadFault {
        ReadFault::Memory(error)
    }
}
