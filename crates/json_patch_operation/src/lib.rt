//! The operations of JSON Patch (RFC 6902): read, written, printed and compared, and what can go
//! wrong with them.
#![tactic(auto)]

mod equality;
mod error;
mod fault;
mod operation;
mod parsing;
mod printing;
mod read_error;
mod reading;
mod within;
mod writing;

pub use error::{PatchError, PatchErrorKind, PatchFault};
pub use fault::Fault;
pub use jsonptr;
pub use operation::{
    AddOperation, CopyOperation, MoveOperation, Patch, PatchOperation, RemoveOperation,
    ReplaceOperation, TestOperation,
};
pub use parsing::{document_from_slice, document_from_str};
pub use printing::pretty;
pub use read_error::{ReadError, ReadFault, ReadKind};
pub use within::is_inside;
