//! JSON Patch (RFC 6902) and JSON Merge Patch (RFC 7396).
//!
//! ```rust
//! let mut document = document_from_str(alloc, r#"{"a":1,"l":[1,2]}"#)?;
//! let changes = Patch::from_str(alloc, r#"[{"op":"add","path":"/l/-","value":3}]"#)?;
//! patch(alloc, &mut document, changes.as_slice())?;
//! // {"a":1,"l":[1,2,3]}
//! ```
#![tactic(auto)]

mod clearing;
mod inverse;
mod log;
mod run;
mod shared;
mod shifts;
mod undoing;

pub use json_patch_apart::are_apart;
pub use json_patch_document::{is_whole, same};
pub use json_patch_edit::walk::lookup;
pub use json_patch_laws::laws;
pub use json_patch_limits::limits::{LimitError, LimitFault, LimitKind, Limits};
pub use json_patch_limits::measure::{is_shallow, is_small};
pub use json_patch_merge::merge;
pub use json_patch_operation::{
    AddOperation, CopyOperation, Fault, MoveOperation, Patch, PatchError, PatchErrorKind,
    PatchFault, PatchOperation, ReadError, ReadFault, ReadKind, RemoveOperation, ReplaceOperation,
    TestOperation, document_from_slice, document_from_str, pretty,
};
pub use jsonptr;
pub use run::{apply_patches, apply_patches_within, patch, patch_unsafe, patch_within};
