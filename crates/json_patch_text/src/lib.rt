//! A JSON text patched in place (RFC 6902): [`patch_text`], and what it is to patch a text, in
//! definitions and their laws. [`patch_text_within`] is for the patch of a stranger: no text on the way
//! nests deeper, or is longer, than limits allow, nor do its operations cost more.
//!
//! Every byte that no operation changes is kept: whitespace, the order of members, `1.50` and `"\u0061"`
//! as they are written.
//!
//! A text may say numbers that no document of JSON Patch has, as `1.50`. So the operations stand on
//! trees, in which a number is its text, and what they do is said by every reading of the numbers
//! (`json_reading`): under each one a tree is a document, and the operations lead from the document of
//! the one tree to the document of the other.
#![tactic(auto)]

mod bounds;
mod draft;
mod fault;
pub mod laws;
mod log;
mod operation;
mod patch;
mod pieces;
mod reading;
mod record;
mod run;
mod step;
mod undo;

pub use fault::{PatchTextFault, TextLimitFault};
pub use patch::{check_patch, patch_text, patch_text_within};
pub use pieces::{patch_pieces, record_pieces};
pub use record::{Recorded, record_text, record_text_within};
