//! A JSON text into which a merge patch is merged in place (RFC 7396): [`merge_text`], and
//! [`merge_text_within`], which keeps to a limit on the new text's bytes.
//!
//! Every byte that the merge doesn't change is kept: whitespace, the order of members, `1.50` and
//! `"\u0061"` as they are written. What the text says is a document under each reading of the numbers
//! that aren't whole (`json_reading`), and under each one the merge is that of `json_patch_merge`.
#![tactic(auto)]

mod fault;
mod merging;
mod texts;
mod whole;

pub use fault::MergeTextFault;
pub use whole::{merge_checked_within, merge_text, merge_text_within};
