//! A JSON text that is kept and changed (RFC 6902, RFC 7396), each change whole or not at all, within
//! limits: [`KeptText`]. The last change is taken back byte for byte, where it was recorded.
//!
//! Every byte that no change touches is kept: whitespace, the order of members, `1.50` and `"\u0061"` as
//! they are written. What a change makes of the text is said in the words of `json_patch_text`,
//! `json_merge_text` and `json_diff_text`.
#![tactic(auto)]

mod before;
mod fault;
mod kept;

pub use fault::MergeLimitFault;
pub use kept::KeptText;
