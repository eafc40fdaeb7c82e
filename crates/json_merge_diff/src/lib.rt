//! Merge patches (RFC 7396) made from two documents, and from two merge patches.
#![tactic(auto)]

mod alone;
mod composition;
mod difference;
pub mod laws;

pub use composition::merge_both;
pub use difference::merge_diff;
