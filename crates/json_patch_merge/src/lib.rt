//! JSON Merge Patch (RFC 7396).
#![tactic(auto)]

mod merging;

pub use merging::merge;
