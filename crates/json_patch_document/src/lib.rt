//! JSON documents as JSON Patch (RFC 6902) sees them: whole numbers alone, and when two are equal.
#![tactic(auto)]

mod equality;
mod wholeness;

pub use equality::{same, same_values};
pub use wholeness::is_whole;
