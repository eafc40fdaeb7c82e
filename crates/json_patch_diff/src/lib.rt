//! The JSON Patch (RFC 6902) that leads from one document to another.
#![tactic(auto)]

mod alignment;
mod cursor;
mod difference;
mod edits;
mod guarded;
mod hash;
mod sizes;
mod survey;

pub use difference::diff;
pub use guarded::{guarded_diff, with_guards};
