//! Single edits of a JSON document, and the marks that stand where a value was taken.
#![tactic(auto)]

pub mod edits;
pub mod equality;
pub mod error;
pub mod marks;
pub mod seen;
mod shift;
pub mod walk;
