//! The JSON Patch (RFC 6902) that leads from one document to another, with a `move` for what is the
//! same elsewhere.
#![tactic(auto)]

mod exchange;
mod moves;
mod moving;
mod paths;
mod renames;
mod steps;
mod texts;

pub use moving::moving_diff;
