//! Whether two lists of operations of JSON Patch are about different parts of a document.
#![tactic(auto)]

mod apart;
mod filter;

pub use apart::are_apart;
