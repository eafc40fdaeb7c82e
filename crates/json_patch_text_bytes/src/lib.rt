//! JSON texts as they are written, from bytes to bytes, within limits, or why not: a text patched in
//! place (RFC 6902), a merge patch merged into one (RFC 7396), and the value's text where a pointer
//! leads (RFC 6901), for calls that get bytes and hand out text, as those for C.
//!
//! Bytes that are no UTF-8 are no JSON. Numbers may be any that JSON has.
//!
//! - [`calls`]: what is made of the bytes
//! - [`kept`]: what is made of a text that is kept
//! - [`lookup`]: why a pointer leads to no value's text
#![tactic(auto)]

pub mod calls;
mod count;
mod failures;
pub mod kept;
pub mod lookup;
mod texts;
