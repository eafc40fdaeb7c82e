//! What the calls from bytes share: limits, why a call makes no text, and why bytes aren't JSON.
//!
//! Bytes that are no UTF-8 are no JSON. A text that a call makes can be read again. So a document has
//! at most 124 levels, since the array of one and the patch that leads back has three more, and 127 are
//! read.
//!
//! - [`failure`], [`unread`]: why no text is made
//! - [`kinds`]: what is at fault, in the numbers that a caller in C is told
//! - [`bounds`]: the limits of a call
#![tactic(auto)]

pub mod bounds;
pub mod failure;
pub mod kinds;
mod surrogates;
pub mod unread;
