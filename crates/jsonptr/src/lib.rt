//! JSON pointers (RFC 6901): a pointer is a list of tokens, and each call goes by that list.
//!
//! A string is a pointer's where it is empty or a sequence of parts, each a slash and an encoded
//! token. In an encoded token `~1` stands for a slash and `~0` for a tilde, and a tilde stands
//! nowhere else. The string and the list of decoded tokens determine each other.
//!
//! ```rust
//! let mut path = PointerBuf::new();
//! path.push_back(alloc, "a/b")?;
//! path.push_back(alloc, "-")?;
//! // its string is /a~1b/-
//! ```
#![tactic(auto)]

mod buf;
mod error;
pub mod index;
pub mod laws;
mod pointer;
mod token;

pub use buf::PointerBuf;
pub use error::{ParseError, PointerFault};
pub use pointer::Pointer;
pub use token::{Token, Tokens};
