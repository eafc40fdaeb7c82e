//! A JSON text in pieces, for many changes one after another.
//!
//! Each call of [`Pieces`] reads or changes one place, as the call of that name of `json_text` does, and
//! a proof may speak of the text alone. But an object or an array on the way is passed over once, however
//! many calls go through it, and the text is put together at the end: so a patch of a hundred operations
//! on one array finds its elements once. For a single change use `json_text`. A call that runs out of
//! memory leaves the text as it was, and the pieces can be used further.
//!
//! ```rust
//! let mut pieces = Pieces::new(text);
//! let first = pieces.value(alloc, place)?;
//! let done = pieces.remove(alloc, place)?;
//! let new = pieces.to_text(alloc)?;
//! // {"list": [2] }
//! ```
#![tactic(auto)]

mod back;
mod edit;
mod index;
mod lent;
mod log;
mod means;
mod node;
mod opening;
mod pieces;
mod row;
mod seams;
mod shape;
mod small;
mod taken;
mod text;
mod width;
mod work;

pub use pieces::Pieces;
pub use taken::Taken;
