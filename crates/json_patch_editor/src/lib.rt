//! An editor of JSON documents, with undo and redo.
//!
//! ```rust
//! let mut editor = Editor::open(alloc, document, 100);
//! editor.apply(alloc, changes.as_slice())?;
//! editor.undo(alloc)?;
//! ```
#![tactic(auto)]

mod editor;
pub mod laws;
mod shifting;

pub use editor::Editor;
