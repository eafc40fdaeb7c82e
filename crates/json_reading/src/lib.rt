//! What a JSON text says, where documents have whole numbers alone, and whether two texts say the same.
//!
//! A text says what each of its numbers is, and `1.50` is no whole number of 64 bits. A *reading* gives
//! each number's text one: its own where it spells one, and one and the same for texts of equal
//! numbers, as `1.5` and `1.50`. Under a reading each tree is a document, so that whatever is defined or
//! proved of documents can be said of texts: it holds of the text if it does under every reading.
//! [`same_tree`] decides whether two trees are the same under each.
#![tactic(auto)]

mod equality;
pub mod laws;
#[cfg(test)]
mod tests;

pub use equality::same_tree;
