//! A value that stands in no text.

ghost use Rattle.std.specs.Prelude.{◌≡◌, IfOk};
ghost use Rattle.std.specs.String.{string_bytes};
ghost use Rattle.json_pieces.specs.Changes.{IsValueIn};
ghost use Rattle.json_pieces.specs.Whole.{IsTaken, taken_text};
ghost use Rattle.json_text.specs.Checked.{text_in};

use crate::node::Node;
use crate::text::Text;
use json_text::{CheckedText, split_off_whitespace};
use std::alloc::{AllocError, Global};

/// A value that stands in no text: one that [`Pieces::take`](crate::Pieces::take) took out, or one that is
/// made of a text. [`Pieces::put`](crate::Pieces::put) puts it in. On the way its objects and arrays stay
/// open as they were, and none of its text is copied.
#[derive(Drop)]
pub struct Taken<'a> {
    pub(crate) node: Node<'a>,
}

impl<'a> Taken<'a> {
    /// The value that a text says, as it is written, without the whitespace around it.
    ///
    /// ```rust
    /// let text = CheckedText::new(alloc, " [1.50, 2]\n")?;
    /// let taken = Taken::new(alloc, text)?;
    /// ```
    pub fn new(alloc: Global, text: CheckedText) -> Result<Taken<'a>, AllocError>
        ensures taken { IfOk result (λ taken. IsTaken taken) }
        ensures text { IfOk result (λ taken. IsValueIn (text_in text.entry) (taken_text taken)) }
    {
        let (_, value, _) = split_off_whitespace(text.as_str());
        let node = Node::Closed(Text::made(alloc, value)?);
        Ok(Taken { node })
    }

    /// Its text, in one string.
    ///
    /// ```rust
    /// let taken = Taken::new(alloc, text)?;
    /// let value = taken.into_text(alloc)?;
    /// // [1.50, 2]
    /// ```
    pub fn into_text(self, alloc: Global) -> Result<String, AllocError>
        requires { IsTaken self }
        ensures { IfOk result (λ text. string_bytes text ≡ taken_text self.entry) }
    {
        self.node.into_text(alloc)
    }
}
