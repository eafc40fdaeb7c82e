//! Values that stay closed, since they are small.

ghost use Rattle.std.specs.Prelude.{◌≡◌, IfSome, IsTrue};
ghost use Rattle.json_pieces.specs.Nodes.{tree_text, view};

use crate::node::Node;
use crate::text::Text;

/// A value that owns a text of at most so many bytes isn't opened to be read or changed in: open, it would
/// take several times their memory for as long as the pieces stand.
const SMALL: usize = 1_024;

/// The text of a value that owns it, if it is small.
pub(crate) fn small_text<'n>(node: &'n Node<'_>) -> Option<&'n str>
    ensures { IfSome result (λ text. text.now ≡ tree_text (view node.now)) }
{
    match node {
        Node::Closed(Text::Made(text)) if text.len() <= SMALL => Some(text.as_str()),
        _ => None,
    }
}

/// Whether a value owns its text, and is small with so many bytes more.
pub(crate) fn is_small(node: &Node<'_>, more: usize) -> bool {
    match small_text(node) {
        Some(text) => text.len().saturating_add(more) <= SMALL,
        None => false,
    }
}

/// Whether a value is closed, and of this text.
pub(crate) fn is_text(node: &Node<'_>, text: &str) -> bool
    ensures { IsTrue result → tree_text (view node.now) ≡ text.now }
{
    match node {
        Node::Closed(own) => own.as_str() == text,
        Node::Open(_) => false,
    }
}
