//! What stands where a pointer leads, by its shape.

ghost use Rattle.std.specs.Prelude.{◌≡◌, ◌∷◌, IfOk};
ghost use Rattle.json.specs.Json.{Json};
ghost use Rattle.json_lexemes.specs.Spelled.{Says};
ghost use Rattle.json_pieces.specs.Finer.{IsOpenedFrom};
ghost use Rattle.json_pieces.specs.Held.{held, row_held};
ghost use Rattle.json_pieces.specs.Looks.{Looks};
ghost use Rattle.json_pieces.specs.Nodes.{IsSound, IsWhole, row_view, tree_text, view};
ghost use Rattle.json_text.specs.Listing.{shape_of};
ghost use Rattle.jsonptr.specs.Pointers.{token_of, tokens_left};

use crate::node::{Node, Row};
use crate::opening::open;
use crate::row::number_at;
use crate::small::small_text;
use crate::text::Text;
use json_text::Shape;
use jsonptr::{Token, Tokens};
use std::alloc::{AllocError, Global};

/// What the value is.
fn shape(node: &Node<'_>) -> Shape
    requires { IsWhole (view node.now) }
    ensures { (j : Json) → Says (tree_text (view node.now)) j → result ≡ shape_of j }
{
    match node {
        Node::Closed(text) => Shape::of(text.as_str()),
        Node::Open(row) => row_shape(row),
    }
}

fn row_shape(row: &Row<'_>) -> Shape
    requires { IsSound (row_view row.now) }
    ensures { (j : Json) → Says (tree_text (row_view row.now)) j → result ≡ shape_of j }
{
    if row.named {
        Shape::Object
    } else {
        Shape::Array
    }
}

/// What stands where the tokens lead, if anything does. It opens what is on the way and isn't small, and
/// copies no value. The members and elements that stand open with it are added to `opened`.
#[cycle(looking)]
pub(crate) fn shape_at(
    alloc: Global,
    node: &mut Node<'_>,
    path: Tokens<'_>,
    opened: &mut usize,
) -> Result<Option<Shape>, AllocError>
    requires whole { IsWhole (view node.old) }
    ensures whole { IsWhole (view node.new) }
    ensures text { tree_text (view node.new) ≡ tree_text (view node.old) }
    ensures finer { IsOpenedFrom (held node.old) (held node.new) }
    ensures looks { IfOk result (λ found. (j : Json) → Says (tree_text (view node.old)) j
        → Looks j (tokens_left path.entry) found) }
{
    match small_text(node) {
        Some(text) => shape_open(alloc, &mut Node::Closed(Text::kept(text)), path, &mut 0),
        None => shape_open(alloc, node, path, opened),
    }
}

/// The same, and what is on the way is opened.
#[cycle(looking)]
fn shape_open(
    alloc: Global,
    node: &mut Node<'_>,
    mut path: Tokens<'_>,
    opened: &mut usize,
) -> Result<Option<Shape>, AllocError>
    requires whole { IsWhole (view node.old) }
    ensures whole { IsWhole (view node.new) }
    ensures text { tree_text (view node.new) ≡ tree_text (view node.old) }
    ensures finer { IsOpenedFrom (held node.old) (held node.new) }
    ensures looks { IfOk result (λ found. (j : Json) → Says (tree_text (view node.old)) j
        → Looks j (tokens_left path.entry) found) }
{
    let tokens = path;
    let Some(token) = path.next() else {
        return Ok(Some(shape(node)));
    };
    open(alloc, node, tokens, opened)?;
    match node {
        Node::Closed(_) => Ok(None),
        Node::Open(row) => shape_in(alloc, row, token, path, opened),
    }
}

#[cycle(looking)]
fn shape_in(
    alloc: Global,
    row: &mut Row<'_>,
    token: Token<'_>,
    rest: Tokens<'_>,
    opened: &mut usize,
) -> Result<Option<Shape>, AllocError>
    requires sound { IsSound (row_view row.old) }
    ensures sound { IsSound (row_view row.new) }
    ensures text { tree_text (row_view row.new) ≡ tree_text (row_view row.old) }
    ensures finer { IsOpenedFrom (row_held row.old) (row_held row.new) }
    ensures looks { IfOk result (λ found. (j : Json) → Says (tree_text (row_view row.old)) j
        → Looks j (token_of token.entry ∷ tokens_left rest.entry) found) }
{
    let Some(number) = number_at(alloc, row, token)? else {
        return Ok(None);
    };
    let mut value = row.values.exchange(number, Node::Closed(Text::Empty));
    let found = shape_at(alloc, &mut value, rest, opened);
    // Also where memory ran out.
    row.values.exchange(number, value);
    found
}
