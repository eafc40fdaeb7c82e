//! An edit where a pointer leads.

ghost use Rattle.std.specs.Prelude.{◌≡◌, ◌+◌, ◌<◌, ◌≤◌, ◌^◌, ◌∷◌, [], None, is_some, length, true, IfOk, IfSome, MatchOption, OnErr, OnOk};
ghost use Rattle.std.specs.String.{string_bytes};
ghost use Rattle.json.specs.Json.{Json};
ghost use Rattle.jsonptr.specs.Pointers.{token_of, tokens_left};
ghost use Rattle.json_pieces.specs.Edits.{Exchanges, Fails, IsInner, IsMade, IsReady, Makes, PutsIn};
ghost use Rattle.json_pieces.specs.Held.{held, row_held};
ghost use Rattle.json_pieces.specs.Logged.{IsLed, IsStepped};
ghost use Rattle.json_pieces.specs.Nodes.{IsSound, IsWhole, row_view, tree_text, view};
ghost use Rattle.json_lexemes.specs.Spelled.{Says};
ghost use Rattle.json_text.specs.Listing.{IsTextOf};
ghost use Rattle.json_text.specs.Pointed.{tree_at};

use crate::back::{Back, Level};
use crate::means::Means;
use crate::node::{Node, Row, write, written};
use crate::opening::open;
use crate::row::{number_at, put, take};
use crate::small::{is_small, is_text, small_text};
use crate::text::Text;
use crate::work::Work;
use json_text::split_around;
use jsonptr::{Pointer, Token, Tokens};
use std::alloc::AllocError;
use std::mem;

/// What is done with a value.
#[derive(Drop)]
pub(crate) enum Edit<'v, 'a> {
    /// It is read.
    Read,
    /// Another value comes in its place.
    Put(Node<'a>),
    /// What this token names in it is taken out.
    Take(&'v str),
    /// A value is put in as what a token names.
    Insert(&'v str, Node<'a>),
}

/// Makes the edit, and answers the value that is read or taken out, and of another edit any; `None` where
/// there is nothing to edit.
// Not inlined: each level on the way would else hold its room.
#[inline(never)]
fn apply<'a>(
    work: &mut Work<'a>,
    node: &mut Node<'a>,
    edit: Edit<'_, 'a>,
) -> Result<Option<Node<'a>>, AllocError>
    requires whole { IsWhole (view node.old) }
    requires ready { IsReady edit }
    requires steps { work.old.steps.items ≡ [] }
    ensures whole { IsWhole (view node.new) }
    ensures grown { length (tree_text (view node.new)) ≤ length (tree_text (view node.old)) + work.old.means.room }
    ensures unchanged { OnErr result (tree_text (view node.new) ≡ tree_text (view node.old)) }
    ensures makes { IfOk result (λ found. (j : Json) → Says (tree_text (view node.old)) j
        → Makes edit.entry (tree_text (view node.old)) j [] (tree_text (view node.new)) found) }
    ensures sound { IfOk result (λ found. IfSome found (λ out. IsSound (view out))) }
    ensures led { work.old.logged ≡ true → IsStepped work.new.steps.items (held node.old) (held node.new) }
    ensures place { work.new.place ≡ work.old.place }
{
    match edit {
        Edit::Read => Ok(Some(Node::Closed(Text::Made(written(work.means.alloc, node)?)))),
        Edit::Put(value) => {
            work.means.resized(node.len(), node.len(), value.len())?;
            work.ready()?;
            let old = mem::replace(node, value);
            work.keep(Back::Swap(old));
            Ok(Some(Node::Closed(Text::Empty)))
        }
        edit => apply_below(work, node, edit),
    }
}

/// The same of an edit of what stands in the value.
fn apply_below<'a>(
    work: &mut Work<'a>,
    node: &mut Node<'a>,
    edit: Edit<'_, 'a>,
) -> Result<Option<Node<'a>>, AllocError>
    requires whole { IsWhole (view node.old) }
    requires ready { IsReady edit }
    requires steps { work.old.steps.items ≡ [] }
    requires inner { IsInner edit }
    ensures whole { IsWhole (view node.new) }
    ensures grown { length (tree_text (view node.new)) ≤ length (tree_text (view node.old)) + work.old.means.room }
    ensures unchanged { OnErr result (tree_text (view node.new) ≡ tree_text (view node.old)) }
    ensures makes { IfOk result (λ found. (j : Json) → Says (tree_text (view node.old)) j
        → Makes edit.entry (tree_text (view node.old)) j [] (tree_text (view node.new)) found) }
    ensures sound { IfOk result (λ found. IfSome found (λ out. IsSound (view out))) }
    ensures led { work.old.logged ≡ true → IsStepped work.new.steps.items (held node.old) (held node.new) }
    ensures place { work.new.place ≡ work.old.place }
{
    open(
        work.means.alloc,
        node,
        Pointer::root().tokens(),
        &mut work.opened,
    )?;
    match node {
        Node::Closed(_) => Ok(None),
        Node::Open(row) => apply_in(work, row, edit),
    }
}

/// Puts a value in as what a token names, and answers any where that is done.
fn insert<'a>(
    work: &mut Work<'a>,
    row: &mut Row<'a>,
    name: &str,
    value: Node<'a>,
) -> Result<Option<Node<'a>>, AllocError>
    requires sound { IsSound (row_view row.old) }
    requires value { IsWhole (view value) }
    requires steps { work.old.steps.items ≡ [] }
    ensures sound { IsSound (row_view row.new) }
    ensures grown { row.new.length ≤ row.old.length + work.old.means.room }
    ensures unchanged { OnErr result (row_view row.new ≡ row_view row.old) }
    ensures put { IfOk result (λ found. (j : Json) → Says (tree_text (row_view row.old)) j
        → PutsIn (tree_text (row_view row.old)) j name.now (tree_text (view value.entry))
        (tree_text (row_view row.new)) (is_some found)) }
    ensures value { IfOk result (λ found. IfSome found (λ out. IsSound (view out))) }
    ensures led { work.old.logged ≡ true → IsStepped work.new.steps.items (row_held row.old) (row_held row.new) }
    ensures place { work.new.place ≡ work.old.place }
{
    work.ready()?;
    let Some(step) = put(work.means, row, name, value)? else {
        return Ok(None);
    };
    work.keep(step);
    Ok(Some(Node::Closed(Text::Empty)))
}

fn apply_in<'a>(
    work: &mut Work<'a>,
    row: &mut Row<'a>,
    edit: Edit<'_, 'a>,
) -> Result<Option<Node<'a>>, AllocError>
    requires sound { IsSound (row_view row.old) }
    requires ready { IsReady edit }
    requires steps { work.old.steps.items ≡ [] }
    requires inner { IsInner edit }
    ensures sound { IsSound (row_view row.new) }
    ensures grown { row.new.length ≤ row.old.length + work.old.means.room }
    ensures unchanged { OnErr result (tree_text (row_view row.new) ≡ tree_text (row_view row.old)) }
    ensures makes { IfOk result (λ found. (j : Json) → Says (tree_text (row_view row.old)) j
        → Makes edit.entry (tree_text (row_view row.old)) j [] (tree_text (row_view row.new)) found) }
    ensures value { IfOk result (λ found. IfSome found (λ out. IsSound (view out))) }
    ensures led { work.old.logged ≡ true → IsStepped work.new.steps.items (row_held row.old) (row_held row.new) }
    ensures place { work.new.place ≡ work.old.place }
{
    match edit {
        Edit::Take(name) => take(work, row, name),
        Edit::Insert(name, value) => insert(work, row, name, value),
        _ => Ok(None),
    }
}

impl<'v, 'a> Edit<'v, 'a> {
    /// How many bytes the value has that it puts.
    fn put_len(&self) -> usize
        requires { IsReady self.now }
    {
        match self {
            Edit::Put(value) | Edit::Insert(_, value) => value.len(),
            _ => 0,
        }
    }

    /// Whether it is made in the value that it comes to by these tokens, and not of that as a whole.
    fn goes_into(&self, mut path: Tokens<'_>) -> bool {
        path.next().is_some() || matches!(self, Edit::Take(_) | Edit::Insert(..))
    }
}

/// What the edit leaves of a value's text, and the text that it answers: it is made in pieces that are let
/// go.
#[cycle(edit)]
fn edited<'a>(
    means: Means,
    text: String,
    path: Tokens<'_>,
    edit: Edit<'_, 'a>,
) -> Result<Option<(String, String)>, AllocError>
    requires text { (j : Json) × IsTextOf (string_bytes text) j }
    requires ready { IsReady edit }
    requires room { length (string_bytes text) + means.room < 2 ^ 64 }
    ensures text { IfOk result (λ found. IfSome found (λ made. (j : Json) × IsTextOf (string_bytes made.0) j)) }
    ensures grown { IfOk result (λ found. IfSome found
        (λ made. length (string_bytes made.0) ≤ length (string_bytes text) + means.room)) }
    ensures makes { IfOk result (λ found. (j : Json) → Says (string_bytes text) j
        → MatchOption found (Fails edit.entry j (tokens_left path.entry))
        (λ made. IsMade edit.entry (string_bytes text) j (tokens_left path.entry)
        (string_bytes made.0) (string_bytes made.1))) }
{
    let mut work = Work::new(means, false, false);
    let mut value = Node::Closed(Text::Made(text));
    let Some(out) = edit_open(&mut work, &mut value, path, edit)? else {
        return Ok(None);
    };
    let left = written(means.alloc, &value)?;
    let out = out.into_text(means.alloc)?;
    Ok(Some((left, out)))
}

/// The text with that of another value where the tokens lead; `None` where they lead nowhere.
fn exchanged(
    means: Means,
    text: &str,
    path: Tokens<'_>,
    value: &Node<'_>,
) -> Result<Option<String>, AllocError>
    requires text { (j : Json) × IsTextOf text.now j }
    requires value { IsWhole (view value.now) }
    ensures text { IfOk result (λ found. IfSome found (λ new. (j : Json) × IsTextOf (string_bytes new) j)) }
    ensures grown { IfOk result (λ found. IfSome found
        (λ new. length (string_bytes new) ≤ length text.now + means.room)) }
    ensures exchanges { IfOk result (λ found. (j : Json) → Says text.now j
        → MatchOption found (tree_at (tokens_left path.entry) j ≡ None)
        (λ new. Exchanges text.now j (tokens_left path.entry) (tree_text (view value.now))
        (string_bytes new))) }
{
    let Some((before, own, behind)) = split_around(means.alloc, text, path)? else {
        return Ok(None);
    };
    let length = means.resized(text.len(), own.len(), value.len())?;
    let mut new = String::with_capacity(means.alloc, length)?;
    new.push_str(before)?;
    write(value, &mut new)?;
    new.push_str(behind)?;
    Ok(Some(new))
}

/// Puts another text in the place of a value's.
pub(crate) fn put_text<'a>(
    work: &mut Work<'a>,
    node: &mut Node<'a>,
    text: String,
) -> Result<(), AllocError>
    requires steps { work.old.steps.items ≡ [] }
    ensures text { OnOk result (tree_text (view node.new) ≡ string_bytes text) }
    ensures sound { OnOk result (IsSound (view node.new)) }
    ensures unchanged { OnErr result (node.new ≡ node.old) }
    ensures led { work.old.logged ≡ true → IsStepped work.new.steps.items (held node.old) (held node.new) }
    ensures place { work.new.place ≡ work.old.place }
{
    work.ready()?;
    let before = mem::replace(node, Node::Closed(Text::Made(text)));
    work.keep(Back::Swap(before));
    Ok(())
}

/// Makes the edit where the tokens lead, and leaves the value closed: another text comes in the place of its
/// text. To read or to put, only a stretch of the text is looked for.
// Not inlined: each level on the way would else hold its room.
#[inline(never)]
#[cycle(edit)]
fn edit_small<'a>(
    work: &mut Work<'a>,
    node: &mut Node<'a>,
    path: Tokens<'_>,
    edit: Edit<'_, 'a>,
) -> Result<Option<Node<'a>>, AllocError>
    requires whole { IsWhole (view node.old) }
    requires ready { IsReady edit }
    requires steps { work.old.steps.items ≡ [] }
    requires room { length (tree_text (view node.old)) + work.old.means.room < 2 ^ 64 }
    ensures whole { IsWhole (view node.new) }
    ensures grown { length (tree_text (view node.new)) ≤ length (tree_text (view node.old)) + work.old.means.room }
    ensures unchanged { OnErr result (tree_text (view node.new) ≡ tree_text (view node.old)) }
    ensures makes { IfOk result (λ found. (j : Json) → Says (tree_text (view node.old)) j
        → Makes edit.entry (tree_text (view node.old)) j (tokens_left path.entry)
        (tree_text (view node.new)) found) }
    ensures sound { IfOk result (λ found. IfSome found (λ out. IsSound (view out))) }
    ensures led { work.old.logged ≡ true → IsLed work.new.steps.items work.old.place.items work.new.place.items (held node.old) (held node.new) }
{
    let Some(text) = small_text(node) else {
        return edit_copied(work, node, path, edit);
    };
    match edit {
        Edit::Read => {
            let Some((_, own, _)) = split_around(work.means.alloc, text, path)? else {
                return Ok(None);
            };
            Ok(Some(Node::Closed(Text::Made(String::from_str(work.means.alloc, own)?))))
        }
        Edit::Put(value) => {
            let Some(new) = exchanged(work.means, text, path, &value)? else {
                return Ok(None);
            };
            put_text(work, node, new)?;
            Ok(Some(Node::Closed(Text::Empty)))
        }
        edit => edit_copied(work, node, path, edit),
    }
}

/// The same in a copy of the text, which is opened in pieces that are let go.
// Not inlined: to read or to put would else hold its room.
#[inline(never)]
#[cycle(edit)]
fn edit_copied<'a>(
    work: &mut Work<'a>,
    node: &mut Node<'a>,
    path: Tokens<'_>,
    edit: Edit<'_, 'a>,
) -> Result<Option<Node<'a>>, AllocError>
    requires whole { IsWhole (view node.old) }
    requires ready { IsReady edit }
    requires steps { work.old.steps.items ≡ [] }
    requires room { length (tree_text (view node.old)) + work.old.means.room < 2 ^ 64 }
    ensures whole { IsWhole (view node.new) }
    ensures grown { length (tree_text (view node.new)) ≤ length (tree_text (view node.old)) + work.old.means.room }
    ensures unchanged { OnErr result (tree_text (view node.new) ≡ tree_text (view node.old)) }
    ensures makes { IfOk result (λ found. (j : Json) → Says (tree_text (view node.old)) j
        → Makes edit.entry (tree_text (view node.old)) j (tokens_left path.entry)
        (tree_text (view node.new)) found) }
    ensures sound { IfOk result (λ found. IfSome found (λ out. IsSound (view out))) }
    ensures led { work.old.logged ≡ true → IsLed work.new.steps.items work.old.place.items work.new.place.items (held node.old) (held node.new) }
{
    let text = written(work.means.alloc, node)?;
    let Some((left, out)) = edited(work.means, text, path, edit)? else {
        return Ok(None);
    };
    if !is_text(node, left.as_str()) {
        put_text(work, node, left)?;
    }
    Ok(Some(Node::Closed(Text::Made(out))))
}

/// Makes the edit where the tokens lead, as [`apply`] does. In pieces that last a small value stays closed.
// Inlined, so that a level on the way is one frame.
#[inline(always)]
#[cycle(edit)]
pub(crate) fn edit_at<'a>(
    work: &mut Work<'a>,
    node: &mut Node<'a>,
    path: Tokens<'_>,
    edit: Edit<'_, 'a>,
) -> Result<Option<Node<'a>>, AllocError>
    requires whole { IsWhole (view node.old) }
    requires ready { IsReady edit }
    requires steps { work.old.steps.items ≡ [] }
    requires room { length (tree_text (view node.old)) + work.old.means.room < 2 ^ 64 }
    ensures whole { IsWhole (view node.new) }
    ensures grown { length (tree_text (view node.new)) ≤ length (tree_text (view node.old)) + work.old.means.room }
    ensures unchanged { OnErr result (tree_text (view node.new) ≡ tree_text (view node.old)) }
    ensures makes { IfOk result (λ found. (j : Json) → Says (tree_text (view node.old)) j
        → Makes edit.entry (tree_text (view node.old)) j (tokens_left path.entry)
        (tree_text (view node.new)) found) }
    ensures sound { IfOk result (λ found. IfSome found (λ out. IsSound (view out))) }
    ensures led { work.old.logged ≡ true → IsLed work.new.steps.items work.old.place.items work.new.place.items (held node.old) (held node.new) }
{
    if work.lasting && edit.goes_into(path) && is_small(node, edit.put_len()) {
        edit_small(work, node, path, edit)
    } else {
        edit_open(work, node, path, edit)
    }
}

/// The same, and what is on the way is opened.
#[cycle(edit)]
fn edit_open<'a>(
    work: &mut Work<'a>,
    node: &mut Node<'a>,
    mut path: Tokens<'_>,
    edit: Edit<'_, 'a>,
) -> Result<Option<Node<'a>>, AllocError>
    requires whole { IsWhole (view node.old) }
    requires ready { IsReady edit }
    requires steps { work.old.steps.items ≡ [] }
    requires room { length (tree_text (view node.old)) + work.old.means.room < 2 ^ 64 }
    ensures whole { IsWhole (view node.new) }
    ensures grown { length (tree_text (view node.new)) ≤ length (tree_text (view node.old)) + work.old.means.room }
    ensures unchanged { OnErr result (tree_text (view node.new) ≡ tree_text (view node.old)) }
    ensures makes { IfOk result (λ found. (j : Json) → Says (tree_text (view node.old)) j
        → Makes edit.entry (tree_text (view node.old)) j (tokens_left path.entry)
        (tree_text (view node.new)) found) }
    ensures sound { IfOk result (λ found. IfSome found (λ out. IsSound (view out))) }
    ensures led { work.old.logged ≡ true → IsLed work.new.steps.items work.old.place.items work.new.place.items (held node.old) (held node.new) }
{
    let tokens = path;
    let Some(token) = path.next() else {
        return apply(work, node, edit);
    };
    open(work.means.alloc, node, tokens, &mut work.opened)?;
    match node {
        Node::Closed(_) => Ok(None),
        Node::Open(row) => edit_in(work, row, token, path, edit),
    }
}

#[cycle(edit)]
fn edit_in<'a>(
    work: &mut Work<'a>,
    row: &mut Row<'a>,
    token: Token<'_>,
    rest: Tokens<'_>,
    edit: Edit<'_, 'a>,
) -> Result<Option<Node<'a>>, AllocError>
    requires sound { IsSound (row_view row.old) }
    requires ready { IsReady edit }
    requires steps { work.old.steps.items ≡ [] }
    requires room { row.old.length + work.old.means.room < 2 ^ 64 }
    ensures sound { IsSound (row_view row.new) }
    ensures grown { row.new.length ≤ row.old.length + work.old.means.room }
    ensures unchanged { OnErr result (tree_text (row_view row.new) ≡ tree_text (row_view row.old)) }
    ensures makes { IfOk result (λ found. (j : Json) → Says (tree_text (row_view row.old)) j
        → Makes edit.entry (tree_text (row_view row.old)) j (token_of token.entry ∷ tokens_left rest.entry)
        (tree_text (row_view row.new)) found) }
    ensures value { IfOk result (λ found. IfSome found (λ out. IsSound (view out))) }
    ensures led { work.old.logged ≡ true → IsLed work.new.steps.items work.old.place.items work.new.place.items (row_held row.old) (row_held row.new) }
{
    let Some(number) = number_at(work.means.alloc, row, token)? else {
        return Ok(None);
    };
    work.enter(Level {
        number,
        length: row.length,
    })?;
    let old = row.values.at(number).len();
    let mut value = row.values.exchange(number, Node::Closed(Text::Empty));
    let done = edit_at(work, &mut value, rest, edit);
    // Also where memory ran out, and then as long as before.
    let new = value.len();
    row.values.exchange(number, value);
    row.length = row.length - old + new;
    done
}
