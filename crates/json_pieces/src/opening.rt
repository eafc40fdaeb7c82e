//! An object or an array, opened: one pass over its text.

ghost use Rattle.std.specs.Prelude.{◌≡◌, ◌<◌, ℕ, IfOk, IfSome, MatchOption, OnOk, OnSome, List, length};
ghost use Rattle.jsonptr.specs.Pointers.{tokens_left};
ghost use Rattle.json.specs.Json.{Json};
ghost use Rattle.json_pieces.specs.Nodes.{IsOpened, IsRowOf, IsSound, IsWhole, piece_with, row_view, text_bytes, tree_text, view};
ghost use Rattle.json_pieces.specs.Finer.{IsOpenedFrom};
ghost use Rattle.json_pieces.specs.Held.{held, row_held};
ghost use Rattle.json_pieces.specs.declared.node.Node.TheVariants.{Closed};
ghost use Rattle.json_pieces.specs.declared.text.Text.{Text};
ghost use Rattle.json_text.specs.Cuts.{piece_of};
ghost use Rattle.json_text.specs.Less.{IsLeaf};
ghost use Rattle.json_text.specs.Listing.{IsTextOf};
ghost use Rattle.json_text.specs.Owned.{IsInner};
ghost use Rattle.json_text.specs.Rows.{Child, tree_in};
ghost use Rattle.json_lexemes.specs.Signposts.{ArePlaces};
ghost use Rattle.json_lexemes.specs.Spelled.{Says};
ghost use Rattle.long_vec.specs.Items.{items_of};

use crate::lent::Lent;
use crate::node::{Node, Row};
use crate::seams::{Seam, Seams};
use crate::text::Text;
use json::MAX_DEPTH;
use json_lexemes::{Places, Signposts, leaves_signposts};
use json_text::{Cut, Shape, cut_at, is_name_text, whitespace_at};
use jsonptr::index::Index;
use jsonptr::{Token, Tokens};
use long_vec::LongVec;
use std::alloc::{AllocError, Global};

/// A value whose text is shorter is passed sooner than its end is kept, and may stay closed.
const LONG: usize = 2_048;

/// The way to what is looked for, from a value on.
#[derive(Clone, Copy)]
pub(crate) struct Way<'w> {
    tokens: Tokens<'w>,
    /// So many levels more may be opened at once.
    levels: usize,
    /// Places of the value's text.
    places: Places<'w>,
}

/// Whether a token names a member or element of this number, by how it is written.
fn names(
    alloc: Global,
    token: Token<'_>,
    cut: &Cut<'_>,
    number: usize,
) -> Result<bool, AllocError> {
    if cut.name.is_empty() {
        return Ok(matches!(token.to_index(), Ok(Index::Num(place)) if place == number));
    }
    let name = token.decoded(alloc)?;
    Ok(is_name_text(cut.name, name.as_str()))
}

/// Whether the tokens lead through a value that is cut from a text, the one of this number: then whether it has
/// names, and the first token is taken from them.
fn leads_through(
    alloc: Global,
    cut: &Cut<'_>,
    number: usize,
    tokens: &mut Tokens<'_>,
) -> Result<Option<bool>, AllocError>
    requires { (j : Json) × IsTextOf cut.now.value.now j }
    ensures row { IfOk result (λ found. IfSome found (λ named. (cs : List Child) × IsTextOf cut.now.value.now (tree_in named cs))) }
    ensures fewer { IfOk result (λ found. OnSome found (length (tokens_left tokens.new) < length (tokens_left tokens.old))) }
{
    let Some(token) = tokens.next() else {
        return Ok(None);
    };
    let mut behind = *tokens;
    if behind.next().is_none() || !names(alloc, token, cut, number)? {
        return Ok(None);
    }
    Ok(has_names(cut.value))
}

/// A value that is cut from a text: opened, where the way leads through it and it is long.
#[cycle(open)]
fn value_along<'a>(
    alloc: Global,
    cut: &Cut<'a>,
    number: usize,
    way: Way<'_>,
    opened: &mut usize,
) -> Result<Node<'a>, AllocError>
    requires text { (j : Json) × IsTextOf cut.now.value.now j }
    requires places { (t : List ℕ) × IsInner t cut.now.place cut.now.value.now × ArePlaces t way.places }
    ensures { IfOk result (λ node. IsSound (view node) × (tree_text (view node) ≡ cut.now.value.now)) }
{
    if way.levels == 0 || cut.value.len() < LONG {
        return Ok(Node::Closed(Text::kept(cut.value)));
    }
    let mut tokens = way.tokens;
    let Some(named) = leads_through(alloc, cut, number, &mut tokens)? else {
        return Ok(Node::Closed(Text::kept(cut.value)));
    };
    let places = way.places.within(cut.place.start);
    let levels = way.levels.saturating_sub(1);
    let way = Way {
        tokens,
        levels,
        places,
    };
    let row = row_of(alloc, Lent::new(cut.value), named, way, opened)?;
    *opened = opened.saturating_add(row.count());
    Ok(Node::Open(Box::new(alloc, row)?))
}

/// The row of a text that is an object or an array, and of what is long on the way.
#[cycle(open)]
fn row_of<'a>(
    alloc: Global,
    lent: Lent<'a>,
    named: bool,
    way: Way<'_>,
    opened: &mut usize,
) -> Result<Row<'a>, AllocError>
    requires row { (cs : List Child) × IsTextOf lent.text.now (tree_in named cs) }
    requires places { ArePlaces lent.text.now way.places }
    ensures { IfOk result (IsRowOf lent.entry.text.now) }
{
    let text = lent.as_str();
    let mut seams = Seams::new(alloc);
    let mut values = LongVec::new(alloc);
    let mut from = 1;
    while let Some(cut) = cut_at(text, from, named, way.places) {
        let value = value_along(alloc, &cut, seams.count(), way, opened)?;
        seams.push(seam_of(cut))?;
        values.push(value)?;
        let Some(next) = cut.next else {
            return Ok(row_with(text.len(), named, Text::Empty, (seams, values)));
        };
        from = next;
    }
    let hollow = whitespace_at(text, from);
    Ok(row_with(text.len(), named, Text::kept(hollow), (seams, values)))
}

/// What stands around a value in its text.
fn seam_of(cut: Cut<'_>) -> Seam<'_>
    ensures { piece_with result cut.entry.value.now ≡ piece_of cut.entry }
{
    Seam {
        whitespace: Text::kept(cut.whitespace),
        name: Text::kept(cut.name),
        colons: Text::kept(cut.colons),
        trail: Text::kept(cut.trail),
    }
}

/// A row of these parts, which make so many bytes.
fn row_with<'a>(
    length: usize,
    named: bool,
    hollow: Text<'a>,
    parts: (Seams<'a>, LongVec<Node<'a>>),
) -> Row<'a>
    ensures named { result.named ≡ named }
    ensures length { result.length ≡ length }
    ensures hollow { text_bytes result.hollow ≡ text_bytes hollow.entry }
    ensures seams { items_of result.seams.all ≡ items_of parts.entry.0.all }
    ensures values { items_of result.values ≡ items_of parts.entry.1 }
{
    let (seams, values) = parts;
    Row {
        named,
        length,
        hollow,
        seams,
        values,
    }
}

/// What stands around a value in its text, copied.
fn copied_seam<'a>(alloc: Global, cut: &Cut<'_>) -> Result<Seam<'a>, AllocError>
    ensures { IfOk result (λ seam. piece_with seam cut.now.value.now ≡ piece_of cut.now) }
{
    Ok(Seam {
        whitespace: Text::made(alloc, cut.whitespace)?,
        name: Text::made(alloc, cut.name)?,
        colons: Text::made(alloc, cut.colons)?,
        trail: Text::made(alloc, cut.trail)?,
    })
}

/// As `value_along`, but copied, since the text goes.
#[cycle(copy)]
fn value_copied<'a>(
    alloc: Global,
    cut: &Cut<'_>,
    number: usize,
    way: Way<'_>,
    opened: &mut usize,
) -> Result<Node<'a>, AllocError>
    requires text { (j : Json) × IsTextOf cut.now.value.now j }
    requires places { (t : List ℕ) × IsInner t cut.now.place cut.now.value.now × ArePlaces t way.places }
    ensures { IfOk result (λ node. IsSound (view node) × (tree_text (view node) ≡ cut.now.value.now)) }
{
    if way.levels == 0 || cut.value.len() < LONG {
        return Ok(Node::Closed(Text::made(alloc, cut.value)?));
    }
    let mut tokens = way.tokens;
    let Some(named) = leads_through(alloc, cut, number, &mut tokens)? else {
        return Ok(Node::Closed(Text::made(alloc, cut.value)?));
    };
    let places = way.places.within(cut.place.start);
    let levels = way.levels.saturating_sub(1);
    let way = Way {
        tokens,
        levels,
        places,
    };
    let row = copied(alloc, Lent::new(cut.value), named, way, opened)?;
    *opened = opened.saturating_add(row.count());
    Ok(Node::Open(Box::new(alloc, row)?))
}

/// As `row_of`, but of copies.
#[cycle(copy)]
fn copied<'a>(
    alloc: Global,
    lent: Lent<'_>,
    named: bool,
    way: Way<'_>,
    opened: &mut usize,
) -> Result<Row<'a>, AllocError>
    requires row { (cs : List Child) × IsTextOf lent.text.now (tree_in named cs) }
    requires places { ArePlaces lent.text.now way.places }
    ensures { IfOk result (IsRowOf lent.entry.text.now) }
{
    let text = lent.as_str();
    let mut seams = Seams::new(alloc);
    let mut values = LongVec::new(alloc);
    let mut from = 1;
    while let Some(cut) = cut_at(text, from, named, way.places) {
        let value = value_copied(alloc, &cut, seams.count(), way, opened)?;
        seams.push(copied_seam(alloc, &cut)?)?;
        values.push(value)?;
        let Some(next) = cut.next else {
            return Ok(row_with(text.len(), named, Text::Empty, (seams, values)));
        };
        from = next;
    }
    let hollow = Text::made(alloc, whitespace_at(text, from))?;
    Ok(row_with(text.len(), named, hollow, (seams, values)))
}

/// Whether a text is an object, with names, or an array; `None` where it is neither.
fn has_names(text: &str) -> Option<bool>
    requires { (j : Json) × IsTextOf text.now j }
    ensures { MatchOption result ((j : Json) → Says text.now j → IsLeaf j)
        (λ named. (cs : List Child) × IsTextOf text.now (tree_in named cs)) }
{
    match Shape::of(text) {
        Shape::Object => Some(true),
        Shape::Array => Some(false),
        _ => None,
    }
}

/// So many levels are opened at once: more would take more of the stack than other calls do.
const AT_ONCE: usize = 64;

/// With so many tokens ahead it pays to look for the ends of all that is long first.
const DEEP: usize = 8;

/// Whether the way leads deep.
fn is_deep(mut tokens: Tokens<'_>) -> bool {
    for _ in 0..DEEP {
        if tokens.next().is_none() {
            return false;
        }
    }
    true
}

/// The row of a text that is an object or an array.
fn row_along<'a>(
    alloc: Global,
    text: &Text<'a>,
    named: bool,
    way: Way<'_>,
    opened: &mut usize,
) -> Result<Row<'a>, AllocError>
    requires row { (cs : List Child) × IsTextOf (text_bytes text.now) (tree_in named cs) }
    requires places { ArePlaces (text_bytes text.now) way.places }
    ensures { IfOk result (IsRowOf (text_bytes text.now)) }
{
    match text {
        Text::Kept(lent) => row_of(alloc, *lent, named, way, opened),
        _ => copied(alloc, Lent::new(text.as_str()), named, way, opened),
    }
}

/// The same, with each byte passed few times, however deep the way leads.
// Not inlined: a way that isn't deep would else hold the room of the places.
#[inline(never)]
fn deep_row<'a>(
    alloc: Global,
    text: &Text<'a>,
    named: bool,
    tokens: Tokens<'_>,
    opened: &mut usize,
) -> Result<Row<'a>, AllocError>
    requires { (cs : List Child) × IsTextOf (text_bytes text.now) (tree_in named cs) }
    ensures { IfOk result (IsRowOf (text_bytes text.now)) }
{
    let bytes = text.as_str().as_bytes();
    let mut signposts = Signposts::new();
    let levels = AT_ONCE;
    if leaves_signposts(bytes, MAX_DEPTH, &mut signposts) {
        let places = signposts.places();
        return row_along(
            alloc,
            text,
            named,
            Way {
                tokens,
                levels,
                places,
            },
            opened,
        );
    }
    let places = Places::none();
    row_along(
        alloc,
        text,
        named,
        Way {
            tokens,
            levels,
            places,
        },
        opened,
    )
}

/// The row of a value that is closed, if it is an object or an array.
fn row_for<'a>(
    alloc: Global,
    node: &Node<'a>,
    tokens: Tokens<'_>,
    opened: &mut usize,
) -> Result<Option<Row<'a>>, AllocError>
    requires { IsWhole (view node.now) }
    ensures { IfOk result (λ found. MatchOption found (IsOpened (view node.now))
        (IsRowOf (tree_text (view node.now)))) }
{
    let Node::Closed(text) = node else {
        return Ok(None);
    };
    let Some(named) = has_names(text.as_str()) else {
        return Ok(None);
    };
    if text.len() >= LONG && is_deep(tokens) {
        return Ok(Some(deep_row(alloc, text, named, tokens, opened)?));
    }
    let (levels, places) = (0, Places::none());
    Ok(Some(row_along(
        alloc,
        text,
        named,
        Way {
            tokens,
            levels,
            places,
        },
        opened,
    )?))
}

/// Counts a question for a member.
fn ask(alloc: Global, row: &mut Row<'_>) -> Result<(), AllocError>
    ensures view { row_view row.new ≡ row_view row.old }
    ensures held { row_held row.new ≡ row_held row.old }
{
    if row.named {
        row.seams.ask(alloc)?;
    }
    Ok(())
}

/// Opens a value that is closed, if it is an object or an array, and counts what stands in it.
fn open_closed(
    alloc: Global,
    node: &mut Node<'_>,
    tokens: Tokens<'_>,
    opened: &mut usize,
) -> Result<(), AllocError>
    requires whole { IsWhole (view node.old) }
    requires closed { (s : Text) × (node.old ≡ Closed s) }
    ensures opened { OnOk result (IsOpened (view node.new)) }
    ensures finer { IsOpenedFrom (held node.old) (held node.new) }
{
    if let Some(row) = row_for(alloc, node, tokens, opened)? {
        let count = row.count();
        *node = Node::Open(Box::new(alloc, row)?);
        *opened = opened.saturating_add(count);
    }
    Ok(())
}

/// Opens the value, if it is an object or an array, so that the first of the tokens can be looked for in it,
/// and perhaps what is on the way of the others. Its text stays. The members and elements that stand open with
/// it are added to `opened`.
pub(crate) fn open(
    alloc: Global,
    node: &mut Node<'_>,
    tokens: Tokens<'_>,
    opened: &mut usize,
) -> Result<(), AllocError>
    requires { IsWhole (view node.old) }
    ensures whole { IsWhole (view node.new) }
    ensures text { tree_text (view node.new) ≡ tree_text (view node.old) }
    ensures opened { OnOk result (IsOpened (view node.new)) }
    ensures finer { IsOpenedFrom (held node.old) (held node.new) }
{
    match node {
        Node::Open(row) => ask(alloc, row),
        Node::Closed(_) => open_closed(alloc, node, tokens, opened),
    }
}
