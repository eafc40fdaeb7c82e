//! A value in pieces: its text, or a row of values with what stands around each.

ghost use Rattle.std.specs.Prelude.{◌≡◌, ◌++◌, ◌∷◌, [], IfOk, MatchOption, OnOk, length};
ghost use Rattle.std.specs.String.{string_bytes};
ghost use Rattle.json_pieces.specs.Nodes.{AreSoundIn, IsFirstPart, IsSound, lead_of, mark_before, row_view, text_bytes, tree_text, view};
ghost use Rattle.json_text.specs.Cuts.{closes, row_text};
ghost use Rattle.long_vec.specs.Items.{items_of};
ghost use Rattle.long_vec.specs.Walks.{left};

use crate::seams::{Seam, Seams};
use crate::text::Text;
use long_vec::{Items, LongVec};
use std::alloc::{AllocError, Global};

/// A value.
#[derive(Drop)]
#[cycle(node)]
pub(crate) enum Node<'a> {
    /// By its text, with no whitespace at its front or end.
    Closed(Text<'a>),
    /// In a box, so that a removal moves few bytes for each value behind it.
    Open(Box<Row<'a>>),
}

/// An object or an array.
#[derive(Drop)]
#[cycle(node)]
pub(crate) struct Row<'a> {
    pub named: bool,
    /// How many bytes its text has.
    pub length: usize,
    /// The whitespace between the brackets where no value stands there.
    pub hollow: Text<'a>,
    pub seams: Seams<'a>,
    pub values: LongVec<Node<'a>>,
}

/// A walk over the parts of a row: each seam with its value.
#[derive(Drop)]
pub(crate) struct Parts<'r, 'a> {
    seams: Items<'r, Seam<'a>>,
    values: Items<'r, Node<'a>>,
}

impl<'a> Row<'a> {
    /// How many values stand in it.
    pub(crate) fn count(&self) -> usize
        requires { IsSound (row_view self.now) }
        ensures { result ≡ length (items_of self.now.values) }
    {
        self.seams.count()
    }

    pub(crate) fn parts(&self) -> Parts<'_, 'a>
        ensures seams { left result.seams ≡ items_of self.now.seams.all }
        ensures values { left result.values ≡ items_of self.now.values }
    {
        Parts {
            seams: self.seams.all.items(),
            values: self.values.items(),
        }
    }
}

impl<'r, 'a> Parts<'r, 'a> {
    pub(crate) fn next(&mut self) -> Option<(&'r Seam<'a>, &'r Node<'a>)>
        requires { AreSoundIn (left self.old.seams) (left self.old.values) }
        ensures { MatchOption result (left self.old.values ≡ []) (λ part. IsFirstPart (left self.old.seams) (left self.old.values) part.0.now part.1.now (left self.new.seams) (left self.new.values)) }
    {
        let seam = self.seams.next()?;
        let value = self.values.next()?;
        Some((seam, value))
    }
}

impl<'a> Node<'a> {
    /// How many bytes its text has.
    #[tactic(auto, using(crate::proofs::Levels::view_open, crate::proofs::Levels::view_closed))]
    pub(crate) fn len(&self) -> usize
        requires { IsSound (view self.now) }
        ensures { result ≡ length (tree_text (view self.now)) }
    {
        match self {
            Node::Closed(text) => text.len(),
            Node::Open(row) => row.length,
        }
    }
}

/// Writes the value's text at the end.
#[tactic(auto, using(crate::proofs::Levels::view_open, crate::proofs::Levels::view_closed))]
#[cycle(write)]
pub(crate) fn write(node: &Node<'_>, out: &mut String) -> Result<(), AllocError>
    requires sound { IsSound (view node.now) }
    ensures { OnOk result (string_bytes out.new
        ≡ string_bytes out.old ++ tree_text (view node.now)) }
{
    match node {
        Node::Closed(text) => out.push_str(text.as_str()),
        Node::Open(row) => write_row(row, out),
    }
}

#[tactic(auto, using(crate::proofs::Lists::value_sound))]
#[cycle(write)]
fn write_row(row: &Row<'_>, out: &mut String) -> Result<(), AllocError>
    requires sound { IsSound (row_view row.now) }
    ensures { OnOk result (string_bytes out.new
        ≡ string_bytes out.old ++ tree_text (row_view row.now)) }
{
    if row.count() == 0 {
        return write_hollow(row, out);
    }
    let mut first = true;
    let mut parts = row.parts();
    while let Some((seam, value)) = parts.next() {
        out.push_str(mark(row.named, first))?;
        write_lead(seam, out)?;
        write(value, out)?;
        seam.trail.append_to(out)?;
        first = false;
    }
    out.push_str(closing(row.named))
}

/// Writes brackets with nothing but whitespace.
fn write_hollow(row: &Row<'_>, out: &mut String) -> Result<(), AllocError>
    ensures { OnOk result (string_bytes out.new
        ≡ string_bytes out.old ++ row_text row.now.named (text_bytes row.now.hollow) []) }
{
    out.push_str(mark(row.named, true))?;
    out.push_str(row.hollow.as_str())?;
    out.push_str(closing(row.named))
}

/// Writes what stands before a value.
fn write_lead(seam: &Seam<'_>, out: &mut String) -> Result<(), AllocError>
    ensures { OnOk result (string_bytes out.new ≡ string_bytes out.old ++ lead_of seam.now) }
{
    seam.whitespace.append_to(out)?;
    seam.name.append_to(out)?;
    seam.colons.append_to(out)
}

/// What stands before a member or an element, the first or another.
fn mark(named: bool, first: bool) -> &'static str
    ensures { result.now ≡ mark_before named first ∷ [] }
{
    if !first {
        ","
    } else if named {
        "{"
    } else {
        "["
    }
}

fn closing(named: bool) -> &'static str
    ensures { result.now ≡ closes named ∷ [] }
{
    if named { "}" } else { "]" }
}

/// The value's text.
pub(crate) fn written(alloc: Global, node: &Node<'_>) -> Result<String, AllocError>
    requires { IsSound (view node.now) }
    ensures { IfOk result (λ text. string_bytes text ≡ tree_text (view node.now)) }
{
    let mut out = String::with_capacity(alloc, node.len())?;
    write(node, &mut out)?;
    Ok(out)
}

impl<'a> Node<'a> {
    /// The value's text, in one string.
    pub(crate) fn into_text(self, alloc: Global) -> Result<String, AllocError>
        requires { IsSound (view self) }
        ensures { IfOk result (λ text. string_bytes text ≡ tree_text (view self.entry)) }
    {
        match self {
            Node::Closed(Text::Made(text)) => Ok(text),
            node => written(alloc, &node),
        }
    }
}
