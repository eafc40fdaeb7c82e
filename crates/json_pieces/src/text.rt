//! A stretch of the first text, or one that was made since.

ghost use Rattle.std.specs.Prelude.{◌≡◌, ◌++◌, IfOk, OnOk, length};
ghost use Rattle.std.specs.String.{string_bytes};
ghost use Rattle.json_pieces.specs.Nodes.{text_bytes};
ghost use Rattle.json_text.specs.Styled.{colons_like, whitespace_like};

use crate::lent::Lent;
use json_text::{colons_like, whitespace_like};
use std::alloc::{AllocError, Global};

/// A stretch of the first text, or one that was made since.
#[derive(Drop)]
pub(crate) enum Text<'a> {
    /// No bytes.
    Empty,
    Kept(Lent<'a>),
    Made(String),
}

impl<'a> Text<'a> {
    pub(crate) fn as_str(&self) -> &str
        ensures { result.now ≡ text_bytes self.now }
    {
        match self {
            Text::Empty => "",
            Text::Kept(text) => text.as_str(),
            Text::Made(text) => text.as_str(),
        }
    }

    pub(crate) fn len(&self) -> usize
        ensures { result ≡ length (text_bytes self.now) }
    {
        self.as_str().len()
    }

    /// Writes it at the end.
    pub(crate) fn append_to(&self, out: &mut String) -> Result<(), AllocError>
        ensures { OnOk result (string_bytes out.new ≡ string_bytes out.old ++ text_bytes self.now) }
    {
        let text = self.as_str();
        // Most of what stands in seams is empty.
        if text.is_empty() {
            return Ok(());
        }
        out.push_str(text)
    }

    /// One of the first text.
    pub(crate) fn kept(text: &'a str) -> Text<'a>
        ensures { text_bytes result ≡ text.entry.now }
    {
        Text::Kept(Lent::new(text))
    }

    /// One that is made anew. What stands in most seams needs no block of memory.
    pub(crate) fn made(alloc: Global, text: &str) -> Result<Text<'a>, AllocError>
        ensures { IfOk result (λ made. text_bytes made ≡ text.now) }
    {
        match text {
            "" => Ok(Text::Empty),
            " " => Ok(Text::kept(" ")),
            ":" => Ok(Text::kept(":")),
            ": " => Ok(Text::kept(": ")),
            _ => Ok(Text::Made(String::from_str(alloc, text)?)),
        }
    }

    /// The whitespace of a new member or element, by this of a neighbour.
    pub(crate) fn whitespace_like(&self, alloc: Global) -> Result<Text<'a>, AllocError>
        ensures { IfOk result (λ copy. text_bytes copy ≡ whitespace_like (text_bytes self.now)) }
    {
        match self {
            Text::Empty => Ok(Text::Empty),
            Text::Kept(text) => Ok(Text::kept(whitespace_like(text.as_str()))),
            Text::Made(text) => Text::made(alloc, whitespace_like(text.as_str())),
        }
    }

    /// The colon of a new member, by this one of a neighbour.
    pub(crate) fn colons_like(&self, alloc: Global) -> Result<Text<'a>, AllocError>
        ensures { IfOk result (λ copy. text_bytes copy ≡ colons_like (text_bytes self.now)) }
    {
        match self {
            Text::Empty => Ok(Text::Empty),
            Text::Kept(text) => Ok(Text::kept(colons_like(text.as_str()))),
            Text::Made(text) => Text::made(alloc, colons_like(text.as_str())),
        }
    }
}
