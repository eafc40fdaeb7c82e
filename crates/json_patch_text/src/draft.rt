//! The text that operations work on: as a whole, or in pieces.

ghost use Rattle.std.specs.Prelude.{◌≡◌, ◌≤◌, IfOk, IfSome, MatchOption, false, is_some, option_map, true};
ghost use Rattle.std.specs.String.{string_bytes};
ghost use Rattle.json.specs.Json.{Json};
ghost use Rattle.json_lexemes.specs.Skipped.{nesting};
ghost use Rattle.json_lexemes.specs.Spelled.{IsShallowText, Says};
ghost use Rattle.jsonptr.specs.Pointers.{tokens_of};
ghost use Rattle.json_patch_text.specs.Drafts.{IsCopyOf, IsTakenOut, whole_text};
ghost use Rattle.json_pieces.specs.Changes.{Removes};
ghost use Rattle.json_pieces.specs.Whole.{IsTaken, taken_text};
ghost use Rattle.json_text.specs.Checked.{text_in};
ghost use Rattle.json_text.specs.Listing.{shape_of};
ghost use Rattle.json_text.specs.Pointed.{tree_at};

use crate::operation::TextOperation;
use json_pieces::{Pieces, Taken};
use json_text::{CheckedText, Shape, is_deeper};
use jsonptr::Pointer;
use std::alloc::{AllocError, Global};

/// A text as a whole. Each call passes over it to its place.
#[derive(Drop)]
pub(crate) enum WholeText<'a> {
    /// The document's.
    Kept(CheckedText<'a>),
    /// One that a change made.
    Made(String),
}

impl WholeText<'_> {
    fn as_str(&self) -> &str
        ensures { result.now ≡ whole_text self.now }
    {
        match self {
            WholeText::Kept(text) => text.as_str(),
            WholeText::Made(text) => text.as_str(),
        }
    }

    fn checked(&self) -> CheckedText<'_>
        requires { (j : Json) × IsShallowText (whole_text self.now) j }
        ensures { text_in result ≡ whole_text self.now }
    {
        match self {
            WholeText::Kept(text) => *text,
            WholeText::Made(text) => CheckedText::known(text.as_str()),
        }
    }

    /// A copy of the text of the value where the pointer leads.
    fn value(&self, alloc: Global, pointer: Pointer) -> Result<Option<String>, AllocError>
        requires { (j : Json) × IsShallowText (whole_text self.now) j }
        ensures { IfOk result (IsCopyOf (whole_text self.now) (tokens_of pointer.entry)) }
    {
        match self.checked().value(alloc, pointer)? {
            Some(value) => Ok(Some(String::from_str(alloc, value.as_str())?)),
            None => Ok(None),
        }
    }

    /// What stands where the pointer leads.
    fn shape(&self, alloc: Global, pointer: Pointer) -> Result<Option<Shape>, AllocError>
        requires { (j : Json) × IsShallowText (whole_text self.now) j }
        ensures { IfOk result (λ found. (j : Json) → Says (whole_text self.now) j
            → found ≡ option_map shape_of (tree_at (tokens_of pointer.entry) j)) }
    {
        let text = self.checked();
        match text.value(alloc, pointer)? {
            Some(value) => Ok(Some(Shape::of(value.as_str()))),
            None => Ok(None),
        }
    }

    /// Takes on the text that a change made, and tells whether it made one.
    fn take(&mut self, made: Option<String>) -> bool
        ensures { MatchOption made ((result ≡ false) × (whole_text self.new ≡ whole_text self.old))
            (λ new. (result ≡ true) × (whole_text self.new ≡ string_bytes new)) }
    {
        match made {
            Some(new) => {
                *self = WholeText::Made(new);
                true
            }
            None => false,
        }
    }
}

impl WholeText<'_> {
    /// Takes out the value where the pointer leads.
    fn take_out<'a>(
        &mut self,
        alloc: Global,
        pointer: Pointer,
    ) -> Result<Option<Taken<'a>>, AllocError>
        requires { (j : Json) × IsShallowText (whole_text self.old) j }
        ensures removed { IfOk result (λ found. Removes (whole_text self.old) (tokens_of pointer.entry)
            (whole_text self.new) (is_some found)) }
        ensures taken { IfOk result (λ found. IfSome found
            (IsTakenOut (whole_text self.old) (tokens_of pointer.entry))) }
    {
        let Some(value) = self.value(alloc, pointer)? else {
            return Ok(None);
        };
        let Some(new) = self.checked().remove(alloc, pointer)? else {
            return Ok(None);
        };
        let taken = Taken::new(alloc, CheckedText::known(value.as_str()))?;
        *self = WholeText::Made(new);
        Ok(Some(taken))
    }
}

/// So many operations are made on the whole text, if none of them adds or the text is small.
const FEW: usize = 3;

/// So many of any text, if one of them adds: a second one takes two or three passes, since what the check left
/// is of the text before.
const FEW_THAT_ADD: usize = 2;

/// A text of at most so many bytes is small: to pass over it takes less than to open what is on the way.
const SMALL: usize = 512;

/// The text that operations work on.
#[derive(Drop)]
pub(crate) enum Draft<'a> {
    /// Made for a few operations.
    Whole(WholeText<'a>),
    /// An object or an array is passed over once, however many calls go through it.
    Pieces(Pieces<'a>),
}

/// How deep the text nests at the most, if no more than so many levels: half of them, or all.
fn most_levels(text: &str, levels: usize) -> Option<usize>
    ensures { IfSome result (λ most. (most ≤ levels) × (nesting text.now ≤ most)) }
{
    if !is_deeper(text, levels / 2) {
        Some(levels / 2)
    } else if !is_deeper(text, levels) {
        Some(levels)
    } else {
        None
    }
}

/// Whether one of these puts a value where there was none.
fn has_addition(operations: &[TextOperation]) -> bool {
    operations.iter().any(|operation| operation.is_addition())
}

impl<'a> Draft<'a> {
    ghost use Rattle.std.specs.Prelude.{◌<◌, length};
    ghost use Rattle.std.specs.Bool.{Decides};
    ghost use Rattle.json_patch_text.specs.Drafts.{IsDraft, IsInPieces, KeepsDraft, draft_text};
    ghost use Rattle.json_patch_text.specs.declared.draft.Draft.TheVariants as variant;
    ghost use Rattle.json_pieces.specs.Changes.{Adds, Removes, Replaces};

    /// The document's text, as serves these operations best: for a few as a whole, since a few passes take less
    /// time than to open each object and array on the way. One that adds takes many where its undo is kept, to tell
    /// the number of an element.
    pub(crate) fn new(text: CheckedText<'a>, operations: &[TextOperation], kept: bool) -> Draft<'a>
        ensures draft { IsDraft result }
        ensures text { draft_text result ≡ text_in text.entry }
    {
        let most = if !has_addition(operations) {
            FEW
        } else if kept {
            0
        } else if text.as_str().len() <= SMALL {
            FEW
        } else {
            FEW_THAT_ADD
        };
        if operations.len() <= most {
            Draft::Whole(WholeText::Kept(text))
        } else {
            Draft::Pieces(Pieces::new(text))
        }
    }

    pub(crate) fn len(&self) -> usize
        requires { IsDraft self.now }
        ensures { result ≡ length (draft_text self.now) }
    {
        match self {
            Draft::Whole(text) => text.as_str().len(),
            Draft::Pieces(pieces) => pieces.len(),
        }
    }

    /// Whether more than so many objects and arrays of the text are open at once.
    pub(crate) fn is_deeper(&self, alloc: Global, most: usize) -> Result<bool, AllocError>
        requires { IsDraft self.now }
        ensures { IfOk result (λ deeper. Decides deeper (most < nesting (draft_text self.now))) }
    {
        match self {
            Draft::Whole(text) => Ok(is_deeper(text.as_str(), most)),
            Draft::Pieces(pieces) => Ok(is_deeper(pieces.to_text(alloc)?.as_str(), most)),
        }
    }

    /// How deep the text nests at the most, if no more than so many levels.
    pub(crate) fn most_levels(
        &self,
        alloc: Global,
        levels: usize,
    ) -> Result<Option<usize>, AllocError>
        requires { IsDraft self.now }
        ensures { IfOk result (λ found. IfSome found
            (λ most. (most ≤ levels) × (nesting (draft_text self.now) ≤ most))) }
    {
        match self {
            Draft::Whole(text) => Ok(most_levels(text.as_str(), levels)),
            Draft::Pieces(pieces) => Ok(most_levels(pieces.to_text(alloc)?.as_str(), levels)),
        }
    }

    /// The pieces that it is in.
    pub(crate) fn into_pieces(self) -> Pieces<'a>
        requires { IsInPieces self }
        ensures { self.entry ≡ variant.Pieces result }
    {
        match self {
            Draft::Whole(_) => unreachable!(),
            Draft::Pieces(pieces) => pieces,
        }
    }

    /// The text, in one string.
    pub(crate) fn into_text(self, alloc: Global) -> Result<String, AllocError>
        requires { IsDraft self }
        ensures { IfOk result (λ text. string_bytes text ≡ draft_text self.entry) }
    {
        match self {
            Draft::Whole(WholeText::Kept(text)) => String::from_str(alloc, text.as_str()),
            Draft::Whole(WholeText::Made(text)) => Ok(text),
            Draft::Pieces(pieces) => pieces.to_text(alloc),
        }
    }

    /// As [`Pieces::value`].
    pub(crate) fn value(
        &mut self,
        alloc: Global,
        pointer: Pointer,
    ) -> Result<Option<String>, AllocError>
        requires draft { IsDraft self.old }
        requires shallow { (j : Json) × IsShallowText (draft_text self.old) j }
        ensures draft { IsDraft self.new }
        ensures back { KeepsDraft self.old self.new }
        ensures kept { IfOk result (λ found. draft_text self.new ≡ draft_text self.old) }
        ensures value { IfOk result (IsCopyOf (draft_text self.old) (tokens_of pointer.entry)) }
    {
        match self {
            Draft::Whole(text) => text.value(alloc, pointer),
            Draft::Pieces(pieces) => pieces.value(alloc, pointer),
        }
    }

    /// As [`Pieces::shape`].
    pub(crate) fn shape(
        &mut self,
        alloc: Global,
        pointer: Pointer,
    ) -> Result<Option<Shape>, AllocError>
        requires draft { IsDraft self.old }
        requires shallow { (j : Json) × IsShallowText (draft_text self.old) j }
        ensures draft { IsDraft self.new }
        ensures back { KeepsDraft self.old self.new }
        ensures kept { IfOk result (λ found. draft_text self.new ≡ draft_text self.old) }
        ensures shape { IfOk result (λ found. (j : Json) → Says (draft_text self.old) j
            → found ≡ option_map shape_of (tree_at (tokens_of pointer.entry) j)) }
    {
        match self {
            Draft::Whole(text) => text.shape(alloc, pointer),
            Draft::Pieces(pieces) => pieces.shape(alloc, pointer),
        }
    }

    /// As [`Pieces::replace`].
    pub(crate) fn replace(
        &mut self,
        alloc: Global,
        pointer: Pointer,
        value: CheckedText,
    ) -> Result<bool, AllocError>
        requires draft { IsDraft self.old }
        requires shallow { (j : Json) × IsShallowText (draft_text self.old) j }
        ensures draft { IsDraft self.new }
        ensures back { KeepsDraft self.old self.new }
        ensures replaced { IfOk result (Replaces (draft_text self.old) (tokens_of pointer.entry)
            (text_in value.entry) (draft_text self.new)) }
    {
        match self {
            Draft::Whole(text) => {
                let new = text.checked().replace(alloc, pointer, value)?;
                Ok(text.take(new))
            }
            Draft::Pieces(pieces) => pieces.replace(alloc, pointer, value),
        }
    }

    /// As [`Pieces::remove`].
    pub(crate) fn remove(&mut self, alloc: Global, pointer: Pointer) -> Result<bool, AllocError>
        requires draft { IsDraft self.old }
        requires shallow { (j : Json) × IsShallowText (draft_text self.old) j }
        ensures draft { IsDraft self.new }
        ensures back { KeepsDraft self.old self.new }
        ensures removed { IfOk result (Removes (draft_text self.old) (tokens_of pointer.entry)
            (draft_text self.new)) }
    {
        match self {
            Draft::Whole(text) => {
                let new = text.checked().remove(alloc, pointer)?;
                Ok(text.take(new))
            }
            Draft::Pieces(pieces) => pieces.remove(alloc, pointer),
        }
    }

    /// As [`Pieces::add`].
    pub(crate) fn add(
        &mut self,
        alloc: Global,
        pointer: Pointer,
        value: CheckedText,
    ) -> Result<bool, AllocError>
        requires draft { IsDraft self.old }
        requires shallow { (j : Json) × IsShallowText (draft_text self.old) j }
        ensures draft { IsDraft self.new }
        ensures back { KeepsDraft self.old self.new }
        ensures added { IfOk result (Adds (draft_text self.old) (tokens_of pointer.entry)
            (text_in value.entry) (draft_text self.new)) }
    {
        match self {
            Draft::Whole(text) => {
                let new = text.checked().add(alloc, pointer, value)?;
                Ok(text.take(new))
            }
            Draft::Pieces(pieces) => pieces.add(alloc, pointer, value),
        }
    }

    /// As [`Pieces::take`].
    pub(crate) fn take(
        &mut self,
        alloc: Global,
        pointer: Pointer,
    ) -> Result<Option<Taken<'a>>, AllocError>
        requires draft { IsDraft self.old }
        requires shallow { (j : Json) × IsShallowText (draft_text self.old) j }
        ensures draft { IsDraft self.new }
        ensures back { KeepsDraft self.old self.new }
        ensures removed { IfOk result (λ found. Removes (draft_text self.old) (tokens_of pointer.entry)
            (draft_text self.new) (is_some found)) }
        ensures taken { IfOk result (λ found. IfSome found
            (IsTakenOut (draft_text self.old) (tokens_of pointer.entry))) }
    {
        match self {
            Draft::Whole(text) => text.take_out(alloc, pointer),
            Draft::Pieces(pieces) => pieces.take(alloc, pointer),
        }
    }

    /// As [`Pieces::put`].
    pub(crate) fn put(
        &mut self,
        alloc: Global,
        pointer: Pointer,
        taken: Taken<'a>,
    ) -> Result<bool, AllocError>
        requires draft { IsDraft self.old }
        requires shallow { (j : Json) × IsShallowText (draft_text self.old) j }
        requires taken { IsTaken taken }
        ensures draft { IsDraft self.new }
        ensures back { KeepsDraft self.old self.new }
        ensures added { IfOk result (Adds (draft_text self.old) (tokens_of pointer.entry)
            (taken_text taken.entry) (draft_text self.new)) }
    {
        match self {
            Draft::Whole(text) => {
                let value = taken.into_text(alloc)?;
                let put = CheckedText::known(value.as_str());
                Ok(text.take(text.checked().add(alloc, pointer, put)?))
            }
            Draft::Pieces(pieces) => pieces.put(alloc, pointer, taken),
        }
    }
}
