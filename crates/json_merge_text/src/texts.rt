//! The two texts of a merge, in pieces, and the changes that are made of the document's.

ghost use Rattle.std.specs.Prelude.{◌≡◌, ◌∷◌, [], ◌++◌, IfOk, None, OnOk, Some, option_map, true};
ghost use Rattle.std.specs.Bool.{Decides};
ghost use Rattle.std.specs.String.{string_bytes};
ghost use Rattle.json.specs.Json.{Json, string};
ghost use Rattle.json.specs.Value.{value_view};
ghost use Rattle.json_lexemes.specs.Spelled.{IsShallowText, Says};
ghost use Rattle.json_merge_text.specs.Changes.{add as by_adding, replace as by_replacing};
ghost use Rattle.json_merge_text.specs.Merging.{IsWrittenIn};
ghost use Rattle.json_merge_text.specs.Stands.{IsPutIn, MayStandAt, StandsAt};
ghost use Rattle.json_merge_text.specs.Steps.{AreTexts, Becomes};
ghost use Rattle.json_pieces.specs.Whole.{ArePieces, text_of};
ghost use Rattle.json_reading.specs.Same.{SameTree};
ghost use Rattle.json_text.specs.Checked.{text_in};
ghost use Rattle.json_text.specs.Listing.{shape_of};
ghost use Rattle.json_text.specs.Pointed.{tree_at};
ghost use Rattle.json_text.specs.Removed.{IsRemoved};

use json::{Scratch, Value};
use json_pieces::Pieces;
use json_reading::same_tree;
use json_text::{CheckedText, Shape, string_of};
use jsonptr::PointerBuf;
use std::alloc::{AllocError, Global};

/// The place of a member of what stands at `path`.
pub(crate) fn member_of(
    alloc: Global,
    path: &PointerBuf,
    name: &str,
) -> Result<PointerBuf, AllocError>
    ensures { IfOk result (λ there. there ≡ path.now ++ name.now ∷ []) }
{
    let mut there = path.clone(alloc)?;
    there.push_back(alloc, name)?;
    Ok(there)
}

/// What stands at a place, as it is written.
fn written(alloc: Global, pieces: &mut Pieces<'_>, path: &PointerBuf) -> Result<String, AllocError>
    requires pieces { ArePieces pieces.old }
    requires stands { (q : Json) × StandsAt (text_of pieces.old) path.now q }
    ensures pieces { IfOk result (λ s. ArePieces pieces.new) }
    ensures kept { IfOk result (λ s. text_of pieces.new ≡ text_of pieces.old) }
    ensures written { IfOk result (λ s. IsWrittenIn (text_of pieces.old) path.now (string_bytes s)) }
{
    match pieces.value(alloc, path.as_pointer())? {
        Some(value) => Ok(value),
        None => unreachable!(),
    }
}

fn shape_of_value(value: &Value) -> Shape
    ensures { result ≡ shape_of (value_view value.now) }
{
    match value {
        Value::Object(_) => Shape::Object,
        Value::Array(_) => Shape::Array,
        Value::String(_) => Shape::String,
        _ => Shape::Atom,
    }
}

fn same_shape(a: Shape, b: Shape) -> bool
    ensures { a ≡ b → result ≡ true }
{
    match (a, b) {
        (Shape::Object, Shape::Object) => true,
        (Shape::Array, Shape::Array) => true,
        (Shape::String, Shape::String) => true,
        (Shape::Atom, Shape::Atom) => true,
        _ => false,
    }
}

/// Whether a text that is JSON says this string.
fn says_string(alloc: Global, text: &str, wanted: &str) -> Result<bool, AllocError>
    ensures { IfOk result (λ same. (i : Json) → Says text.now i
        → Decides same (SameTree i (string wanted.now))) }
{
    match string_of(alloc, text)? {
        Some(said) => Ok(said.as_str() == wanted),
        None => Ok(false),
    }
}

/// Whether a text that is JSON is read as the same as a value.
// Not inlined: where strings are compared, the reader's room would else be held too.
#[inline(never)]
fn reads_as(alloc: Global, text: &str, value: &Value) -> Result<bool, AllocError>
    ensures { IfOk result (λ same. (i : Json) → Says text.now i
        → Decides same (SameTree i (value_view value.now))) }
{
    let mut scratch = Scratch::new(alloc);
    let Ok(here) = Value::parse(alloc, text, &mut scratch) else {
        return Err(AllocError);
    };
    same_tree(alloc, &here, value)
}

/// Whether a text that is JSON says the same as a value. Most strings need no reader, whose room is
/// cleared for each value.
fn says_same(alloc: Global, text: &str, value: &Value) -> Result<bool, AllocError>
    ensures { IfOk result (λ same. (i : Json) → Says text.now i
        → Decides same (SameTree i (value_view value.now))) }
{
    match value {
        Value::String(wanted) => says_string(alloc, text, wanted),
        _ => reads_as(alloc, text, value),
    }
}

/// The document's text and the patch's.
#[derive(Drop)]
pub(crate) struct Texts<'a> {
    /// What is merged into.
    pub document: Pieces<'a>,
    /// What is merged; it says and writes what it did, throughout.
    pub patch: Pieces<'a>,
}

impl<'a> Texts<'a> {
    pub(crate) fn new(document: CheckedText<'a>, patch: CheckedText<'a>) -> Texts<'a>
        ensures texts { AreTexts result }
        ensures document { text_of result.document ≡ text_in document.entry }
        ensures patch { text_of result.patch ≡ text_in patch.entry }
    {
        Texts {
            document: Pieces::new(document),
            patch: Pieces::new(patch),
        }
    }

    /// What the document has at a place, if it has anything.
    pub(crate) fn shape(
        &mut self,
        alloc: Global,
        path: &PointerBuf,
    ) -> Result<Option<Shape>, AllocError>
        requires texts { AreTexts self.old }
        requires shallow { (j : Json) × IsShallowText (text_of self.old.document) j }
        ensures kept { IfOk result (λ found.
            Becomes self.old self.new (λ patch text new. new ≡ text)) }
        ensures shape { IfOk result (λ found. (j : Json) → Says (text_of self.old.document) j
            → found ≡ option_map shape_of (tree_at path.now j)) }
    {
        self.document.shape(alloc, path.as_pointer())
    }

    /// Whether the document has the same as `value` at a place.
    // Kept out of the merge's recursion, whose every level would else hold its room.
    #[inline(never)]
    pub(crate) fn has_same(
        &mut self,
        alloc: Global,
        path: &PointerBuf,
        value: &Value,
    ) -> Result<bool, AllocError>
        requires texts { AreTexts self.old }
        requires shallow { (j : Json) × IsShallowText (text_of self.old.document) j }
        ensures kept { IfOk result (λ same.
            Becomes self.old self.new (λ patch text new. new ≡ text)) }
        ensures same { IfOk result (λ same. (i : Json) → StandsAt (text_of self.old.document) path.now i
            → Decides same (SameTree i (value_view value.now))) }
    {
        let Some(here) = self.shape(alloc, path)? else {
            return Ok(false);
        };
        if !same_shape(here, shape_of_value(value)) {
            return Ok(false);
        }
        self.reads_same(alloc, path, value)
    }

    /// The same, by reading a copy of what stands there.
    fn reads_same(
        &mut self,
        alloc: Global,
        path: &PointerBuf,
        value: &Value,
    ) -> Result<bool, AllocError>
        requires texts { AreTexts self.old }
        requires shallow { (j : Json) × IsShallowText (text_of self.old.document) j }
        ensures kept { IfOk result (λ same.
            Becomes self.old self.new (λ patch text new. new ≡ text)) }
        ensures same { IfOk result (λ same. (i : Json) → StandsAt (text_of self.old.document) path.now i
            → Decides same (SameTree i (value_view value.now))) }
    {
        let Some(here) = self.document.value(alloc, path.as_pointer())? else {
            return Ok(false);
        };
        says_same(alloc, here.as_str(), value)
    }

    /// What the patch has at a place added to the document there.
    // Kept out of the merge's recursion, whose every level would else hold its room.
    #[inline(never)]
    pub(crate) fn add(&mut self, alloc: Global, path: &PointerBuf) -> Result<(), AllocError>
        requires texts { AreTexts self.old }
        requires named { (q : Json) × StandsAt (text_of self.old.patch) path.now q }
        requires stands { MayStandAt (text_of self.old.document) path.now None }
        ensures { OnOk result (Becomes self.old self.new
            (λ patch text new. IsPutIn patch path.now (by_adding path.now) text new)) }
    {
        let value = written(alloc, &mut self.patch, path)?;
        let value = CheckedText::known(value.as_str());
        let done = self.document.add(alloc, path.as_pointer(), value)?;
        prove!(done);
        Ok(())
    }

    /// What the document has at a place replaced by what the patch has there.
    // Kept out of the merge's recursion, whose every level would else hold its room.
    #[inline(never)]
    pub(crate) fn replace(&mut self, alloc: Global, path: &PointerBuf) -> Result<(), AllocError>
        requires texts { AreTexts self.old }
        requires named { (q : Json) × StandsAt (text_of self.old.patch) path.now q }
        requires stands { (i : Json) × StandsAt (text_of self.old.document) path.now i }
        ensures { OnOk result (Becomes self.old self.new
            (λ patch text new. IsPutIn patch path.now (by_replacing path.now) text new)) }
    {
        let value = written(alloc, &mut self.patch, path)?;
        let value = CheckedText::known(value.as_str());
        let done = self.document.replace(alloc, path.as_pointer(), value)?;
        prove!(done);
        Ok(())
    }

    /// What the document has at a place taken out.
    // Kept out of the merge's recursion, whose every level would else hold its room.
    #[inline(never)]
    pub(crate) fn remove(&mut self, alloc: Global, path: &PointerBuf) -> Result<(), AllocError>
        requires texts { AreTexts self.old }
        requires stands { (i : Json) × MayStandAt (text_of self.old.document) path.now (Some i) }
        ensures { OnOk result (Becomes self.old self.new
            (λ patch text new. IsRemoved text path.now new)) }
    {
        let done = self.document.remove(alloc, path.as_pointer())?;
        prove!(done);
        Ok(())
    }
}
