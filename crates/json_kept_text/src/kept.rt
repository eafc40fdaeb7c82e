//! A text that is kept.

ghost use Rattle.std.specs.Prelude.{◌≡◌, ◌≤◌, ◌↔◌, [], IfErr, IfOk, IfSome, IsFalse, IsSomeAnd, IsTrue, IsUtf8, IfNone, MatchOption, None, OnErr, OnOk, Some, length, max, option_map};
ghost use Rattle.std.specs.String.{string_bytes};
ghost use Rattle.json.specs.Json.{Json, max_depth};
ghost use Rattle.json_diff_text.specs.Differences.{IsFewBetween, IsPlainPatch, SaySame, most_levels};
ghost use Rattle.json_kept_text.specs.Faults.{IsMergeLimitFault, IsNoWayTo, IsUnkept};
ghost use Rattle.json_kept_text.specs.Kept.{IsReadable, opened};
ghost use Rattle.json_lexemes.specs.Skipped.{nesting};
ghost use Rattle.json_lexemes.specs.Spelled.{Says};
ghost use Rattle.json_merge_text.specs.Merged.{IsMergeOver, IsMergeTextFault, IsMergedAlready, IsMergedText, SaysMerged};
ghost use Rattle.json_merge_text.specs.Merged.{most_bytes as merged_bytes};
ghost use Rattle.json_patch_text.specs.Operations.{SaysOperations};
ghost use Rattle.json_patch_text.specs.Patched.{AcceptsPatch, IsPatchedText};
ghost use Rattle.json_patch_text.specs.Shallow.{IsNeverTooDeep};
ghost use Rattle.json_patch_text.specs.WayBack.{IsRecordLimitFault, IsRecorded, IsRecordedWithin, IsUndoWithin};
ghost use Rattle.json_patch_text.specs.Within.{IsPatchedWithin, IsTextLimitFault, IsTextWithin, most_bytes};
ghost use Rattle.json_pieces.specs.Whole.{ArePieces, text_of};
ghost use Rattle.json_text.specs.Checked.{text_in};
ghost use Rattle.json_text.specs.Pointed.{IsWrittenAt, tree_at};
ghost use Rattle.jsonptr.specs.Pointers.{tokens_of};

use crate::before::Before;
use crate::fault::MergeLimitFault;
use json_diff_text::{DiffTextFault, diff_text};
use json_merge_text::{MergeTextFault, merge_checked_within};
use json_patch_limits::limits::Limits;
use json_patch_text::{TextLimitFault, patch_pieces, record_pieces};
use json_pieces::Pieces;
use json_text::{CheckedText, TextFault, is_deeper};
use jsonptr::Pointer;
use std::alloc::{AllocError, Global};
use std::marker::Model;

/// What takes back the last change, beside the pieces: the text of the patch that leads back.
#[derive(Drop)]
struct Past {
    before: Before,
    inverse: String,
}

/// A JSON text that is kept, changed and looked at, within limits that hold of each change. A contract
/// sees the text, the limits, and the last change where that was recorded.
///
/// Each change is made whole or not at all: where it is refused or over the limits, or memory runs out,
/// the text and what was recorded are as before.
///
/// ```rust
/// let limits = Limits {
///     depth: 100,
///     copied: 100_000,
/// };
/// let mut kept = KeptText::new(alloc, r#"{ "price": 1.50, "list": [1, 2]}"#, limits)?;
/// let patch = r#"[{"op": "move", "from": "/price", "path": "/list/-"}]"#;
/// kept.patch_recorded(alloc, patch)?;
/// let changed = kept.to_text(alloc)?;
/// // { "list": [1, 2, 1.50]}
/// kept.undo();
/// let before = kept.to_text(alloc)?;
/// // { "price": 1.50, "list": [1, 2]}
/// ```
#[derive(Drop)]
pub struct KeptText {
    pieces: Pieces<'static>,
    limits: Limits,
    last: Option<Past>,
}

impl Model for KeptText {
    ghost use Rattle.json_kept_text.specs.Kept.{State};

    ghost Value = { State };

    ghost use Rattle.json_kept_text.specs.Inner.{IsSound, shown};

    ghost view = { shown };

    ghost invariant = { IsSound };
}

/// The text, where it is JSON and nests no deeper than so many levels.
#[tactic(auto, using(crate::proofs::Sound::unkept, crate::proofs::Sound::known_readable))]
fn checked(alloc: Global, text: &str, limits: Limits) -> Result<CheckedText<'_>, TextFault>
    requires { limits.depth ≤ most_levels }
    ensures text { IfOk result (λ checked. text_in checked ≡ text.now) }
    ensures readable { OnOk result (IsReadable limits text.now) }
    ensures fault { IfErr result (IsUnkept limits text.now) }
{
    // One pass checks the text and how deep it nests, where nothing is wrong with it.
    if let Some(checked) = CheckedText::within(text, limits.depth) {
        return Ok(checked);
    }
    if is_deeper(text, limits.depth) {
        return Err(TextFault::TooDeep);
    }
    CheckedText::new(alloc, text)
}

impl KeptText {
    /// Keeps a text. The limits hold of it and of each change: at most `limits.depth` objects and arrays may
    /// be open at once, of at most 126, so that the patch that leads back is read, too. How long a text may
    /// become is said at each change.
    ///
    /// Refused is a text that is no JSON, or has an unpaired surrogate, and before that one that nests
    /// deeper.
    ///
    /// ```rust
    /// let limits = Limits {
    ///     depth: 1,
    ///     copied: 100_000,
    /// };
    /// let told = match KeptText::new(alloc, r#"{"a": [1.50]}"#, limits) {
    ///     Ok(kept) => kept.to_text(alloc)?,
    ///     Err(fault) => format!(in alloc; "{fault}")?,
    /// };
    /// // the text nests too deep
    /// ```
    pub fn new(alloc: Global, text: &str, limits: Limits) -> Result<KeptText, TextFault>
        requires { limits.depth ≤ most_levels }
        ensures opened { IfOk result (λ k. k ≡ opened limits text.now) }
        ensures readable { OnOk result (IsReadable limits text.now) }
        ensures fault { IfErr result (IsUnkept limits text.now) }
    {
        let text = checked(alloc, text, limits)?;
        Ok(KeptText {
            pieces: Pieces::owned(alloc, text)?,
            limits,
            last: None,
        })
    }

    /// The text with the patch applied (RFC 6902), as `json_patch_text::patch_text_within` makes it, takes
    /// the place of the text. What was recorded before can't be taken back any more.
    ///
    /// Each text that the operations leave may have at most as many bytes as the text and the patch
    /// together, and `limits.copied` more. The first operation that would leave a longer or deeper one is
    /// `Over`. Of the faults `Patch(Document)` never comes.
    ///
    /// ```rust
    /// let mut kept = KeptText::new(alloc, r#"{ "price": 1.50, "list": [1, 2] }"#, limits)?;
    /// let patch = r#"[{"op": "copy", "from": "/price", "path": "/list/1"}]"#;
    /// kept.patch(alloc, patch)?;
    /// // { "price": 1.50, "list": [1, 1.50, 2] }
    /// ```
    pub fn patch(&mut self, alloc: Global, patch: &str) -> Result<(), TextLimitFault>
        ensures accepted { OnOk result (AcceptsPatch self.old.text patch.now self.new.text) }
        ensures kept { OnOk result (IsPatchedText self.old.text patch.now self.new.text) }
        ensures within { OnOk result
            (IsPatchedWithin self.old.limits self.old.text patch.now self.new.text) }
        ensures bounded { OnOk result (IsTextWithin self.old.limits
            (most_bytes self.old.limits self.old.text patch.now) self.new.text) }
        ensures unrecorded { OnOk result (self.new.last ≡ None) }
        ensures limits { self.new.limits ≡ self.old.limits }
        ensures readable { IsReadable self.new.limits self.new.text }
        ensures fault { IfErr result (IsTextLimitFault self.old.limits self.old.text patch.now) }
        ensures unchanged { OnErr result (self.new ≡ self.old) }
    {
        patch_pieces(alloc, &mut self.pieces, patch, self.limits)?;
        self.pieces.forget();
        self.last = None;
        Ok(())
    }

    /// The same, and the change is recorded: [`KeptText::undo`] takes it back, and [`KeptText::inverse`]
    /// has the patch that leads back. This is in the place of what was recorded before.
    ///
    /// That patch may have as many bytes as a text may. The first operation with which this isn't so is
    /// `Over`, too.
    pub fn patch_recorded(&mut self, alloc: Global, patch: &str) -> Result<(), TextLimitFault>
        ensures accepted { OnOk result (AcceptsPatch self.old.text patch.now self.new.text) }
        ensures kept { OnOk result (IsPatchedText self.old.text patch.now self.new.text) }
        ensures before { OnOk result (option_map (λ c. c.before) self.new.last ≡ Some self.old.text) }
        ensures recorded { OnOk result (IsSomeAnd self.new.last
            (λ c. IsRecorded self.old.text patch.now self.new.text c.inverse)) }
        ensures leads_back { OnOk result (IsSomeAnd self.new.last
            (λ c. AcceptsPatch self.new.text c.inverse self.old.text)) }
        ensures utf8 { OnOk result (IsSomeAnd self.new.last (λ c. IsUtf8 c.inverse)) }
        ensures within { OnOk result (IsSomeAnd self.new.last (λ c. IsRecordedWithin
            self.old.limits self.old.text patch.now self.new.text c.inverse)) }
        ensures bounded { OnOk result (IsTextWithin self.old.limits
            (most_bytes self.old.limits self.old.text patch.now) self.new.text) }
        ensures undo_bounded { OnOk result (IsSomeAnd self.new.last (λ c. IsUndoWithin self.old.limits
            (most_bytes self.old.limits self.old.text patch.now) c.inverse)) }
        ensures limits { self.new.limits ≡ self.old.limits }
        ensures readable { IsReadable self.new.limits self.new.text }
        ensures fault { IfErr result (IsRecordLimitFault self.old.limits self.old.text patch.now) }
        ensures unchanged { OnErr result (self.new ≡ self.old) }
    {
        let before = Before::of(self);
        let inverse = record_pieces(alloc, &mut self.pieces, patch, self.limits)?;
        self.last = Some(Past { before, inverse });
        Ok(())
    }

    /// The pieces of the text with the merge patch merged in; `None` where that is too long.
    fn merged(&self, alloc: Global, patch: &str) -> Result<Option<Pieces<'static>>, MergeTextFault>
        requires { nesting patch.now ≤ self.now.limits.depth }
        ensures pieces { IfOk result (λ found. IfSome found (λ new. ArePieces new)) }
        ensures merged { IfOk result (λ found. IfSome found
            (λ new. SaysMerged self.now.text patch.now (text_of new))) }
        ensures already { IfOk result (λ found. IfSome found (λ new.
            IsMergedAlready self.now.text patch.now → text_of new ≡ self.now.text)) }
        ensures kept { IfOk result (λ found. IfSome found
            (λ new. IsMergedText self.now.text patch.now (text_of new))) }
        ensures small { IfOk result (λ found. IfSome found (λ new.
            length (text_of new) ≤ merged_bytes self.now.limits.copied self.now.text patch.now)) }
        ensures readable { IfOk result (λ found. IfSome found
            (λ new. IsReadable self.now.limits (text_of new))) }
        ensures over { IfOk result (λ found. IfNone found
            (IsMergeOver self.now.limits.copied self.now.text patch.now)) }
        ensures fault { IfErr result (IsMergeTextFault self.now.text patch.now) }
    {
        let text = self.pieces.to_text(alloc)?;
        let text = CheckedText::known(text.as_str());
        let Some(new) = merge_checked_within(alloc, text, patch, self.limits.copied)? else {
            return Ok(None);
        };
        let new = CheckedText::known(new.as_str());
        Ok(Some(Pieces::owned(alloc, new)?))
    }

    /// The text with the merge patch merged in (RFC 7396), as `json_merge_text::merge_text_within` makes it,
    /// takes the place of the text. What was recorded before can't be taken back any more.
    ///
    /// The patch may nest as deep as the text. The new text may have at most as many bytes as the text and
    /// the patch together, and `limits.copied` more; else it is `TooLong`. Of the faults
    /// `Merge(Document)` never comes.
    ///
    /// ```rust
    /// let mut kept = KeptText::new(alloc, r#"{"title": "Hello!", "price": 1.50}"#, limits)?;
    /// kept.merge(alloc, r#"{"title": null, "tags": ["new"]}"#)?;
    /// // {"price": 1.50,"tags": ["new"]}
    /// ```
    #[tactic(auto, using(crate::proofs::Sound::unmerged))]
    pub fn merge(&mut self, alloc: Global, patch: &str) -> Result<(), MergeLimitFault>
        ensures merged { OnOk result (SaysMerged self.old.text patch.now self.new.text) }
        ensures already { OnOk result
            (IsMergedAlready self.old.text patch.now → self.new.text ≡ self.old.text) }
        ensures kept { OnOk result (IsMergedText self.old.text patch.now self.new.text) }
        ensures small { OnOk result
            (length self.new.text ≤ merged_bytes self.old.limits.copied self.old.text patch.now) }
        ensures unrecorded { OnOk result (self.new.last ≡ None) }
        ensures limits { self.new.limits ≡ self.old.limits }
        ensures readable { IsReadable self.new.limits self.new.text }
        ensures fault { IfErr result (IsMergeLimitFault self.old.limits self.old.text patch.now) }
        ensures unchanged { OnErr result (self.new ≡ self.old) }
    {
        if is_deeper(patch, self.limits.depth) {
            return Err(MergeLimitFault::Merge(MergeTextFault::Patch(TextFault::TooDeep)));
        }
        match self.merged(alloc, patch)? {
            Some(pieces) => {
                self.pieces = pieces;
                self.last = None;
                Ok(())
            }
            None => Err(MergeLimitFault::TooLong),
        }
    }

    /// Takes back the last change, if that was recorded and isn't taken back: the text is the one before it,
    /// byte for byte. Returns whether it did. It takes no memory.
    pub fn undo(&mut self) -> bool
        ensures undone { IsTrue result → option_map (λ c. c.before) self.old.last ≡ Some self.new.text }
        ensures nothing { IsFalse result ↔ (self.old.last ≡ None) }
        ensures used { self.new.last ≡ None }
        ensures limits { self.new.limits ≡ self.old.limits }
        ensures readable { IsReadable self.new.limits self.new.text }
        ensures unchanged { IsFalse result → self.new ≡ self.old }
    {
        if self.last.take().is_none() {
            return false;
        }
        self.pieces.take_back();
        true
    }

    /// The text of the patch that leads back from the text to the one before the last change, if that was
    /// recorded and isn't taken back, whatever its numbers are read as.
    ///
    /// It leads to what that text says, with `add`, `remove` and `replace` alone; [`KeptText::undo`] brings back
    /// its bytes.
    ///
    /// ```rust
    /// kept.patch_recorded(alloc, r#"[{"op": "remove", "path": "/price"}]"#)?;
    /// let inverse = kept.inverse(alloc)?;
    /// // [{"op":"add","path":"/price","value":1.50}]
    /// ```
    pub fn inverse(&self, alloc: Global) -> Result<Option<String>, AllocError>
        ensures inverse { IfOk result
            (λ found. option_map string_bytes found ≡ option_map (λ c. c.inverse) self.now.last) }
        ensures leads_back { IfSome self.now.last (λ c. AcceptsPatch self.now.text c.inverse c.before) }
    {
        match &self.last {
            Some(past) => Ok(Some(String::from_str(alloc, past.inverse.as_str())?)),
            None => Ok(None),
        }
    }

    /// The text of the value where the pointer leads (RFC 6901), as it is written; `None` where nothing stands
    /// there. Of several members of one name the last is meant. The objects and arrays on the way are opened,
    /// so that a second look, or a change there, doesn't take the time of their text.
    ///
    /// ```rust
    /// let mut kept = KeptText::new(alloc, r#"{"list": [1.50, 2] }"#, limits)?;
    /// let array = kept.value(alloc, place)?;
    /// // [1.50, 2]
    /// ```
    pub fn value(&mut self, alloc: Global, pointer: Pointer) -> Result<Option<String>, AllocError>
        ensures value { IfOk result (λ found. (j : Json) × Says self.old.text j
            × MatchOption found (tree_at (tokens_of pointer.entry) j ≡ None)
            (λ s. IsWrittenAt self.old.text j (tokens_of pointer.entry) (string_bytes s))) }
        ensures unchanged { self.new ≡ self.old }
    {
        self.pieces.close_if_large(alloc)?;
        self.pieces.value(alloc, pointer)
    }

    /// The text.
    pub fn to_text(&self, alloc: Global) -> Result<String, AllocError>
        ensures text { IfOk result (λ s. string_bytes s ≡ self.now.text) }
    {
        self.pieces.to_text(alloc)
    }

    /// How many bytes the text has.
    pub fn len(&self) -> usize
        ensures { result ≡ length self.now.text }
    {
        self.pieces.len()
    }

    /// The limits that it was given: the text is JSON within them.
    pub fn limits(&self) -> Limits
        ensures limits { result ≡ self.now.limits }
        ensures bounded { result.depth ≤ most_levels }
        ensures readable { IsReadable self.now.limits self.now.text }
    {
        self.limits
    }

    /// The patch, as text, that leads from the text to what another says, as `json_diff_text::diff_text` makes
    /// it, whatever numbers both have: [`KeptText::patch`] makes of the text one that says the same. It has no
    /// operation exactly where both say the same.
    ///
    /// The other may nest as deep as the text. Of the faults `From` never comes.
    ///
    /// ```rust
    /// let kept = KeptText::new(alloc, r#"{"a": 1.5, "b": 1}"#, limits)?;
    /// let patch = kept.diff_to(alloc, r#"{"a": 1.50, "b": 2.5e3}"#)?;
    /// // [{"op":"replace","path":"/b","value":2.5e3}]
    /// ```
    #[tactic(auto, using(crate::proofs::Sound::no_way))]
    pub fn diff_to(&self, alloc: Global, to: &str) -> Result<String, DiffTextFault>
        ensures leads { IfOk result (λ patch. AcceptsPatch self.now.text (string_bytes patch) to.now) }
        ensures plain { IfOk result (λ patch. IsPlainPatch self.now.text (string_bytes patch)) }
        ensures nothing { IfOk result
            (λ patch. SaysOperations (string_bytes patch) [] ↔ SaySame self.now.text to.now) }
        ensures few { IfOk result (λ patch. IsFewBetween self.now.text to.now (string_bytes patch)) }
        ensures readable { IfOk result (λ patch. nesting (string_bytes patch) ≤ max_depth) }
        ensures never { IfOk result (λ patch. IsNeverTooDeep
            (max (nesting self.now.text) (nesting to.now)) self.now.text (string_bytes patch)) }
        ensures depth { OnOk result (nesting to.now ≤ self.now.limits.depth) }
        ensures fault { IfErr result (IsNoWayTo self.now.limits to.now) }
    {
        if is_deeper(to, self.limits.depth) {
            return Err(DiffTextFault::To(TextFault::TooDeep));
        }
        let text = self.pieces.to_text(alloc)?;
        diff_text(alloc, text.as_str(), to)
    }
}
