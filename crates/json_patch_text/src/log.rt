//! What takes back the operations of a run.

ghost use Rattle.std.specs.Prelude.{◌≡◌, [], ◌∷◌, IfOk, Some, map};
ghost use Rattle.std.specs.String.{string_bytes};
ghost use Rattle.json.specs.Json.{Json};
ghost use Rattle.json_lexemes.specs.Spelled.{IsShallowText, Says};
ghost use Rattle.json_patch_text.specs.Drafts.{IsDraft, KeepsDraft, draft_text};
ghost use Rattle.json_patch_text.specs.Logs.{AreLogged, HasLog, Logs, comma_before};
ghost use Rattle.json_patch_text.specs.Undos.{TakesBack, backward_text};
ghost use Rattle.json_text.specs.Pointed.{tree_at};
ghost use Rattle.jsonptr.specs.Pointers.{tokens_of};

use crate::draft::Draft;
use crate::undo::{Undo, undo_added};
use jsonptr::Pointer;
use std::alloc::{AllocError, Global};

/// The texts of the operations that take back those of a run, in the order in which they are found: the
/// last is to be made first.
#[derive(Drop)]
pub(crate) struct Log {
    pub alloc: Global,
    /// Whether anything is to be kept.
    pub kept: bool,
    pub texts: Vec<String>,
    /// How many bytes the text of their list has.
    pub size: usize,
    /// How many bytes the operations have taken of the limits, whether anything is kept or not.
    pub cost: usize,
}

/// What stands before an operation of this number in the text of a list.
fn comma(number: usize) -> &'static str
    ensures { result.now ≡ comma_before number }
{
    if number == 0 { "" } else { "," }
}

impl Log {
    ghost use Rattle.json_patch_text.specs.declared.undo.Undo.{Undo};
    ghost use Rattle.json_patch_text.specs.Undos.{PutsBack};

    pub(crate) fn new(alloc: Global, kept: bool) -> Log
        ensures kept { result.kept ≡ kept }
        ensures empty { HasLog result [] × (result.cost ≡ 0) }
    {
        Log {
            alloc,
            kept,
            texts: Vec::new(alloc),
            size: 2,
            cost: 0,
        }
    }

    fn push(&mut self, undo: &Undo) -> Result<(), AllocError>
        ensures kept { IfOk result (λ none. self.new.kept ≡ self.old.kept) }
        ensures logged { IfOk result (λ none. AreLogged self.old (undo.now ∷ []) self.new) }
        ensures counted { IfOk result (λ none. self.new.cost ≡ self.old.cost) }
    {
        let text = undo.to_text(self.alloc)?;
        let comma = comma(self.texts.len()).len();
        if text.len() > usize::MAX - comma || self.size > usize::MAX - comma - text.len() {
            return Err(AllocError);
        }
        self.size += comma + text.len();
        if self.texts.push(text).is_err() {
            return Err(AllocError);
        }
        Ok(())
    }

    /// Keeps what takes back an addition that is to be made.
    #[tactic(auto, using(crate::proofs::Kept::kept_first, crate::proofs::Kept::kept_more))]
    pub(crate) fn added(&mut self, draft: &mut Draft, path: Pointer) -> Result<(), AllocError>
        requires draft { IsDraft draft.old }
        requires shallow { (j : Json) × IsShallowText (draft_text draft.old) j }
        ensures draft { IsDraft draft.new }
        ensures back { KeepsDraft draft.old draft.new }
        ensures same { IfOk result (λ none. draft_text draft.new ≡ draft_text draft.old) }
        ensures logs { IfOk result (λ none. Logs self.old (λ us. (u : Undo) × (us ≡ u ∷ [])
            × TakesBack (draft_text draft.old) (tokens_of path.entry) u) self.new) }
        ensures counted { IfOk result (λ none. self.new.cost ≡ self.old.cost) }
    {
        if !self.kept {
            return Ok(());
        }
        let undo = undo_added(self.alloc, draft, path)?;
        self.push(&undo)
    }

    /// Keeps the value that stands at a place and is to be removed from it, or exchanged for another. Where
    /// none stands there, it keeps nothing.
    #[tactic(auto, using(crate::proofs::Kept::kept_first, crate::proofs::Kept::kept_more))]
    pub(crate) fn displaced(
        &mut self,
        draft: &mut Draft,
        path: Pointer,
        exchanged: bool,
    ) -> Result<(), AllocError>
        requires draft { IsDraft draft.old }
        requires shallow { (j : Json) × IsShallowText (draft_text draft.old) j }
        ensures draft { IsDraft draft.new }
        ensures back { KeepsDraft draft.old draft.new }
        ensures same { IfOk result (λ none. draft_text draft.new ≡ draft_text draft.old) }
        ensures logs { IfOk result (λ none. (i v : Json) → Says (draft_text draft.old) i
            → tree_at (tokens_of path.entry) i ≡ Some v
            → Logs self.old (PutsBack exchanged (draft_text draft.old) (tokens_of path.entry)) self.new) }
        ensures counted { IfOk result (λ none. self.new.cost ≡ self.old.cost) }
    {
        if !self.kept {
            return Ok(());
        }
        let Some(value) = draft.value(self.alloc, path)? else {
            return Ok(());
        };
        let place = path.to_buf(self.alloc)?;
        let undo = if exchanged {
            Undo::Replace(place, value)
        } else {
            Undo::Add(place, value)
        };
        self.push(&undo)
    }

    /// The text of the list of what is kept, the last first.
    pub(crate) fn to_text(&self) -> Result<String, AllocError>
        ensures { IfOk result (λ text. string_bytes text
            ≡ backward_text (map string_bytes self.now.texts.items)) }
    {
        let mut text = String::with_capacity(self.alloc, self.size)?;
        text.push_str("[")?;
        let count = self.texts.len();
        for number in 0..count {
            text.push_str(comma(number))?;
            text.push_str(self.texts[count - 1 - number].as_str())?;
        }
        text.push_str("]")?;
        Ok(text)
    }
}
