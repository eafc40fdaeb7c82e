//! A JSON text with any numbers that is changed, and whose changes are undone and made again.

ghost use Rattle.std.specs.Prelude.{◌≡◌, ◌↔◌, ◌<◌, ◌≤◌, ℕ, List, IfErr, IfOk, IsTrue, OnErr, OnOk, length, map, string_bytes};
ghost use Rattle.json.specs.Json.{Json, max_depth};
ghost use Rattle.json_diff_text.specs.Differences.{SaySame};
ghost use Rattle.json_lexemes.specs.Skipped.{nesting};
ghost use Rattle.json_lexemes.specs.Spelled.{Says};
ghost use Rattle.json_patch_text.specs.Patched.{AcceptsPatch, IsPatchTextFault};
ghost use Rattle.json_patch_text.specs.WayBack.{IsRecordLimitFault};
ghost use Rattle.json_patch_operation.specs.declared.error.PatchError.{PatchError};
ghost use Rattle.json_patch_operation.specs.declared.read_error.ReadError.{ReadError};
ghost use Rattle.json_patch_text.specs.declared.fault.PatchTextFault.TheVariants.{Refused, Unreadable};
ghost use Rattle.json_patch_uses.specs.TextSteps.{Steps};

use json_kept_text::KeptText;
use json_patch_text::TextLimitFault;
use std::alloc::{AllocError, Global};
use std::collections::VecDeque;

/// A text, and the texts of the patches that take its changes back and make them again, the nearest first.
#[derive(Drop)]
pub struct TextEditor {
    kept: KeptText,
    undos: VecDeque<String>,
    redos: VecDeque<String>,
    depth: usize,
}

/// Texts that say the same are led alike by a patch.
fn led_alike()
    ensures itself { (t : List ℕ) (j : Json) → Says t j → SaySame t t }
    ensures turned { (t u : List ℕ) → SaySame t u → SaySame u t }
    ensures from_same { (t u p v : List ℕ) → SaySame t u → AcceptsPatch u p v → AcceptsPatch t p v }
    ensures to_same { (t p u v : List ℕ) → AcceptsPatch t p u → SaySame u v → AcceptsPatch t p v }
    ensures one_end { (t p u v : List ℕ) → AcceptsPatch t p u → AcceptsPatch t p v → SaySame u v }
    ensures unrefused { (t p u : List ℕ) (e : PatchError) → AcceptsPatch t p u
        → IsPatchTextFault t p (Refused e) → ⊥ }
    ensures read { (t p u : List ℕ) (e : ReadError) → AcceptsPatch t p u
        → IsPatchTextFault t p (Unreadable e) → ⊥ }
{
    json_reading::laws::readings();
    json_reading::laws::trees();
    json_reading::laws::same_trees();
    json_text::laws::texts();
    json_patch::laws::equality();
    json_patch::laws::values();
    json_patch_text::laws::runs();
    json_patch_text::laws::patches();
}

/// Patches the text, and returns the patch that leads back.
fn recorded(alloc: Global, kept: &mut KeptText, patch: &str) -> Result<String, TextLimitFault>
    ensures accepted { OnOk result (AcceptsPatch kept.old.text patch.now kept.new.text) }
    ensures leads_back { IfOk result
        (λ back. AcceptsPatch kept.new.text (string_bytes back) kept.old.text) }
    ensures readable { IfOk result (λ back. nesting (string_bytes back) ≤ max_depth) }
    ensures limits { kept.new.limits ≡ kept.old.limits }
    ensures fault { IfErr result (IsRecordLimitFault kept.old.limits kept.old.text patch.now) }
    ensures unchanged { OnErr result (kept.new.text ≡ kept.old.text) }
{
    kept.limits();
    kept.patch_recorded(alloc, patch)?;
    match kept.inverse(alloc) {
        Ok(Some(back)) => Ok(back),
        Ok(None) => unreachable!(),
        Err(error) => {
            kept.undo();
            Err(error.into())
        }
    }
}

/// Runs the first patch of `from`, if there is one, and stores what takes it back in `to`.
fn step(
    alloc: Global,
    kept: &mut KeptText,
    from: &mut VecDeque<String>,
    to: &mut VecDeque<String>,
) -> Result<bool, TextLimitFault>
    ensures limits { kept.new.limits ≡ kept.old.limits }
    ensures steps { Steps kept.old.limits result
        kept.old.text (map string_bytes from.old.items) (map string_bytes to.old.items)
        kept.new.text (map string_bytes from.new.items) (map string_bytes to.new.items) }
{
    let Some(patch) = from.front() else {
        return Ok(false);
    };
    to.reserve(1)?;
    let back = recorded(alloc, kept, patch.as_str())?;
    let _ = from.pop_front();
    to.push_front_reserved(back);
    Ok(true)
}

impl TextEditor {
    ghost use Rattle.json_patch_uses.specs.TextEditors.{HasVersions, IsFirstHeldUp, TextVersions, after_apply, after_redo, after_undo, held, initial};

    /// An editor of the text, which keeps at most `depth` undos. The text's limits hold of each change.
    pub fn open(alloc: Global, kept: KeptText, depth: usize) -> TextEditor
        ensures text { (held result).text ≡ kept.text }
        ensures limits { (held result).limits ≡ kept.limits }
        ensures opened { HasVersions (held result) (initial depth kept.text) }
    {
        led_alike();
        kept.limits();
        TextEditor {
            kept,
            undos: VecDeque::new(alloc),
            redos: VecDeque::new(alloc),
            depth,
        }
    }

    /// The text.
    pub fn to_text(&self, alloc: Global) -> Result<String, AllocError>
        ensures { IfOk result (λ s. string_bytes s ≡ (held self.now).text) }
    {
        self.kept.to_text(alloc)
    }

    /// Applies the patch, whole or not at all. What was undone can't be redone after it.
    pub fn apply(&mut self, alloc: Global, patch: &str) -> Result<(), TextLimitFault>
        ensures accepted { OnOk result
            (AcceptsPatch (held self.old).text patch.now (held self.new).text) }
        ensures applied { OnOk result ((vs : TextVersions) → HasVersions (held self.old) vs
            → HasVersions (held self.new) (after_apply (held self.new).text vs)) }
        ensures fault { IfErr result
            (IsRecordLimitFault (held self.old).limits (held self.old).text patch.now) }
        ensures unchanged { OnErr result (held self.new ≡ held self.old) }
    {
        led_alike();
        self.undos.reserve(1)?;
        let undo = recorded(alloc, &mut self.kept, patch)?;
        self.kept.limits();
        self.undos.push_front_reserved(undo);
        self.undos.truncate(self.depth);
        self.redos.clear();
        Ok(())
    }

    /// Takes the last change back, if there is one: the text then says what it said before.
    pub fn undo(&mut self, alloc: Global) -> Result<bool, TextLimitFault>
        ensures undone { OnOk result ((vs : TextVersions) → HasVersions (held self.old) vs
            → HasVersions (held self.new) (after_undo vs)) }
        ensures answer { IfOk result (λ took. (vs : TextVersions) → HasVersions (held self.old) vs
            → (IsTrue took ↔ (0 < length vs.before))) }
        ensures fault { IfErr result (λ f. (vs : TextVersions) → HasVersions (held self.old) vs
            → IsFirstHeldUp (held self.old) (held self.old).undos f) }
        ensures unchanged { OnErr result (held self.new ≡ held self.old) }
    {
        led_alike();
        self.kept.limits();
        step(alloc, &mut self.kept, &mut self.undos, &mut self.redos)
    }

    /// Makes the last change that was undone again, if there is one.
    pub fn redo(&mut self, alloc: Global) -> Result<bool, TextLimitFault>
        ensures redone { OnOk result ((vs : TextVersions) → HasVersions (held self.old) vs
            → HasVersions (held self.new) (after_redo vs)) }
        ensures answer { IfOk result (λ took. (vs : TextVersions) → HasVersions (held self.old) vs
            → (IsTrue took ↔ (0 < length vs.after))) }
        ensures fault { IfErr result (λ f. (vs : TextVersions) → HasVersions (held self.old) vs
            → IsFirstHeldUp (held self.old) (held self.old).redos f) }
        ensures unchanged { OnErr result (held self.new ≡ held self.old) }
    {
        led_alike();
        self.kept.limits();
        step(alloc, &mut self.kept, &mut self.redos, &mut self.undos)
    }
}
