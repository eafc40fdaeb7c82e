//! Changes that a client may make below one pointer, and nowhere else.

ghost use Rattle.std.specs.Prelude.{◌≡◌, IfErr, IfOk, OnErr, OnOk};
ghost use Rattle.serde_json.specs.View.{view};
ghost use Rattle.jsonptr.specs.Pointers.{tokens_of};
ghost use Rattle.json_patch.specs.Document.{IsDocument};
ghost use Rattle.json_patch.specs.Operation.{AreWhole, operations_of};
ghost use Rattle.json_patch.specs.Run.{IsAccepted};
ghost use Rattle.json_patch.specs.Shared.{KeepsElsewhere};
ghost use Rattle.json_patch.specs.Texts.{of_patch};
ghost use Rattle.json_patch_uses.specs.Sections.{NoUpdateBelow, UpdatesBelow};
ghost use Rattle.json_patch_uses.specs.declared.section.SectionFault.TheVariants.{NotApplied};

use json_patch::jsonptr::Pointer;
use json_patch::{Fault, Patch, PatchFault, apply_patches, laws};
use serde_json::Value;
use std::alloc::Global;
use thiserror::Error;

/// Why a section wasn't changed.
#[derive(Debug, Drop, Error)]
pub enum SectionFault {
    /// The operation of this number, counted from 0, reaches out of the section.
    #[error("operation '/{0}' reaches out of the section")]
    Outside(usize),
    /// The text says no patch, or the document refuses it.
    #[error("{0}")]
    NotApplied(Fault),
}

impl From<Fault> for SectionFault {
    ghost from_gives = { λ error fault. fault ≡ NotApplied error };

    fn from(error: Fault) -> SectionFault {
        SectionFault::NotApplied(error)
    }
}

impl From<PatchFault> for SectionFault {
    ghost from_gives = { λ error fault. fault ≡ NotApplied (of_patch error) };

    fn from(error: PatchFault) -> SectionFault {
        SectionFault::NotApplied(Fault::from(error))
    }
}

/// Makes the changes that a text says, if each operation is below the section, and returns the patch
/// that takes them back. What stands elsewhere looks as before.
pub fn patch_section(
    alloc: Global,
    document: &mut Value,
    section: Pointer<'_>,
    text: &str,
) -> Result<Patch, SectionFault>
    requires { IsDocument (view document.old) }
    ensures updated { OnOk result (UpdatesBelow (tokens_of section.entry)
        (view document.old) text.now (view document.new)) }
    ensures elsewhere { OnOk result (KeepsElsewhere (tokens_of section.entry)
        (view document.old) (view document.new)) }
    ensures leads_back { IfOk result (λ undo.
        IsAccepted (view document.new) (operations_of undo) (view document.old)) }
    ensures undo_whole { IfOk result (λ undo. AreWhole (operations_of undo)) }
    ensures fault { IfErr result (NoUpdateBelow (tokens_of section.entry)
        (view document.old) text.now) }
    ensures unchanged { OnErr result (view document.new ≡ view document.old) }
    ensures document { IsDocument (view document.new) }
{
    laws::locality();
    let changes = Patch::from_str(alloc, text)?;
    for (number, operation) in changes.as_slice().iter().enumerate() {
        if !operation.is_within(section) {
            return Err(SectionFault::Outside(number));
        }
    }
    Ok(apply_patches(alloc, document, changes.as_slice())?)
}
