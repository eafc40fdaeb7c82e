//! A JSON text in pieces, patched where it stands (RFC 6902).

ghost use Rattle.std.specs.Prelude.{◌≡◌, ◌≤◌, [], true, IfErr, IfOk, List, OnErr, OnOk, ℕ};
ghost use Rattle.std.specs.String.{string_bytes};
ghost use Rattle.json.specs.Json.{Json};
ghost use Rattle.json_lexemes.specs.Skipped.{nesting};
ghost use Rattle.json_lexemes.specs.Spelled.{IsShallowText};
ghost use Rattle.json_patch_text.specs.Bounded.{AreMadeUnder, AreShort, IsLoggedUnder, IsRunFaultUnder, IsUnder};
ghost use Rattle.json_patch_text.specs.Logs.{HasLog};
ghost use Rattle.json_patch_text.specs.Operations.{TreeOperation};
ghost use Rattle.json_patch_text.specs.Patched.{AcceptsPatch, IsPatchedText};
ghost use Rattle.json_patch_text.specs.Run.{AcceptsText};
ghost use Rattle.json_patch_text.specs.TextOperations.{AreWrittenAs};
ghost use Rattle.json_patch_text.specs.WayBack.{IsRecordLimitFault, IsRecorded, IsRecordedWithin, IsUndoWithin};
ghost use Rattle.json_patch_text.specs.Within.{IsPatchedWithin, IsTextLimitFault, IsTextWithin, most_bytes};
ghost use Rattle.json_pieces.specs.Whole.{ArePieces, KeepsBack, LeadsBack, LeadsFurther, text_of};

use crate::bounds::Bounds;
use crate::draft::Draft;
use crate::fault::{PatchTextFault, TextLimitFault};
use crate::log::Log;
use crate::operation::TextOperation;
use crate::patch::operations_in;
use crate::run::run_in;
use json_patch_limits::limits::Limits;
use json_pieces::Pieces;
use json_text::CheckedText;
use std::alloc::Global;
use std::mem;

/// The operations made on the pieces, as [`run_in`] makes them on a draft.
#[tactic(auto, using(crate::proofs::Kept::in_pieces, crate::proofs::Kept::nothing_there, crate::proofs::Kept::pieces_kept))]
fn made_in(
    log: &mut Log,
    pieces: &mut Pieces,
    operations: &[TextOperation],
    bounds: Option<Bounds>,
) -> Result<(), TextLimitFault>
    requires pieces { ArePieces pieces.old }
    requires shallow { (j : Json) × IsShallowText (text_of pieces.old) j }
    requires empty { HasLog log.old [] × (log.old.cost ≡ 0) }
    requires under { IsUnder bounds (text_of pieces.old) × (log.old.kept ≡ true → AreShort bounds [] 0) }
    requires written { (ops : List TreeOperation) × AreWrittenAs operations.now ops }
    ensures pieces { ArePieces pieces.new }
    ensures back { KeepsBack pieces.old pieces.new }
    ensures accepted { OnOk result ((ops : List TreeOperation)
        → AreWrittenAs operations.now ops → AcceptsText (text_of pieces.old) ops (text_of pieces.new)) }
    ensures made { OnOk result
        (AreMadeUnder bounds (text_of pieces.old) operations.now (text_of pieces.new) log.new.cost) }
    ensures logged { OnOk result ((log.new.kept ≡ log.old.kept)
        × IsLoggedUnder bounds (text_of pieces.old) operations.now (text_of pieces.new) log.new) }
    ensures fault { IfErr result (λ fault. (ops : List TreeOperation) → AreWrittenAs operations.now ops
        → IsRunFaultUnder log.old.kept bounds (text_of pieces.old) operations.now ops fault) }
{
    // Something has to stand in their place while the draft has them.
    let given = mem::replace(pieces, Pieces::new(CheckedText::known("[]")));
    let mut draft = Draft::Pieces(given);
    let done = run_in(log, &mut draft, operations, bounds);
    *pieces = draft.into_pieces();
    done
}

/// The same, whole or not at all: where one isn't made, those before it are taken back.
fn run_pieces(
    log: &mut Log,
    pieces: &mut Pieces,
    operations: &[TextOperation],
    bounds: Option<Bounds>,
) -> Result<(), TextLimitFault>
    requires pieces { ArePieces pieces.old }
    requires shallow { (j : Json) × IsShallowText (text_of pieces.old) j }
    requires empty { HasLog log.old [] × (log.old.cost ≡ 0) }
    requires under { IsUnder bounds (text_of pieces.old) × (log.old.kept ≡ true → AreShort bounds [] 0) }
    requires written { (ops : List TreeOperation) × AreWrittenAs operations.now ops }
    ensures pieces { ArePieces pieces.new }
    ensures accepted { OnOk result ((ops : List TreeOperation)
        → AreWrittenAs operations.now ops → AcceptsText (text_of pieces.old) ops (text_of pieces.new)) }
    ensures made { OnOk result
        (AreMadeUnder bounds (text_of pieces.old) operations.now (text_of pieces.new) log.new.cost) }
    ensures logged { OnOk result ((log.new.kept ≡ log.old.kept)
        × IsLoggedUnder bounds (text_of pieces.old) operations.now (text_of pieces.new) log.new) }
    ensures fault { IfErr result (λ fault. (ops : List TreeOperation) → AreWrittenAs operations.now ops
        → IsRunFaultUnder log.old.kept bounds (text_of pieces.old) operations.now ops fault) }
    ensures unchanged { OnErr result (text_of pieces.new ≡ text_of pieces.old) }
    ensures back { OnOk result (LeadsBack pieces.new (text_of pieces.old)) }
    ensures further { OnOk result ((t : List ℕ) → LeadsBack pieces.old t → LeadsFurther pieces.new t) }
    ensures still { OnErr result ((t : List ℕ) → LeadsBack pieces.old t → LeadsBack pieces.new t) }
{
    pieces.mark(log.alloc)?;
    match made_in(log, pieces, operations, bounds) {
        Ok(()) => Ok(()),
        Err(fault) => {
            pieces.take_back();
            Err(fault)
        }
    }
}

/// The text with the patch applied as [`patch_text_within`](crate::patch_text_within) does it, within limits, in
/// pieces: so a change costs what it changes, and not the text's length, where the objects and arrays on
/// the way are open.
///
/// A change is made whole or not at all. One that is made is taken back by
/// [`Pieces::take_back`](json_pieces::Pieces::take_back), and by a second such call the one before.
///
/// ```rust
/// let mut pieces = Pieces::new(text);
/// let patch = r#"[{"op": "copy", "from": "/price", "path": "/list/1"}]"#;
/// patch_pieces(alloc, &mut pieces, patch, limits)?;
/// let new = pieces.to_text(alloc)?;
/// // { "price": 1.50, "list": [1, 1.50, 2] }
/// pieces.take_back();
/// ```
pub fn patch_pieces(
    alloc: Global,
    pieces: &mut Pieces,
    patch: &str,
    limits: Limits,
) -> Result<(), TextLimitFault>
    requires pieces { ArePieces pieces.old }
    requires shallow { (j : Json) × IsShallowText (text_of pieces.old) j }
    requires depth { nesting (text_of pieces.old) ≤ limits.depth }
    ensures pieces { ArePieces pieces.new }
    ensures accepted { OnOk result (AcceptsPatch (text_of pieces.old) patch.now (text_of pieces.new)) }
    ensures kept { OnOk result (IsPatchedText (text_of pieces.old) patch.now (text_of pieces.new)) }
    ensures within { OnOk result
        (IsPatchedWithin limits (text_of pieces.old) patch.now (text_of pieces.new)) }
    ensures bounded { OnOk result
        (IsTextWithin limits (most_bytes limits (text_of pieces.old) patch.now) (text_of pieces.new)) }
    ensures back { OnOk result (LeadsBack pieces.new (text_of pieces.old)) }
    ensures further { OnOk result ((t : List ℕ) → LeadsBack pieces.old t → LeadsFurther pieces.new t) }
    ensures fault { IfErr result (IsTextLimitFault limits (text_of pieces.old) patch.now) }
    ensures unchanged { OnErr result (text_of pieces.new ≡ text_of pieces.old) }
    ensures still { OnErr result ((t : List ℕ) → LeadsBack pieces.old t → LeadsBack pieces.new t) }
{
    let operations = operations_in(alloc, patch)?;
    let bounds = Bounds {
        limits,
        document: pieces.len(),
        patch: patch.len(),
    };
    let mut log = Log::new(alloc, false);
    run_pieces(&mut log, pieces, operations.as_slice(), Some(bounds))
}

/// The same, and the answer is the text of the patch that leads back, as
/// [`record_text_within`](crate::record_text_within) has it: its operations lead to what the text said,
/// where [`Pieces::take_back`](json_pieces::Pieces::take_back) brings back its bytes.
///
/// ```rust
/// let patch = r#"[{"op": "remove", "path": "/price"}]"#;
/// let undo = record_pieces(alloc, &mut pieces, patch, limits)?;
/// // [{"op":"add","path":"/price","value":1.50}]
/// ```
pub fn record_pieces(
    alloc: Global,
    pieces: &mut Pieces,
    patch: &str,
    limits: Limits,
) -> Result<String, TextLimitFault>
    requires pieces { ArePieces pieces.old }
    requires shallow { (j : Json) × IsShallowText (text_of pieces.old) j }
    requires depth { nesting (text_of pieces.old) ≤ limits.depth }
    ensures pieces { ArePieces pieces.new }
    ensures accepted { OnOk result (AcceptsPatch (text_of pieces.old) patch.now (text_of pieces.new)) }
    ensures kept { OnOk result (IsPatchedText (text_of pieces.old) patch.now (text_of pieces.new)) }
    ensures recorded { IfOk result (λ undo.
        IsRecorded (text_of pieces.old) patch.now (text_of pieces.new) (string_bytes undo)) }
    ensures leads_back { IfOk result (λ undo.
        AcceptsPatch (text_of pieces.new) (string_bytes undo) (text_of pieces.old)) }
    ensures within { IfOk result (λ undo.
        IsRecordedWithin limits (text_of pieces.old) patch.now (text_of pieces.new) (string_bytes undo)) }
    ensures bounded { OnOk result
        (IsTextWithin limits (most_bytes limits (text_of pieces.old) patch.now) (text_of pieces.new)) }
    ensures undo_bounded { IfOk result (λ undo.
        IsUndoWithin limits (most_bytes limits (text_of pieces.old) patch.now) (string_bytes undo)) }
    ensures back { OnOk result (LeadsBack pieces.new (text_of pieces.old)) }
    ensures further { OnOk result ((t : List ℕ) → LeadsBack pieces.old t → LeadsFurther pieces.new t) }
    ensures fault { IfErr result (IsRecordLimitFault limits (text_of pieces.old) patch.now) }
    ensures unchanged { OnErr result (text_of pieces.new ≡ text_of pieces.old) }
    ensures still { OnErr result ((t : List ℕ) → LeadsBack pieces.old t → LeadsBack pieces.new t) }
{
    let operations = operations_in(alloc, patch)?;
    let bounds = Bounds {
        limits,
        document: pieces.len(),
        patch: patch.len(),
    };
    let mut log = Log::new(alloc, true);
    match run_pieces(&mut log, pieces, operations.as_slice(), Some(bounds)) {
        Ok(()) => match log.to_text() {
            Ok(undo) => Ok(undo),
            Err(failed) => {
                pieces.take_back();
                Err(TextLimitFault::Patch(PatchTextFault::Memory(failed)))
            }
        },
        Err(fault) => Err(fault),
    }
}
