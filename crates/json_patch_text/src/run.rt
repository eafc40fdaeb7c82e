//! A list of operations on a text (RFC 6902, sections 3 and 5).

ghost use Rattle.std.specs.Prelude.{◌≡◌, [], true, List, IfOk, IfErr, OnOk};
ghost use Rattle.std.specs.String.{string_bytes};
ghost use Rattle.json.specs.Json.{Json};
ghost use Rattle.json_lexemes.specs.Spelled.{IsShallowText};
ghost use Rattle.json_patch_text.specs.Bounded.{AreMadeUnder, AreShort, IsLoggedUnder, IsRunFaultUnder, IsUnder};
ghost use Rattle.json_patch_text.specs.Drafts.{IsDraft, KeepsDraft, draft_text};
ghost use Rattle.json_patch_text.specs.Logs.{HasLog};
ghost use Rattle.json_patch_text.specs.Operations.{TreeOperation};
ghost use Rattle.json_patch_text.specs.Run.{AcceptsText};
ghost use Rattle.json_patch_text.specs.Stopped.{Reports};
ghost use Rattle.json_patch_text.specs.TextOperations.{AreWrittenAs, place_of};
ghost use Rattle.json_text.specs.Checked.{text_in};

use crate::bounds::{Bounds, is_nested, levels, over, settled};
use crate::draft::Draft;
use crate::fault::{PatchTextFault, StepFault, TextLimitFault};
use crate::log::Log;
use crate::operation::TextOperation;
use crate::step::step;
use json::MAX_DEPTH;
use json_patch_limits::limits::LimitError;
use json_patch_operation::PatchError;
use json_text::CheckedText;
use std::alloc::Global;

/// The fault of a run in which the operation of this number was the first that wasn't made.
fn reported(
    alloc: Global,
    number: usize,
    operation: &TextOperation,
    fault: StepFault,
) -> PatchTextFault
    ensures { Reports fault number (place_of operation.now) result }
{
    let kind = match fault {
        StepFault::Refused(kind) => kind,
        StepFault::Memory(failed) => return PatchTextFault::Memory(failed),
    };
    match operation.path().to_buf(alloc) {
        Ok(path) => PatchTextFault::Refused(PatchError {
            operation: number,
            path,
            kind,
        }),
        Err(failed) => PatchTextFault::Memory(failed),
    }
}

/// The operations made on the draft, one after another, within the bounds if there are any. The log has what
/// takes them back, if it is to have it.
///
/// How deep the text nests after an operation is told by what it was before and by the value that was put in,
/// and by a look at the whole only where that may reach too deep.
#[tactic(auto, using(crate::proofs::Kept::kept_first, crate::proofs::Kept::kept_more))]
pub(crate) fn run_in(
    log: &mut Log,
    draft: &mut Draft,
    operations: &[TextOperation],
    bounds: Option<Bounds>,
) -> Result<(), TextLimitFault>
    requires draft { IsDraft draft.old }
    requires shallow { (j : Json) × IsShallowText (draft_text draft.old) j }
    requires empty { HasLog log.old [] × (log.old.cost ≡ 0) }
    requires under { IsUnder bounds (draft_text draft.old) × (log.old.kept ≡ true → AreShort bounds [] 0) }
    requires written { (ops : List TreeOperation) × AreWrittenAs operations.now ops }
    ensures draft { IsDraft draft.new }
    ensures back { KeepsDraft draft.old draft.new }
    ensures accepted { OnOk result ((ops : List TreeOperation)
        → AreWrittenAs operations.now ops → AcceptsText (draft_text draft.old) ops (draft_text draft.new)) }
    ensures made { OnOk result
        (AreMadeUnder bounds (draft_text draft.old) operations.now (draft_text draft.new) log.new.cost) }
    ensures logged { OnOk result ((log.new.kept ≡ log.old.kept)
        × IsLoggedUnder bounds (draft_text draft.old) operations.now (draft_text draft.new) log.new) }
    ensures fault { IfErr result (λ fault. (ops : List TreeOperation) → AreWrittenAs operations.now ops
        → IsRunFaultUnder log.old.kept bounds (draft_text draft.old) operations.now ops fault) }
{
    let levels = levels(bounds);
    // No deeper than this nests the text, if it isn't too deep.
    let mut most = levels;
    let mut deep = false;
    for number in 0..operations.len() {
        if deep {
            let fault = PatchTextFault::TooDeep { operation: number };
            return Err(TextLimitFault::Patch(fault));
        }
        let operation = &operations[number];
        let left = match step(log, draft, operation, most) {
            Ok(left) => left,
            Err(fault) => {
                let fault = reported(log.alloc, number, operation, fault);
                return Err(TextLimitFault::Patch(fault));
            }
        };
        let left = settled(log.alloc, draft, left, levels)?;
        if let Some(kind) = over(bounds, log, draft, left.is_none())? {
            return Err(TextLimitFault::Over(LimitError {
                operation: number,
                kind,
            }));
        }
        deep = is_nested(log.alloc, draft, left.is_none(), MAX_DEPTH)?;
        most = left.unwrap_or(levels);
    }
    Ok(())
}

/// The same on a text, which is put together at the end.
pub(crate) fn run(
    log: &mut Log,
    text: CheckedText,
    operations: &[TextOperation],
    bounds: Option<Bounds>,
) -> Result<String, TextLimitFault>
    requires empty { HasLog log.old [] × (log.old.cost ≡ 0) }
    requires under { IsUnder bounds (text_in text) × (log.old.kept ≡ true → AreShort bounds [] 0) }
    requires written { (ops : List TreeOperation) × AreWrittenAs operations.now ops }
    ensures accepted { IfOk result (λ new. (ops : List TreeOperation)
        → AreWrittenAs operations.now ops → AcceptsText (text_in text.entry) ops (string_bytes new)) }
    ensures made { IfOk result (λ new.
        AreMadeUnder bounds (text_in text.entry) operations.now (string_bytes new) log.new.cost) }
    ensures logged { IfOk result (λ new. (log.new.kept ≡ log.old.kept)
        × IsLoggedUnder bounds (text_in text.entry) operations.now (string_bytes new) log.new) }
    ensures fault { IfErr result (λ fault. (ops : List TreeOperation) → AreWrittenAs operations.now ops
        → IsRunFaultUnder log.old.kept bounds (text_in text.entry) operations.now ops fault) }
{
    let mut draft = Draft::new(text, operations, log.kept);
    match run_in(log, &mut draft, operations, bounds) {
        Ok(()) => Ok(draft.into_text(log.alloc)?),
        Err(fault) => Err(fault),
    }
}
