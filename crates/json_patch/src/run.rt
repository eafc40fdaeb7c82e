//! A list of operations on a document (RFC 6902, sections 3 and 5).

ghost use Rattle.std.specs.Prelude.{◌≡◌, ◌≤◌, ◌*◌, ◌+◌, [], ℕ, IfOk, IsOk, None, OnOk, OnErr, Some, length, take, true};
ghost use Rattle.serde_json.specs.Data.{Data, depth};
ghost use Rattle.serde_json.specs.View.{view};
ghost use Rattle.json_patch_edit.specs.Attempt.{ComesTo};
ghost use Rattle.json_patch_document.specs.Document.{IsDocument};
ghost use Rattle.json_patch.specs.Faulting.{Reports};
ghost use Rattle.json_patch_laws.specs.Inverse.{ArePlain, IsInverse};
ghost use Rattle.json_patch_edit.specs.InverseComputed.{inverse};
ghost use Rattle.json_patch_limits.specs.OverLimits.{AreShallow, IfOver, IfRefusedUnder, IfUnder, IsNeverOver, IsNeverOverRecorded, IsOverAt, IsOverRecordedAt, own_sizes, size, values_size};
ghost use Rattle.json_patch_limits.specs.OverLimitsComputed.{over_at, over_under};
ghost use Rattle.json_patch.specs.Logged.{IsFree, is_recorded, takes};
ghost use Rattle.json_patch_edit.specs.NoMemory.{AreTestsThenRemove, NeverShort, TakeNoMemory};
ghost use Rattle.json_patch_operation.specs.Operation.{AreWhole, IsWholeOp, operation_of, operations, operations_of, path_of};
ghost use Rattle.json_patch.specs.Recorded.{Records};
ghost use Rattle.json_patch.specs.Refusal.{IfRefused, NamesFirst, IfShort};
ghost use Rattle.json_patch_laws.specs.Run.{Accepts, IsAccepted};
ghost use Rattle.json_patch_edit.specs.RunComputed.{after_step};
ghost use Rattle.json_patch.specs.declared.log.Keep.TheVariants.{Inverse, Neither, Undo};

use crate::clearing::clear_marks;
use crate::inverse::{inverse_of, undo_room};
use crate::log::{Keep, Log};
use crate::undoing::undo_all;
use json_patch_edit::error::StepFault;
use json_patch_limits::charge::charge;
use json_patch_limits::limits::{LimitError, LimitFault, Limits};
use json_patch_operation::{Patch, PatchError, PatchFault, PatchOperation};
use serde_json::Value;
use std::alloc::{AllocError, Global};
use std::slice;

/// Applies the operations one after another, or none of them. A refused patch leaves the document
/// as it was, and so does one that runs out of memory.
///
/// Every operation is made in place, and a refused list is undone without memory. Of the document
/// nothing is copied but what a `copy` adds. The empty list takes no memory, and neither does an
/// accepted list of `test`s and then at most one `remove` at a path with no `~`.
///
/// ```rust
/// match patch(alloc, document, changes.as_slice()) {
///     Ok(()) => String::from_str(alloc, "accepted"),
///     Err(PatchFault::Refused(error)) => format!(in alloc; "{error}"),
///     // operation '/1' failed at path '/c/d': path is invalid
///     Err(PatchFault::Memory(error)) => Err(error),
/// }
/// ```
#[tactic(auto, using(json_patch_laws::proofs::Runs::accepts_document))]
pub fn patch(alloc: Global, doc: &mut Value, patch: &[PatchOperation]) -> Result<(), PatchFault>
    requires document { IsDocument (view doc.old) }
    requires whole { AreWhole (operations patch.now) }
    ensures accepted { OnOk result (Accepts (view doc.old) (operations patch.now) (view doc.new)) }
    ensures refused { IfRefused result (NamesFirst (view doc.old) (operations patch.now)) }
    ensures unchanged { OnErr result (view doc.new ≡ view doc.old) }
    ensures document { IsDocument (view doc.new) }
    ensures empty { patch.now ≡ [] → IsOk result }
    ensures no_memory { AreTestsThenRemove (operations patch.now)
        → (e : Data) → Accepts (view doc.old) (operations patch.now) e → IsOk result }
{
    match run(alloc, doc, patch, Keep::Undo, None) {
        Ok(_undo) => Ok(()),
        Err(LimitFault::Patch(fault)) => Err(fault),
        Err(LimitFault::Over(_)) => unreachable!(),
    }
}

/// Applies the operations as [`patch`] does, but none that is over the limits: that puts a value
/// deeper than `limits.depth` levels, or that copies, with the `copy`s before it, more than
/// `limits.copied`. Where one comes to be over, that is returned, and the document is left as it
/// was. Whether one is over is known before it is made, and without a walk through the document. An
/// operation that is over and would be refused is over.
///
/// A stranger's patch can nest a document as deep as memory allows, by a `copy` of it into itself
/// again and again, and can double its size with each operation. Within limits a document of at most
/// `limits.depth` levels never has more, and grows by no more than what the operations hold and
/// `limits.copied`; so no call on it recurses deeper.
///
/// ```rust
/// let limits = Limits {
///     depth: 3,
///     copied: 1_000,
/// };
/// match patch_within(alloc, document, changes.as_slice(), limits) {
///     Ok(()) => String::from_str(alloc, "accepted"),
///     // operation '/1' is over the limits: value would reach too deep
///     Err(LimitFault::Over(error)) => format!(in alloc; "{error}"),
///     Err(LimitFault::Patch(fault)) => format!(in alloc; "{fault}"),
/// }
/// ```
#[tactic(auto, using(json_patch_laws::proofs::Runs::accepts_document, json_patch_laws::proofs::LimitedRuns::answered_over, json_patch_laws::proofs::LimitedRuns::answered_never, json_patch_laws::proofs::LimitedRuns::answered_depth, json_patch_laws::proofs::LimitedRuns::answered_size))]
pub fn patch_within(
    alloc: Global,
    doc: &mut Value,
    patch: &[PatchOperation],
    limits: Limits,
) -> Result<(), LimitFault>
    requires document { IsDocument (view doc.old) }
    requires whole { AreWhole (operations patch.now) }
    ensures accepted { OnOk result (Accepts (view doc.old) (operations patch.now) (view doc.new)) }
    ensures refused { IfRefusedUnder result (NamesFirst (view doc.old) (operations patch.now)) }
    ensures over { IfOver result
        (λ e. IsOverAt limits (view doc.old) (operations patch.now) e.operation e.kind) }
    ensures never { IfUnder result (IsNeverOver limits (view doc.old) (operations patch.now)) }
    ensures shallow { depth (view doc.old) ≤ limits.depth → depth (view doc.new) ≤ limits.depth }
    ensures small { OnOk result (size (view doc.new) ≤ size (view doc.old)
        + (own_sizes (operations patch.now) + limits.copied)) }
    ensures unchanged { OnErr result (view doc.new ≡ view doc.old) }
    ensures document { IsDocument (view doc.new) }
{
    drop(run(alloc, doc, patch, Keep::Undo, Some(limits))?);
    Ok(())
}

/// Applies the operations one after another, in place. A refused operation leaves what the ones
/// before it made of the document; out of memory, what some of the first ones made of it
/// is left, and each operation is made whole or not at all. An accepted list of `test`s and of
/// `remove`s at paths with no `~` takes no memory.
///
/// ```rust
/// match patch_unsafe(alloc, document, changes.as_slice()) {
///     Ok(()) => Ok(changes.as_slice().len()),
///     // {"a":1} is left as {"a":1,"b":2} by `add /b 2` and a refused `remove /c/d`
///     Err(PatchFault::Refused(error)) => Ok(error.operation),
///     Err(PatchFault::Memory(error)) => Err(error),
/// }
/// ```
#[tactic(auto, using(crate::proofs::ProgramRuns::state_document))]
pub fn patch_unsafe(
    alloc: Global,
    doc: &mut Value,
    patch: &[PatchOperation],
) -> Result<(), PatchFault>
    requires document { IsDocument (view doc.old) }
    requires whole { AreWhole (operations patch.now) }
    ensures accepted { OnOk result (Accepts (view doc.old) (operations patch.now) (view doc.new)) }
    ensures refused { IfRefused result (NamesFirst (view doc.old) (operations patch.now)) }
    ensures stopped { IfRefused result
        (λ e. Accepts (view doc.old) (take e.operation (operations patch.now)) (view doc.new)) }
    ensures memory { IfShort result ((k : ℕ) × (k ≤ length patch.now)
        × Accepts (view doc.old) (take k (operations patch.now)) (view doc.new)) }
    ensures no_memory { TakeNoMemory (operations patch.now)
        → (e : Data) → Accepts (view doc.old) (operations patch.now) e → IsOk result }
    ensures document { IsDocument (view doc.new) }
{
    for number in 0..patch.len() {
        let operation = &patch[number];
        if let Err(fault) = run_one(alloc, doc, operation) {
            return Err(reported(alloc, number, operation, fault));
        }
    }
    Ok(())
}

/// Applies the operations as [`patch`] does, and returns the patch that undoes them: applied to the
/// document that is left, it passes back through every state of the run to the first document. It
/// holds `add`, `remove` and `replace` alone, at most two for each operation, and no `-` that
/// stands for an index. What the run took out of the document is moved into it, but for
/// the value of a `move`, which stays in the document and is copied.
///
/// ```rust
/// let undo = apply_patches(alloc, document, changes.as_slice())?;
/// let told = format!(in alloc; "{undo}")?;
/// // [{"op":"replace","path":"/a","value":{"c":2}},{"op":"add","path":"/a/b","value":1}]
/// patch(alloc, document, undo.as_slice())?;
/// ```
pub fn apply_patches(
    alloc: Global,
    doc: &mut Value,
    patches: &[PatchOperation],
) -> Result<Patch, PatchFault>
    requires document { IsDocument (view doc.old) }
    requires whole { AreWhole (operations patches.now) }
    ensures accepted { OnOk result (Accepts (view doc.old) (operations patches.now) (view doc.new)) }
    ensures inverse { IfOk result
        (λ undo. IsInverse (view doc.old) (operations patches.now) (operations_of undo)) }
    ensures leads_back { IfOk result
        (λ undo. IsAccepted (view doc.new) (operations_of undo) (view doc.old)) }
    ensures plain { IfOk result (λ undo. ArePlain (view doc.new) (operations_of undo)) }
    ensures short { IfOk result
        (λ undo. length (operations_of undo) ≤ 2 * length (operations patches.now)) }
    ensures undo_whole { IfOk result (λ undo. AreWhole (operations_of undo)) }
    ensures refused { IfRefused result (NamesFirst (view doc.old) (operations patches.now)) }
    ensures unchanged { OnErr result (view doc.new ≡ view doc.old) }
    ensures document { IsDocument (view doc.new) }
{
    match recorded(alloc, doc, patches, None) {
        Ok(undo) => Ok(undo),
        Err(LimitFault::Patch(fault)) => Err(fault),
        Err(LimitFault::Over(_)) => unreachable!(),
    }
}

/// Applies the operations within the limits, as [`patch_within`] does, and returns the patch that
/// undoes them, as [`apply_patches`] does. The value of a `move` counts as copied here, too, since
/// the inverse holds a copy of it; so the document and the inverse's values together grow by no more
/// than what the operations hold and `limits.copied`.
///
/// ```rust
/// let limits = Limits {
///     depth: 3,
///     copied: 1_000,
/// };
/// let undo = apply_patches_within(alloc, document, changes.as_slice(), limits)?;
/// patch(alloc, document, undo.as_slice())?;
/// ```
#[tactic(auto, using(json_patch_laws::proofs::LimitedRuns::answered_over, json_patch_laws::proofs::LimitedRuns::answered_never, json_patch_laws::proofs::LimitedRuns::answered_depth))]
pub fn apply_patches_within(
    alloc: Global,
    doc: &mut Value,
    patches: &[PatchOperation],
    limits: Limits,
) -> Result<Patch, LimitFault>
    requires document { IsDocument (view doc.old) }
    requires whole { AreWhole (operations patches.now) }
    ensures accepted { OnOk result (Accepts (view doc.old) (operations patches.now) (view doc.new)) }
    ensures inverse { IfOk result
        (λ undo. IsInverse (view doc.old) (operations patches.now) (operations_of undo)) }
    ensures leads_back { IfOk result
        (λ undo. IsAccepted (view doc.new) (operations_of undo) (view doc.old)) }
    ensures plain { IfOk result (λ undo. ArePlain (view doc.new) (operations_of undo)) }
    ensures short { IfOk result
        (λ undo. length (operations_of undo) ≤ 2 * length (operations patches.now)) }
    ensures undo_whole { IfOk result (λ undo. AreWhole (operations_of undo)) }
    ensures undo_shallow { depth (view doc.old) ≤ limits.depth
        → IfOk result (λ undo. AreShallow limits.depth (operations_of undo)) }
    ensures refused { IfRefusedUnder result (NamesFirst (view doc.old) (operations patches.now)) }
    ensures over { IfOver result
        (λ e. IsOverRecordedAt limits (view doc.old) (operations patches.now) e.operation e.kind) }
    ensures never { IfUnder result (IsNeverOverRecorded limits (view doc.old) (operations patches.now)) }
    ensures shallow { depth (view doc.old) ≤ limits.depth → depth (view doc.new) ≤ limits.depth }
    ensures small { IfOk result (λ undo. size (view doc.new) + values_size (operations_of undo)
        ≤ size (view doc.old) + (own_sizes (operations patches.now) + limits.copied)) }
    ensures unchanged { OnErr result (view doc.new ≡ view doc.old) }
    ensures document { IsDocument (view doc.new) }
{
    match recorded(alloc, doc, patches, Some(limits)) {
        Ok(undo) => Ok(undo),
        Err(fault) => Err(fault),
    }
}

/// Makes the operations, or none of them, and returns the patch that undoes them.
#[tactic(auto, using(json_patch_laws::proofs::Runs::accepts_document))]
fn recorded(
    alloc: Global,
    doc: &mut Value,
    patches: &[PatchOperation],
    limits: Option<Limits>,
) -> Result<Patch, LimitFault>
    requires document { IsDocument (view doc.old) }
    requires whole { AreWhole (operations patches.now) }
    ensures accepted { OnOk result (Accepts (view doc.old) (operations patches.now) (view doc.new)) }
    ensures records { IfOk result
        (λ undo. Records (view doc.old) (view doc.new) (operations patches.now) (operations_of undo)) }
    ensures refused { IfRefusedUnder result (NamesFirst (view doc.old) (operations patches.now)) }
    ensures over { IfOver result (λ e. over_under true limits (view doc.old) (operations patches.now)
        ≡ Some (over_at e.operation e.kind)) }
    ensures never { IfUnder result (over_under true limits (view doc.old) (operations patches.now) ≡ None) }
    ensures unchanged { OnErr result (view doc.new ≡ view doc.old) }
    ensures document { IsDocument (view doc.new) }
{
    match run(alloc, doc, patches, Keep::Inverse, limits) {
        Ok(undo) => Ok(Patch(undo)),
        Err(fault) => Err(fault),
    }
}

/// Makes the operations within the limits, if there are any, or none of them, and returns the
/// inverse, where that is kept.
fn run(
    alloc: Global,
    doc: &mut Value,
    patch: &[PatchOperation],
    keep: Keep,
    mut limits: Option<Limits>,
) -> Result<Vec<PatchOperation>, LimitFault>
    requires document { IsDocument (view doc.old) }
    requires whole { AreWhole (operations patch.now) }
    requires kept { keep ≡ Neither → ⊥ }
    ensures accepted { OnOk result (Accepts (view doc.old) (operations patch.now) (view doc.new)) }
    ensures inverse { IfOk result (λ undo. keep ≡ Inverse
        → operations undo.items ≡ inverse (view doc.old) (operations patch.now)) }
    ensures refused { IfRefusedUnder result (NamesFirst (view doc.old) (operations patch.now)) }
    ensures unchanged { OnErr result (view doc.new ≡ view doc.old) }
    ensures over { IfOver result (λ e. over_under (is_recorded keep) limits (view doc.old)
        (operations patch.now) ≡ Some (over_at e.operation e.kind)) }
    ensures never { IfUnder result
        (over_under (is_recorded keep) limits (view doc.old) (operations patch.now) ≡ None) }
    ensures no_memory { keep ≡ Undo → limits ≡ None → AreTestsThenRemove (operations patch.now)
        → (e : Data) → Accepts (view doc.old) (operations patch.now) e → IsOk result }
{
    let undo = undo_room(alloc, keep, patch.len())?;
    let mut log = Log::new(alloc);
    for number in 0..patch.len() {
        let operation = &patch[number];
        limits = match charge(limits, keep.is_recorded(), doc, operation) {
            Ok(left) => left,
            Err(kind) => {
                undo_all(doc, log);
                return Err(LimitFault::Over(LimitError {
                    operation: number,
                    kind,
                }));
            }
        };
        let kept = keep.at(number + 1 == patch.len(), log.changes.is_empty());
        if let Err(fault) = log.step(doc, operation, kept) {
            undo_all(doc, log);
            return Err(LimitFault::Patch(reported(alloc, number, operation, fault)));
        }
    }
    let Log { mut names, changes } = log;
    clear_marks(&mut names, &changes, patch, doc);
    Ok(inverse_of(keep, changes, undo))
}

/// Makes the operation, or does nothing.
fn run_one(alloc: Global, doc: &mut Value, operation: &PatchOperation) -> Result<(), StepFault>
    requires document { IsDocument (view doc.old) }
    requires whole { IsWholeOp (operation_of operation.now) }
    ensures comes { ComesTo result (after_step (view doc.old) (operation_of operation.now)) (view doc.new) }
    ensures unchanged { OnErr result (view doc.new ≡ view doc.old) }
    ensures no_memory { IsFree (operation_of operation.now) Neither → NeverShort result }
{
    let mut log = Log::new(alloc);
    if let Err(fault) = log.step(doc, operation, Keep::Neither) {
        return Err(fault);
    }
    let Log { mut names, changes } = log;
    clear_marks(&mut names, &changes, slice::from_ref(operation), doc);
    Ok(())
}

/// The fault of a run in which the operation of this number was the first that wasn't made.
fn reported(
    alloc: Global,
    number: usize,
    operation: &PatchOperation,
    fault: StepFault,
) -> PatchFault
    ensures { Reports fault number (path_of (operation_of operation.now)) result }
{
    let StepFault::Refused(kind) = fault else {
        return PatchFault::Memory(AllocError);
    };
    match operation.path().to_buf(alloc) {
        Ok(path) => PatchFault::Refused(PatchError {
            operation: number,
            path,
            kind,
        }),
        Err(error) => PatchFault::Memory(error),
    }
}
