//! Operations that are made on a document with marks, and what a run keeps of them.

ghost use Rattle.std.specs.Prelude.{◌≡◌, ◌≤◌, [], IfErr, IfOk, OnErr, OnOk, Some};
ghost use Rattle.serde_json.specs.Data.{Data};
ghost use Rattle.serde_json.specs.View.{view};
ghost use Rattle.jsonptr.specs.Pointers.{tokens_of};
ghost use Rattle.json_patch_edit.specs.Attempt.{ComesTo, Excuses, FailsAs};
ghost use Rattle.json_patch_document.specs.ChangeComputed.{pointee};
ghost use Rattle.json_patch_document.specs.Document.{IsDocument};
ghost use Rattle.json_patch_edit.specs.Exchange.{AreFitting, IsUnmarkedFor, made_where, room};
ghost use Rattle.json_patch_edit.specs.NoMemory.{AreUnescaped, NeverShort};
ghost use Rattle.json_patch_edit.specs.InverseComputed.{block, undo_add};
ghost use Rattle.json_patch.specs.Logged.{IsEnd, IsFor, IsFree, IsKept, IsMade, IsTakenFrom, IsTest, Keeps, LogsAs, is_recorded, kept_at};
ghost use Rattle.json_patch.specs.Logged.{lasting, place_undone};
ghost use Rattle.json_patch_edit.specs.Marked.{IsMarked, IsValue, seen};
ghost use Rattle.json_patch_operation.specs.Operation.{IsWholeOp, move as move_at, operation_of, path_of};
ghost use Rattle.json_patch_operation.specs.Operation.{remove as remove_at, test as test_at};
ghost use Rattle.json_patch_edit.specs.RunComputed.{after_copy, after_step};
ghost use Rattle.json_patch_edit.specs.SeenEdits.{operation_at};
ghost use Rattle.json_patch_edit.specs.declared.edits.Edit.TheVariants.{Take, Undo};
ghost use Rattle.json_patch_edit.specs.declared.edits.Found.TheVariants.{Taken};
ghost use Rattle.json_patch.specs.declared.log.Change.{Change};
ghost use Rattle.json_patch.specs.declared.log.Keep.TheVariants.{Neither};

use json_patch_edit::edits::{Edit, Found, Names, make};
use json_patch_edit::equality::shows;
use json_patch_edit::error::StepFault;
use json_patch_edit::marks::mark;
use json_patch_edit::seen::{copy_seen, count_shown, find_shown};
use json_patch_operation::{PatchErrorKind, PatchOperation, is_inside};
use jsonptr::{Pointer, PointerBuf};
use serde_json::Value;
use std::alloc::{AllocError, Global};
use std::mem;

/// What a run keeps of its changes.
#[derive(Clone, Copy)]
pub(crate) enum Keep {
    /// What undoes them, and what the inverse says.
    Inverse,
    /// What undoes them.
    Undo,
    /// Neither: of the last one, after which nothing can fail.
    Neither,
}

impl Keep {
    /// What is kept of an operation: of the last one of a list, where the log is empty, nothing but
    /// what the inverse says. Else marks may be left, and shifts of elements must be known.
    pub(crate) fn at(self, last: bool, empty: bool) -> Keep
        ensures { result ≡ kept_at self last empty }
    {
        match self {
            Keep::Undo if last && empty => Keep::Neither,
            keep => keep,
        }
    }

    /// Whether the run is recorded.
    pub(crate) fn is_recorded(self) -> bool
        ensures { result ≡ is_recorded self }
    {
        matches!(self, Keep::Inverse)
    }
}

/// What a run keeps until its end.
#[derive(Drop)]
pub(crate) struct Log<'a> {
    pub(crate) names: Names,
    pub(crate) changes: Vec<Change<'a>>,
}

/// A change of the document, as the edit that made it found it.
#[derive(Drop)]
pub(crate) struct Change<'a> {
    /// Where it was made.
    pub(crate) path: Pointer<'a>,
    /// Where the value that it put in was taken from, of a `move`.
    pub(crate) from: Option<Pointer<'a>>,
    pub(crate) found: Found,
    /// What was found, or a mark.
    pub(crate) value: Value,
    pub(crate) kept: Option<Kept>,
}

/// An edit at a path, and what is kept of it.
#[derive(Clone, Copy)]
struct Step<'a> {
    path: Pointer<'a>,
    edit: Edit,
    keep: Keep,
}

/// What the inverse says of a change, beside what that found.
#[derive(Drop)]
pub(crate) struct Kept {
    /// Where it is undone.
    pub(crate) place: PointerBuf,
    /// What is put back, and where, of a `move`.
    pub(crate) back: Option<(PointerBuf, Value)>,
}

impl<'a> Log<'a> {
    pub(crate) fn new(alloc: Global) -> Log<'a>
        ensures { result.changes.items ≡ [] }
    {
        Log {
            names: Names::new(alloc),
            changes: Vec::new(alloc),
        }
    }

    /// Makes the operation, and logs what undoes it, or does neither.
    #[tactic(auto, using(json_patch_edit::proofs::Locations::found_document))]
    pub(crate) fn step(
        &mut self,
        doc: &mut Value,
        operation: &'a PatchOperation,
        keep: Keep,
    ) -> Result<(), StepFault>
        requires marked { IsValue (view doc.old) }
        requires document { IsDocument (seen (view doc.old)) }
        requires alone { keep ≡ Neither → IsDocument (view doc.old) }
        requires whole { IsWholeOp (operation_of operation.now) }
        ensures comes { ComesTo result (after_step (seen (view doc.old)) (operation_of operation.now))
            (seen (view doc.new)) }
        ensures marked { IsValue (view doc.new) }
        ensures unchanged { OnErr result (view doc.new ≡ view doc.old) }
        ensures logs { LogsAs result keep self.old self.new (view doc.old) (view doc.new) }
        ensures keeps { IfOk result (λ _. Keeps keep self.old self.new
            (block (seen (view doc.old)) (operation_of operation.now))) }
        ensures rests { IsTest (operation_of operation.now)
            → self.new.changes.items ≡ self.old.changes.items }
        ensures no_memory { IsFree (operation_of operation.now) keep → NeverShort result }
    {
        let (path, edit, value) = match operation {
            PatchOperation::Add(made) => {
                (made.path.as_pointer(), Edit::Insert, made.value.clone()?)
            }
            PatchOperation::Remove(made) => (made.path.as_pointer(), Edit::Take, mark()),
            PatchOperation::Replace(made) => {
                (made.path.as_pointer(), Edit::Swap, made.value.clone()?)
            }
            PatchOperation::Move(made) => {
                return self.relocate(doc, made.path.as_pointer(), made.from.as_pointer(), keep);
            }
            PatchOperation::Copy(made) => {
                let value = copy_at(doc, made.from.as_pointer())?;
                (made.path.as_pointer(), Edit::Insert, value)
            }
            PatchOperation::Test(made) => return test(doc, made.path.as_pointer(), &made.value),
        };
        self.change(doc, Step { path, edit, keep }, value)
    }

    /// Makes the edit, and logs what undoes it, or does neither.
    fn change(&mut self, doc: &mut Value, step: Step<'a>, mut value: Value) -> Result<(), StepFault>
        requires marked { IsValue (view doc.old) }
        requires value { IsFor step.edit (view value) }
        requires alone { step.keep ≡ Neither → IsDocument (view doc.old) }
        ensures comes { ComesTo result
            (after_step (seen (view doc.old)) (operation_at step.entry.edit (tokens_of step.entry.path) (view value)))
            (seen (view doc.new)) }
        ensures marked { IsValue (view doc.new) }
        ensures unchanged { OnErr result (view doc.new ≡ view doc.old) }
        ensures logs { LogsAs result step.entry.keep self.old self.new (view doc.old) (view doc.new) }
        ensures keeps { IfOk result (λ _. Keeps step.entry.keep self.old self.new
            (block (seen (view doc.old)) (operation_at step.entry.edit (tokens_of step.entry.path) (view value)))) }
        ensures no_memory { step.entry.edit ≡ Take
            → IsFree (remove_at (tokens_of step.entry.path)) step.entry.keep → NeverShort result }
    {
        if let Keep::Neither = step.keep {
            return self.change_for_good(doc, step.path, step.edit, value);
        }
        self.log_edit(doc, step, None, &mut value)
    }

    /// Makes the edit, which nothing is to undo, or does nothing.
    fn change_for_good(
        &mut self,
        doc: &mut Value,
        path: Pointer<'_>,
        edit: Edit,
        mut value: Value,
    ) -> Result<(), StepFault>
        requires marked { IsValue (view doc.old) }
        requires value { IsFor edit (view value) }
        requires document { IsDocument (view doc.old) }
        ensures comes { ComesTo result
            (after_step (seen (view doc.old)) (operation_at edit (tokens_of path.entry) (view value)))
            (seen (view doc.new)) }
        ensures marked { IsValue (view doc.new) }
        ensures unchanged { OnErr result (view doc.new ≡ view doc.old) }
        ensures logs { LogsAs result Neither self.old self.new (view doc.old) (view doc.new) }
        ensures no_memory { edit ≡ Take → AreUnescaped (tokens_of path.entry) → NeverShort result }
    {
        match make(&mut self.names, doc, path, lasting(edit), &mut value) {
            Ok(_found) => Ok(()),
            Err(fault) => Err(fault),
        }
    }

    /// Makes a `move` (section 4.4), and logs what undoes it, or does neither.
    fn relocate(
        &mut self,
        doc: &mut Value,
        path: Pointer<'a>,
        from: Pointer<'a>,
        keep: Keep,
    ) -> Result<(), StepFault>
        requires marked { IsValue (view doc.old) }
        ensures comes { ComesTo result
            (after_step (seen (view doc.old)) (move_at (tokens_of from.entry) (tokens_of path.entry)))
            (seen (view doc.new)) }
        ensures marked { IsValue (view doc.new) }
        ensures unchanged { OnErr result (view doc.new ≡ view doc.old) }
        ensures logs { LogsAs result keep self.old self.new (view doc.old) (view doc.new) }
        ensures keeps { IfOk result (λ _. Keeps keep self.old self.new
            (block (seen (view doc.old)) (move_at (tokens_of from.entry) (tokens_of path.entry)))) }
    {
        let mut value = take_source(&mut self.names, doc, from, path)?;
        let edit = Edit::Insert;
        if let Err(fault) = self.log_edit(doc, Step { path, edit, keep }, Some(from), &mut value) {
            put_back(&mut self.names, doc, from, value);
            return Err(fault);
        }
        Ok(())
    }

    /// Makes the edit, with a value that was taken from `from`, if that is given, and logs it, or
    /// does neither. Then the caller has its value again.
    fn log_edit(
        &mut self,
        doc: &mut Value,
        step: Step<'a>,
        from: Option<Pointer<'a>>,
        value: &mut Value,
    ) -> Result<(), StepFault>
        requires marked { IsValue (view doc.old) }
        requires unmarked { IsUnmarkedFor step.edit (view doc.old) }
        ensures logged { OnOk result ((c : Change) × IsEnd step.entry.path from.entry self.old self.new c
            × IsMade step.entry.edit step.entry.keep c (view doc.old) (view value.old) (view doc.new)) }
        ensures refused { IfErr result (λ fault. Excuses fault
            (made_where step.entry.edit (view value.old) (view doc.old) (tokens_of step.entry.path))) }
        ensures unchanged { OnErr result ((view doc.new ≡ view doc.old) × (view value.new ≡ view value.old)
            × (self.new.changes.items ≡ self.old.changes.items)) }
        ensures grows { room self.old.names ≤ room self.new.names }
    {
        let kept = kept_of(self.names.alloc, doc, step, from, value)?;
        self.names.make_room(step.path)?;
        self.changes.reserve(1)?;
        let found = make(&mut self.names, doc, step.path, step.edit, value)?;
        self.changes.push_reserved(Change {
            path: step.path,
            from,
            found,
            value: mem::take(value),
            kept,
        });
        Ok(())
    }
}

/// The edit that leaves no mark, for a document that has none.
fn lasting(edit: Edit) -> Edit
    ensures { result ≡ lasting edit }
{
    match edit {
        Edit::Take => Edit::Remove,
        _ => edit,
    }
}

/// Takes the value of a `move` to `path`, and leaves a mark in its place.
fn take_source(
    names: &mut Names,
    doc: &mut Value,
    from: Pointer<'_>,
    path: Pointer<'_>,
) -> Result<Value, StepFault>
    requires { IsValue (view doc.old) }
    ensures taken { IfOk result (λ value. IsTakenFrom (view doc.old) (view doc.new)
        (tokens_of from.entry) (tokens_of path.entry) (view value)) }
    ensures refused { IfErr result (λ fault. FailsAs fault
        (after_step (seen (view doc.old)) (move_at (tokens_of from.entry) (tokens_of path.entry)))) }
    ensures unchanged { OnErr result (view doc.new ≡ view doc.old) }
    ensures fits { OnOk result (AreFitting (room names.new) (tokens_of from.entry)) }
    ensures grows { room names.old ≤ room names.new }
{
    if is_inside(path, from) {
        return Err(StepFault::Refused(PatchErrorKind::CannotMoveInsideItself));
    }
    names.make_room(from)?;
    let mut value = mark();
    match make(names, doc, from, Edit::Take, &mut value) {
        Ok(_) => Ok(value),
        Err(StepFault::Refused(_)) => {
            Err(StepFault::Refused(PatchErrorKind::InvalidFromPointer))
        }
        Err(fault) => Err(fault),
    }
}

/// Puts the value back where it was taken from, without memory.
pub(crate) fn put_back(names: &mut Names, doc: &mut Value, from: Pointer<'_>, mut value: Value)
    requires marked { IsMarked (view doc.old) }
    requires fits { AreFitting (room names.old) (tokens_of from) }
    requires back { (p : Data) × (made_where (Undo Taken) (view value) (view doc.old) (tokens_of from) ≡ Some p) }
    ensures back { (p : Data) → made_where (Undo Taken) (view value) (view doc.old) (tokens_of from.entry) ≡ Some p
        → view doc.new ≡ p }
    ensures grows { room names.old ≤ room names.new }
{
    if make(names, doc, from, Edit::Undo(Found::Taken), &mut value).is_err() {
        unreachable!();
    }
}

/// What the inverse says of an edit of the document, if it is kept.
fn kept_of(
    alloc: Global,
    doc: &Value,
    step: Step<'_>,
    from: Option<Pointer<'_>>,
    value: &Value,
) -> Result<Option<Kept>, AllocError>
    requires { IsValue (view doc.now) }
    ensures { IfOk result (λ kept. IsKept step.entry.keep
        (place_undone step.entry.edit (seen (view doc.now)) (tokens_of step.entry.path))
        from.entry (view value.now) kept) }
{
    let Keep::Inverse = step.keep else {
        return Ok(None);
    };
    let place = match step.edit {
        Edit::Insert => undo_place(alloc, doc, step.path)?,
        _ => step.path.to_buf(alloc)?,
    };
    let back = match from {
        Some(from) => Some((from.to_buf(alloc)?, copy_seen(value)?)),
        None => None,
    };
    Ok(Some(Kept { place, back }))
}

/// Where what is added to the document at `path` is taken back: there, but with the index in place of
/// a `-` that stands for one.
fn undo_place(alloc: Global, doc: &Value, path: Pointer<'_>) -> Result<PointerBuf, AllocError>
    requires { IsValue (view doc.now) }
    ensures { IfOk result
        (λ place. place ≡ path_of (undo_add (seen (view doc.now)) (tokens_of path.entry))) }
{
    let place = path.to_buf(alloc)?;
    let Some((parent, last)) = path.split_back() else {
        return Ok(place);
    };
    if !last.is_key("-") {
        return Ok(place);
    }
    let Some(count) = count_shown(doc, parent.tokens()) else {
        return Ok(place);
    };
    let number = count.to_string(alloc)?;
    place.with_last(alloc, number.as_str())
}

/// A copy of what is seen where the pointer leads, for a `copy` (section 4.5).
fn copy_at(doc: &Value, from: Pointer<'_>) -> Result<Value, StepFault>
    requires { IsValue (view doc.now) }
    ensures found { IfOk result (λ copy. pointee (seen (view doc.now)) (tokens_of from.entry) ≡ Some (view copy)) }
    ensures refused { IfErr result (λ fault. FailsAs fault (after_copy (seen (view doc.now)) [] (pointee (seen (view doc.now)) (tokens_of from.entry)))) }
{
    let value = find_shown(doc, from.tokens()).ok_or(PatchErrorKind::InvalidFromPointer)?;
    Ok(copy_seen(value)?)
}

/// `test` (section 4.6).
fn test(doc: &Value, path: Pointer<'_>, value: &Value) -> Result<(), StepFault>
    requires { IsValue (view doc.now) }
    ensures comes { ComesTo result (after_step (seen (view doc.now)) (test_at (tokens_of path.entry) (view value.now)))
        (seen (view doc.now)) }
    ensures no_memory { NeverShort result }
{
    match find_shown(doc, path.tokens()) {
        Some(place) if shows(place, value) => Ok(()),
        Some(_) => Err(StepFault::Refused(PatchErrorKind::TestFailed)),
        None => Err(StepFault::Refused(PatchErrorKind::InvalidPointer)),
    }
}
