//! Reading patches and operations from JSON values (RFC 6902, sections 3 and 4).

ghost use Rattle.std.specs.Prelude.{◌≡◌, ◌∷◌, [], codes, IfOk, List, None, ℕ};
ghost use Rattle.serde_json.specs.Data.{string};
ghost use Rattle.serde_json.specs.Find.{get};
ghost use Rattle.serde_json.specs.View.{view};
ghost use Rattle.json_patch_operation.specs.Operation.{AreWhole, add, add_of, copy_of, move, move_of, operation_of, operations};
ghost use Rattle.json_patch_operation.specs.Operation.{operations_of, remove_of, replace_of, test_of};
ghost use Rattle.json_patch_operation.specs.PatchValue.{IfUnreadAlone, IfUnreadable, from_and_path, path_and_value, ReadsFields};
ghost use Rattle.json_patch_operation.specs.PatchValue.{ReadsOperation, ReadsPatch, RefusesFields, RefusesOperation};
ghost use Rattle.json_patch_operation.specs.PatchValue.{RefusesPatch};
ghost use Rattle.json_patch_operation.specs.ReadSteps.{HasAnyFrom, IsPointerAt};
ghost use Rattle.json_patch_operation.specs.declared.read_error.ReadFault.TheVariants.{Refused};

use crate::operation::{
    AddOperation, CopyOperation, MoveOperation, Patch, PatchOperation, RemoveOperation,
    ReplaceOperation, TestOperation,
};
use crate::read_error::{ReadError, ReadFault, ReadKind};
use json_patch_document::is_whole;
use jsonptr::{Pointer, PointerBuf};
use serde_json::Value;
use std::alloc::{AllocError, Global};

impl From<ReadKind> for ReadFault {
    ghost from_gives = { λ kind fault. fault ≡ Refused (record { operation = None; kind = kind }) };

    fn from(kind: ReadKind) -> ReadFault {
        ReadFault::Refused(ReadError {
            operation: None,
            kind,
        })
    }
}

/// The member `path`, which is looked for after `from`, where there is to be one.
#[tactic(auto, using(crate::proofs::PatchFaults::past_from))]
fn read_path(alloc: Global, value: &Value) -> Result<PointerBuf, ReadFault>
    ensures read { IfOk result (IsPointerAt (view value.now) (codes "path")) }
    ensures refused { (names : List (List ℕ)) → HasAnyFrom names (view value.now)
        → IfUnreadAlone result (RefusesFields names (view value.now)) }
    ensures alone { IfUnreadAlone result (RefusesFields (codes "path" ∷ []) (view value.now)) }
{
    value.as_object().ok_or(ReadKind::NotAnObject)?;
    let member = value.get("path").ok_or(ReadKind::MissingPath)?;
    let text = member.as_str().ok_or(ReadKind::PathNotText)?;
    let pointer = Pointer::parse(text).map_err(ReadKind::BadPath)?;
    Ok(pointer.to_buf(alloc)?)
}

/// The members `path` and `value`, in this order.
#[tactic(auto, using(crate::proofs::PatchFaults::past_path))]
fn read_path_and_value(alloc: Global, value: &Value) -> Result<(PointerBuf, Value), ReadFault>
    ensures read { IfOk result (λ r. ReadsFields (view value.now) (add r.0 (view r.1))) }
    ensures refused { IfUnreadAlone result (RefusesFields path_and_value (view value.now)) }
{
    let path = read_path(alloc, value)?;
    let member = value.get("value").ok_or(ReadKind::MissingValue)?;
    if !is_whole(member) {
        return Err(ReadFault::from(ReadKind::ValueNotWhole));
    }
    Ok((path, member.clone()?))
}

/// The members `from` and `path`, in this order.
fn read_from_and_path(alloc: Global, value: &Value) -> Result<(PointerBuf, PointerBuf), ReadFault>
    ensures read { IfOk result (λ r. ReadsFields (view value.now) (move r.0 r.1)) }
    ensures refused { IfUnreadAlone result (RefusesFields from_and_path (view value.now)) }
{
    value.as_object().ok_or(ReadKind::NotAnObject)?;
    let member = value.get("from").ok_or(ReadKind::MissingFrom)?;
    let text = member.as_str().ok_or(ReadKind::FromNotText)?;
    let from = Pointer::parse(text).map_err(ReadKind::BadFrom)?;
    let path = read_path(alloc, value)?;
    Ok((from.to_buf(alloc)?, path))
}

impl AddOperation {
    /// Reads the members `path` and `value` of an object; others, `op` too, are ignored. Answers
    /// the first fault in the order of [`ReadKind`], or `Memory` where a growth was refused.
    pub fn from_value(alloc: Global, value: &Value) -> Result<AddOperation, ReadFault>
        ensures read { IfOk result (λ o. ReadsFields (view value.now) (add_of o)) }
        ensures refused { IfUnreadAlone result (RefusesFields path_and_value (view value.now)) }
    {
        let (path, value) = read_path_and_value(alloc, value)?;
        Ok(AddOperation { path, value })
    }
}

impl RemoveOperation {
    /// Reads the member `path` of an object; others, `op` too, are ignored. Answers the first
    /// fault in the order of [`ReadKind`], or `Memory` where a growth was refused.
    pub fn from_value(alloc: Global, value: &Value) -> Result<RemoveOperation, ReadFault>
        ensures read { IfOk result (λ o. ReadsFields (view value.now) (remove_of o)) }
        ensures refused { IfUnreadAlone result (RefusesFields (codes "path" ∷ []) (view value.now)) }
    {
        let path = read_path(alloc, value)?;
        Ok(RemoveOperation { path })
    }
}

impl ReplaceOperation {
    /// Reads the members `path` and `value` of an object; others, `op` too, are ignored. Answers
    /// the first fault in the order of [`ReadKind`], or `Memory` where a growth was refused.
    pub fn from_value(alloc: Global, value: &Value) -> Result<ReplaceOperation, ReadFault>
        ensures read { IfOk result (λ o. ReadsFields (view value.now) (replace_of o)) }
        ensures refused { IfUnreadAlone result (RefusesFields path_and_value (view value.now)) }
    {
        let (path, value) = read_path_and_value(alloc, value)?;
        Ok(ReplaceOperation { path, value })
    }
}

impl MoveOperation {
    /// Reads the members `from` and `path` of an object; others, `op` too, are ignored. Answers
    /// the first fault in the order of [`ReadKind`], or `Memory` where a growth was refused.
    pub fn from_value(alloc: Global, value: &Value) -> Result<MoveOperation, ReadFault>
        ensures read { IfOk result (λ o. ReadsFields (view value.now) (move_of o)) }
        ensures refused { IfUnreadAlone result (RefusesFields from_and_path (view value.now)) }
    {
        let (from, path) = read_from_and_path(alloc, value)?;
        Ok(MoveOperation { from, path })
    }
}

impl CopyOperation {
    /// Reads the members `from` and `path` of an object; others, `op` too, are ignored. Answers
    /// the first fault in the order of [`ReadKind`], or `Memory` where a growth was refused.
    pub fn from_value(alloc: Global, value: &Value) -> Result<CopyOperation, ReadFault>
        ensures read { IfOk result (λ o. ReadsFields (view value.now) (copy_of o)) }
        ensures refused { IfUnreadAlone result (RefusesFields from_and_path (view value.now)) }
    {
        let (from, path) = read_from_and_path(alloc, value)?;
        Ok(CopyOperation { from, path })
    }
}

impl TestOperation {
    /// Reads the members `path` and `value` of an object; others, `op` too, are ignored. Answers
    /// the first fault in the order of [`ReadKind`], or `Memory` where a growth was refused.
    pub fn from_value(alloc: Global, value: &Value) -> Result<TestOperation, ReadFault>
        ensures read { IfOk result (λ o. ReadsFields (view value.now) (test_of o)) }
        ensures refused { IfUnreadAlone result (RefusesFields path_and_value (view value.now)) }
    {
        let (path, value) = read_path_and_value(alloc, value)?;
        Ok(TestOperation { path, value })
    }
}

impl PatchOperation {
    /// Reads an object whose member `op` says which other members it has (RFC 6902, section 4);
    /// members that the operation doesn't have are ignored. Answers the first fault in the order
    /// of [`ReadKind`], or `Memory` where a growth was refused.
    pub fn from_value(alloc: Global, value: &Value) -> Result<PatchOperation, ReadFault>
        ensures read { IfOk result (λ o. ReadsOperation (view value.now) (operation_of o)) }
        ensures refused { IfUnreadAlone result (RefusesOperation (view value.now)) }
    {
        match read_name(value)? {
            "add" => Ok(PatchOperation::Add(AddOperation::from_value(alloc, value)?)),
            "remove" => Ok(PatchOperation::Remove(RemoveOperation::from_value(alloc, value)?)),
            "replace" => Ok(PatchOperation::Replace(ReplaceOperation::from_value(alloc, value)?)),
            "move" => Ok(PatchOperation::Move(MoveOperation::from_value(alloc, value)?)),
            "copy" => Ok(PatchOperation::Copy(CopyOperation::from_value(alloc, value)?)),
            "test" => Ok(PatchOperation::Test(TestOperation::from_value(alloc, value)?)),
            _ => Err(ReadFault::from(ReadKind::UnknownOp)),
        }
    }
}

/// The member `op`.
fn read_name(value: &Value) -> Result<&str, ReadFault>
    ensures read { IfOk result (λ n. get (codes "op") (view value.now) ≡ Some (string n.now)) }
    ensures refused { IfUnreadAlone result (RefusesOperation (view value.now)) }
{
    value.as_object().ok_or(ReadKind::NotAnObject)?;
    let member = value.get("op").ok_or(ReadKind::MissingOp)?;
    Ok(member.as_str().ok_or(ReadKind::OpNotText)?)
}

impl Patch {
    /// Reads an array of operations (RFC 6902, section 3). Returns the first fault of the first
    /// element that isn't an operation, or `Memory` where a growth was refused.
    ///
    /// ```rust
    /// let read = Patch::from_value(alloc, &changes.to_value(alloc)?)?;
    /// Ok(read == changes)
    /// ```
    pub fn from_value(alloc: Global, value: &Value) -> Result<Patch, ReadFault>
        ensures read { IfOk result (λ p. ReadsPatch (view value.now) (operations_of p)) }
        ensures whole { IfOk result (λ p. AreWhole (operations_of p)) }
        ensures refused { IfUnreadable result (λ e.
            RefusesPatch (view value.now) e.operation e.kind) }
    {
        let items = value.as_array().ok_or(ReadKind::NotAList)?;
        let mut operations = Vec::new(alloc);
        for (number, item) in items.iter().enumerate() {
            match PatchOperation::from_value(alloc, item) {
                Ok(operation) => operations.push(operation).map_err(AllocError::from)?,
                Err(ReadFault::Refused(ReadError { kind, .. })) => {
                    let operation = Some(number);
                    return Err(ReadFault::Refused(ReadError { operation, kind }));
                }
                Err(fault) => return Err(fault),
            }
        }
        Ok(Patch(operations))
    }
}
