//! Writing patches and operations as JSON values (RFC 6902, sections 3 and 4).

#![tactic(auto, using(json_patch_document::proofs::Writes::members_view_inserted, serde_json::specs::declared::value::Value::the_lemmas))]

ghost use Rattle.std.specs.Prelude.{◌≡◌, IfOk, OnOk, option_map};
ghost use Rattle.serde_json.specs.Data.{put, string};
ghost use Rattle.serde_json.specs.View.{members_view, view};
ghost use Rattle.json_patch_operation.specs.PartsView.{parts_view};
ghost use Rattle.json_patch_operation.specs.Operation.{add_of, copy_of, move_of, operation_of, operations_of, remove_of};
ghost use Rattle.json_patch_operation.specs.Operation.{replace_of, test_of};
ghost use Rattle.json_patch_operation.specs.PatchValue.{written_fields, written_parts, written_patch, written_value};

use crate::operation::{
    AddOperation, CopyOperation, MoveOperation, Parts, Patch, PatchOperation, RemoveOperation,
    ReplaceOperation, TestOperation,
};
use serde_json::{Map, Value};
use std::alloc::{AllocError, Global};

impl AddOperation {
    /// The object of the members `path` and `value`.
    pub fn to_value(&self, alloc: Global) -> Result<Value, AllocError>
        ensures { IfOk result (λ v. view v ≡ written_fields (add_of self.now)) }
    {
        to_object(alloc, None, self.parts())
    }
}

impl RemoveOperation {
    /// The object of the member `path`.
    pub fn to_value(&self, alloc: Global) -> Result<Value, AllocError>
        ensures { IfOk result (λ v. view v ≡ written_fields (remove_of self.now)) }
    {
        to_object(alloc, None, self.parts())
    }
}

impl ReplaceOperation {
    /// The object of the members `path` and `value`.
    pub fn to_value(&self, alloc: Global) -> Result<Value, AllocError>
        ensures { IfOk result (λ v. view v ≡ written_fields (replace_of self.now)) }
    {
        to_object(alloc, None, self.parts())
    }
}

impl MoveOperation {
    /// The object of the members `from` and `path`.
    pub fn to_value(&self, alloc: Global) -> Result<Value, AllocError>
        ensures { IfOk result (λ v. view v ≡ written_fields (move_of self.now)) }
    {
        to_object(alloc, None, self.parts())
    }
}

impl CopyOperation {
    /// The object of the members `from` and `path`.
    pub fn to_value(&self, alloc: Global) -> Result<Value, AllocError>
        ensures { IfOk result (λ v. view v ≡ written_fields (copy_of self.now)) }
    {
        to_object(alloc, None, self.parts())
    }
}

impl TestOperation {
    /// The object of the members `path` and `value`.
    pub fn to_value(&self, alloc: Global) -> Result<Value, AllocError>
        ensures { IfOk result (λ v. view v ≡ written_fields (test_of self.now)) }
    {
        to_object(alloc, None, self.parts())
    }
}

impl PatchOperation {
    /// The object of the members that the operation has, with its name as `op`.
    pub fn to_value(&self, alloc: Global) -> Result<Value, AllocError>
        ensures { IfOk result (λ v. view v ≡ written_value (operation_of self.now)) }
    {
        let parts = self.parts();
        to_object(alloc, Some(parts.name), parts)
    }
}

impl Patch {
    /// The array of the operations' objects.
    pub fn to_value(&self, alloc: Global) -> Result<Value, AllocError>
        ensures { IfOk result (λ v. view v ≡ written_patch (operations_of self.now)) }
    {
        let mut items = Vec::with_capacity(alloc, self.0.len())?;
        for operation in &self.0 {
            items.push(operation.to_value(alloc)?)?;
        }
        Ok(Value::Array(items))
    }
}

/// The object of the members `op`, `from`, `path` and `value`, those that there are.
fn to_object(alloc: Global, name: Option<&str>, parts: Parts<'_>) -> Result<Value, AllocError>
    ensures { IfOk result (λ v.
        view v ≡ written_parts (option_map (λ s. s.now) name.entry) (parts_view parts.entry)) }
{
    let mut members = Map::new(alloc);
    if let Some(value) = parts.value {
        drop(members.insert(String::from_str(alloc, "value")?, value.clone()?)?);
    }
    put_text(alloc, &mut members, "path", parts.path.as_str())?;
    if let Some(from) = parts.from {
        put_text(alloc, &mut members, "from", from.as_str())?;
    }
    if let Some(name) = name {
        put_text(alloc, &mut members, "op", name)?;
    }
    Ok(Value::Object(members))
}

/// Puts in a member whose value is a string.
fn put_text(
    alloc: Global,
    members: &mut Map<String, Value>,
    name: &str,
    text: &str,
) -> Result<(), AllocError>
    ensures { OnOk result (members_view members.new.entries
        ≡ put name.now (string text.now) (members_view members.old.entries)) }
{
    let text = Value::String(String::from_str(alloc, text)?);
    members.insert(String::from_str(alloc, name)?, text)?;
    Ok(())
}
