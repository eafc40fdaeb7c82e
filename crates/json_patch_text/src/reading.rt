//! Reading a patch's text (RFC 6902, sections 3 and 4).

ghost use Rattle.std.specs.Prelude.{◌≡◌, [], codes, IfOk, IfSome, List, ℕ, OnOk, Some, if◌then◌else◌, option_map, unwrap_or};
ghost use Rattle.std.specs.Str.{bytes_eq};
ghost use Rattle.json.specs.Find.{get};
ghost use Rattle.json.specs.Json.{Json, string};
ghost use Rattle.serde_json.specs.View.{members_view, view};
ghost use Rattle.json_patch_operation.specs.Operation.{operation_of};
ghost use Rattle.json_patch_operation.specs.PatchValue.{IfUnreadAlone, IfUnreadable, RefusesOperation, RefusesPatch};
ghost use Rattle.json_patch_text.specs.Operations.{ReadsTreePatch, TreeOperation, pointer_tree};
ghost use Rattle.json_patch_text.specs.Outline.{AreFields, HasField, IsOutline, IsReadAs, at_number, outline, put_if, bytes_in};
ghost use Rattle.json_patch_text.specs.TextOperations.{AreWrittenAs, HaveValuesIn, IsTexted};
ghost use Rattle.json_text.specs.Listing.{IsTextOf};
ghost use Rattle.json_reading.specs.Reading.{Reading};
ghost use Rattle.json_reading.specs.Trees.{data_of};
ghost use Rattle.json_lexemes.specs.Spelled.{IsShallowText};

use crate::operation::TextOperation;
use json_patch_operation::{PatchOperation, ReadError, ReadFault, ReadKind};
use json_text::{Shape, child_texts, is_name_text, plain_string, string_of};
use jsonptr::{Pointer, PointerBuf};
use serde_json::{Map, Value};
use std::alloc::{AllocError, Global};

/// A string as itself, and any other value as null: what decides how an operation is read.
fn outlined(alloc: Global, text: &str) -> Result<Value, AllocError>
    ensures { IfOk result (λ v. (j : Json) → IsShallowText text.now j → view v ≡ outline j) }
{
    match string_of(alloc, text)? {
        Some(said) => Ok(Value::String(said)),
        None => Ok(Value::Null),
    }
}

/// The texts of the members by which an operation is read: of several of one name that of the last.
#[derive(Clone, Copy, Drop)]
struct Fields<'a> {
    pub op: Option<&'a str>,
    pub from: Option<&'a str>,
    pub path: Option<&'a str>,
    pub value: Option<&'a str>,
}

/// The value of a member, if it has this name, or else what was found before.
#[inline(always)]
fn latest<'a>(member: (&'a str, &'a str), name: &str, found: Option<&'a str>) -> Option<&'a str>
    ensures { (k : List ℕ) → IsTextOf member.entry.0.now (string k)
        → result ≡ (if bytes_eq k name.now then Some member.entry.1 else found.entry) }
{
    if is_name_text(member.0, name) {
        Some(member.1)
    } else {
        found
    }
}

/// The members by which an operation is read, of its text. Of one that is no object it has none.
fn fields_of<'a>(alloc: Global, text: &'a str) -> Result<Fields<'a>, AllocError>
    ensures { IfOk result (λ f. (j : Json) → IsShallowText text.now j → AreFields text.now j f) }
{
    let mut fields = Fields {
        op: None,
        from: None,
        path: None,
        value: None,
    };
    if !matches!(Shape::of(text), Shape::Object) {
        return Ok(fields);
    }
    let texts = child_texts(alloc, text)?;
    for member in &texts {
        fields = Fields {
            op: latest(*member, "op", fields.op),
            from: latest(*member, "from", fields.from),
            path: latest(*member, "path", fields.path),
            value: latest(*member, "value", fields.value),
        };
    }
    Ok(fields)
}

/// The string that a member's text says, if it stands there as it is.
fn plain_text(text: Option<&str>) -> Option<&str>
    ensures { IfSome result (λ said. (t k : List ℕ) (j : Json) → HasField t j k (bytes_in text.entry)
        → get k j ≡ Some (string said.now)) }
{
    plain_string(text?)
}

/// The pointer that a member's text says, if it stands there as it is.
fn plain_pointer(alloc: Global, text: Option<&str>) -> Result<Option<PointerBuf>, AllocError>
    ensures { IfOk result (λ found. IfSome found (λ pointer. (t k : List ℕ) (j : Json)
        → HasField t j k (bytes_in text.entry) → get k j ≡ Some (pointer_tree pointer))) }
{
    let Some(said) = plain_text(text) else {
        return Ok(None);
    };
    let Ok(pointer) = Pointer::parse(said) else {
        return Ok(None);
    };
    Ok(Some(pointer.to_buf(alloc)?))
}

/// The operation of this name that has a value.
fn with_value<'a>(name: &str, path: PointerBuf, value: Option<&'a str>) -> Option<TextOperation<'a>>
    ensures { IfSome result (λ o. (t : List ℕ) (j : Json) → get (codes "op") j ≡ Some (string name.now)
        → get (codes "path") j ≡ Some (pointer_tree path)
        → HasField t j (codes "value") (bytes_in value.entry) → IsReadAs t j o) }
{
    let value = value?;
    match name {
        "add" => Some(TextOperation::Add(path, value)),
        "replace" => Some(TextOperation::Replace(path, value)),
        "test" => Some(TextOperation::Test(path, value)),
        _ => None,
    }
}

/// The operation, if what it is read by stands in its text as it is: no string of it has an escape, and
/// nothing is at fault.
fn plain_operation<'a>(
    alloc: Global,
    fields: Fields<'a>,
) -> Result<Option<TextOperation<'a>>, AllocError>
    ensures { IfOk result (λ found. IfSome found (λ o. (t : List ℕ) (j : Json)
        → AreFields t j fields.entry → IsReadAs t j o)) }
{
    let Some(name) = plain_text(fields.op) else {
        return Ok(None);
    };
    let Some(path) = plain_pointer(alloc, fields.path)? else {
        return Ok(None);
    };
    match name {
        "remove" => Ok(Some(TextOperation::Remove(path))),
        "move" => {
            let Some(from) = plain_pointer(alloc, fields.from)? else {
                return Ok(None);
            };
            Ok(Some(TextOperation::Move(from, path)))
        }
        "copy" => {
            let Some(from) = plain_pointer(alloc, fields.from)? else {
                return Ok(None);
            };
            Ok(Some(TextOperation::Copy(from, path)))
        }
        _ => Ok(with_value(name, path, fields.value)),
    }
}

/// Puts in a member's outline, if there is one.
fn put_outlined(
    alloc: Global,
    members: &mut Map<String, Value>,
    name: &str,
    text: Option<&str>,
) -> Result<(), AllocError>
    ensures { OnOk result ((t : List ℕ) (j : Json) → HasField t j name.now (bytes_in text.entry)
        → members_view members.new.entries
        ≡ put_if name.now (option_map outline (get name.now j)) (members_view members.old.entries)) }
{
    if let Some(text) = text {
        members.insert(String::from_str(alloc, name)?, outlined(alloc, text)?)?;
    }
    Ok(())
}

/// The outline of an operation, of which these are the members.
fn outline_of(alloc: Global, text: &str, fields: Fields<'_>) -> Result<Value, AllocError>
    ensures { IfOk result (λ v. (j : Json) → IsShallowText text.now j → AreFields text.now j fields.entry
        → IsOutline (view v) j) }
{
    if !matches!(Shape::of(text), Shape::Object) {
        return Ok(Value::Null);
    }
    let mut members = Map::new(alloc);
    put_outlined(alloc, &mut members, "op", fields.op)?;
    put_outlined(alloc, &mut members, "from", fields.from)?;
    put_outlined(alloc, &mut members, "path", fields.path)?;
    put_outlined(alloc, &mut members, "value", fields.value)?;
    Ok(Value::Object(members))
}

/// The operation with its value as it is written.
fn texted<'a>(operation: PatchOperation, value: Option<&'a str>) -> TextOperation<'a>
    ensures { IsTexted (operation_of operation) (unwrap_or (bytes_in value.entry) []) result }
{
    let value = value.unwrap_or("");
    match operation {
        PatchOperation::Add(o) => TextOperation::Add(o.path, value),
        PatchOperation::Remove(o) => TextOperation::Remove(o.path),
        PatchOperation::Replace(o) => TextOperation::Replace(o.path, value),
        PatchOperation::Move(o) => TextOperation::Move(o.from, o.path),
        PatchOperation::Copy(o) => TextOperation::Copy(o.from, o.path),
        PatchOperation::Test(o) => TextOperation::Test(o.path, value),
    }
}

/// An operation from its text, which is to be JSON.
fn read_operation<'a>(alloc: Global, text: &'a str) -> Result<TextOperation<'a>, ReadFault>
    ensures read { IfOk result (λ o. (j : Json) → IsShallowText text.now j → IsReadAs text.now j o) }
    ensures refused { IfUnreadAlone result (λ kind. (j : Json) → IsShallowText text.now j
        → (r : Reading) → RefusesOperation (data_of r j) kind) }
{
    let fields = fields_of(alloc, text)?;
    if let Some(operation) = plain_operation(alloc, fields)? {
        return Ok(operation);
    }
    // Another is read as that of a document's patch, which also tells what is at fault.
    let outline = outline_of(alloc, text, fields)?;
    let operation = PatchOperation::from_value(alloc, &outline)?;
    Ok(texted(operation, fields.value))
}

/// A fault of the element of this number.
fn numbered(number: usize, fault: ReadFault) -> ReadFault
    ensures { result ≡ at_number number fault }
{
    match fault {
        ReadFault::Refused(error) => ReadFault::Refused(ReadError {
            operation: Some(number),
            kind: error.kind,
        }),
        ReadFault::Memory(failed) => ReadFault::Memory(failed),
    }
}

/// The operations of a patch's text, which is to be JSON.
pub(crate) fn read<'a>(alloc: Global, text: &'a str) -> Result<Vec<TextOperation<'a>>, ReadFault>
    ensures read { IfOk result (λ os. (p : Json) → IsShallowText text.now p
        → (ops : List TreeOperation) × ReadsTreePatch p ops × AreWrittenAs os.items ops
        × HaveValuesIn text.now p os.items) }
    ensures refused { (p : Json) → IsShallowText text.now p → IfUnreadable result (λ e.
        (r : Reading) → RefusesPatch (data_of r p) e.operation e.kind) }
{
    if !matches!(Shape::of(text), Shape::Array) {
        return Err(ReadFault::from(ReadKind::NotAList));
    }
    let texts = child_texts(alloc, text)?;
    let mut operations = Vec::new(alloc);
    for number in 0..texts.len() {
        match read_operation(alloc, texts[number].1) {
            Ok(operation) => operations.push(operation).map_err(AllocError::from)?,
            Err(fault) => return Err(numbered(number, fault)),
        }
    }
    Ok(operations)
}
