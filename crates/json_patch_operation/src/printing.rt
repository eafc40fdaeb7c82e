//! Patches and operations as JSON text (RFC 8259) without whitespace, and documents as text on
//! several lines.

ghost use Rattle.std.specs.Prelude.{◌≡◌, ◌≤◌, ◌++◌, Some, IfOk, codes, option_map, string_bytes};
ghost use Rattle.std.specs.Fmt.{WritesOnOk};
ghost use Rattle.serde_json.specs.Data.{array, depth, object};
ghost use Rattle.serde_json.specs.Read.{max_depth, read};
ghost use Rattle.serde_json.specs.View.{items_view, members_view, number_view, view};
ghost use Rattle.serde_json.specs.Written.{IsInOrder};
ghost use Rattle.json_patch_document.specs.Document.{IsDocument};
ghost use Rattle.json_patch_operation.specs.PartsView.{parts_view};
ghost use Rattle.json_patch_operation.specs.Operation.{add_of, copy_of, move_of, operation_of, operations, operations_of};
ghost use Rattle.json_patch_operation.specs.Operation.{remove_of, replace_of, test_of};
ghost use Rattle.json_patch_operation.specs.PatchValue.{all_fields, fields};
ghost use Rattle.json_patch_operation.specs.Printed.{character_text, leading_text, number_text, value_text, fields_text};
ghost use Rattle.json_patch_operation.specs.Printed.{parts_text, patch_text, quote, trailing_text};

use crate::operation::{
    AddOperation, CopyOperation, MoveOperation, Parts, Patch, PatchOperation, RemoveOperation,
    ReplaceOperation, TestOperation,
};
use jsonptr::PointerBuf;
use serde_json::{Map, Number, Value};
use std::alloc::{AllocError, Global};
use std::fmt;

/// The text of a document (RFC 8259) on several lines: two spaces a level, one space after a colon,
/// members in byte order of their names, and no line feed at the end. Answers an error only where
/// a growth of memory was refused.
pub fn pretty(alloc: Global, value: &Value) -> Result<String, AllocError>
    requires { IsDocument (view value.now) }
    ensures order { IfOk result (λ s. IsInOrder (string_bytes s) (view value.now)) }
    ensures reads_back { IfOk result (λ s. depth (view value.now) ≤ max_depth
        → read (string_bytes s) ≡ Some (view value.now)) }
{
    value.to_string_pretty(alloc)
}

/// Writes the object of the members `path` and `value`.
impl fmt::Display for AddOperation {
    ghost output = { λ o. Some (fields_text (fields (add_of o))) };

    fn fmt<W: fmt::Write>(&self, f: &mut fmt::Formatter<W>) -> fmt::Result {
        write_parts(None, self.parts(), f)
    }
}

/// Writes the object of the member `path`.
impl fmt::Display for RemoveOperation {
    ghost output = { λ o. Some (fields_text (fields (remove_of o))) };

    fn fmt<W: fmt::Write>(&self, f: &mut fmt::Formatter<W>) -> fmt::Result {
        write_parts(None, self.parts(), f)
    }
}

/// Writes the object of the members `path` and `value`.
impl fmt::Display for ReplaceOperation {
    ghost output = { λ o. Some (fields_text (fields (replace_of o))) };

    fn fmt<W: fmt::Write>(&self, f: &mut fmt::Formatter<W>) -> fmt::Result {
        write_parts(None, self.parts(), f)
    }
}

/// Writes the object of the members `from` and `path`.
impl fmt::Display for MoveOperation {
    ghost output = { λ o. Some (fields_text (fields (move_of o))) };

    fn fmt<W: fmt::Write>(&self, f: &mut fmt::Formatter<W>) -> fmt::Result {
        write_parts(None, self.parts(), f)
    }
}

/// Writes the object of the members `from` and `path`.
impl fmt::Display for CopyOperation {
    ghost output = { λ o. Some (fields_text (fields (copy_of o))) };

    fn fmt<W: fmt::Write>(&self, f: &mut fmt::Formatter<W>) -> fmt::Result {
        write_parts(None, self.parts(), f)
    }
}

/// Writes the object of the members `path` and `value`.
impl fmt::Display for TestOperation {
    ghost output = { λ o. Some (fields_text (fields (test_of o))) };

    fn fmt<W: fmt::Write>(&self, f: &mut fmt::Formatter<W>) -> fmt::Result {
        write_parts(None, self.parts(), f)
    }
}

/// Writes the object of the members that the operation has, in the order `op`, `from`, `path`,
/// `value`.
impl fmt::Display for PatchOperation {
    ghost output = { λ o. Some (fields_text (all_fields (operation_of o))) };

    fn fmt<W: fmt::Write>(&self, f: &mut fmt::Formatter<W>) -> fmt::Result {
        let parts = self.parts();
        write_parts(Some(parts.name), parts, f)
    }
}

impl fmt::Display for Patch {
    ghost output = { λ p. Some (patch_text (operations_of p)) };

    /// Writes the array of the operations' objects.
    fn fmt<W: fmt::Write>(&self, f: &mut fmt::Formatter<W>) -> fmt::Result {
        f.write_str("[")?;
        let mut comma = "";
        'operations: for operation in &self.0 {
            f.write_str(comma)?;
            fmt::Display::fmt(operation, f)?;
            comma = ",";
        }
        f.write_str("]")
    }
}

/// Writes what `Display` writes.
impl fmt::Debug for AddOperation {
    ghost debug_output = { λ o. Some (fields_text (fields (add_of o))) };

    fn fmt<W: fmt::Write>(&self, f: &mut fmt::Formatter<W>) -> fmt::Result {
        fmt::Display::fmt(self, f)
    }
}

/// Writes what `Display` writes.
impl fmt::Debug for RemoveOperation {
    ghost debug_output = { λ o. Some (fields_text (fields (remove_of o))) };

    fn fmt<W: fmt::Write>(&self, f: &mut fmt::Formatter<W>) -> fmt::Result {
        fmt::Display::fmt(self, f)
    }
}

/// Writes what `Display` writes.
impl fmt::Debug for ReplaceOperation {
    ghost debug_output = { λ o. Some (fields_text (fields (replace_of o))) };

    fn fmt<W: fmt::Write>(&self, f: &mut fmt::Formatter<W>) -> fmt::Result {
        fmt::Display::fmt(self, f)
    }
}

/// Writes what `Display` writes.
impl fmt::Debug for MoveOperation {
    ghost debug_output = { λ o. Some (fields_text (fields (move_of o))) };

    fn fmt<W: fmt::Write>(&self, f: &mut fmt::Formatter<W>) -> fmt::Result {
        fmt::Display::fmt(self, f)
    }
}

/// Writes what `Display` writes.
impl fmt::Debug for CopyOperation {
    ghost debug_output = { λ o. Some (fields_text (fields (copy_of o))) };

    fn fmt<W: fmt::Write>(&self, f: &mut fmt::Formatter<W>) -> fmt::Result {
        fmt::Display::fmt(self, f)
    }
}

/// Writes what `Display` writes.
impl fmt::Debug for TestOperation {
    ghost debug_output = { λ o. Some (fields_text (fields (test_of o))) };

    fn fmt<W: fmt::Write>(&self, f: &mut fmt::Formatter<W>) -> fmt::Result {
        fmt::Display::fmt(self, f)
    }
}

/// Writes what `Display` writes.
impl fmt::Debug for PatchOperation {
    ghost debug_output = { λ o. Some (fields_text (all_fields (operation_of o))) };

    fn fmt<W: fmt::Write>(&self, f: &mut fmt::Formatter<W>) -> fmt::Result {
        fmt::Display::fmt(self, f)
    }
}

/// Writes what `Display` writes.
impl fmt::Debug for Patch {
    ghost debug_output = { λ p. Some (patch_text (operations_of p)) };

    fn fmt<W: fmt::Write>(&self, f: &mut fmt::Formatter<W>) -> fmt::Result {
        fmt::Display::fmt(self, f)
    }
}

/// Writes the object of the members `op`, `from`, `path` and `value`, those that there are.
fn write_parts<W: fmt::Write>(
    name: Option<&str>,
    parts: Parts<'_>,
    f: &mut fmt::Formatter<W>,
) -> fmt::Result
    ensures { WritesOnOk W.write_str_gives f.old result
        (parts_text (option_map (λ s. s.now) name.entry) (parts_view parts.entry)) f.new }
{
    f.write_str("{")?;
    write_leading("op", name, f)?;
    write_leading("from", parts.from.map(PointerBuf::as_str), f)?;
    write_name("path", f)?;
    write_text(parts.path.as_str(), f)?;
    write_trailing("value", parts.value, f)?;
    f.write_str("}")
}

/// Writes a member and the comma after it, if there is a string for it.
fn write_leading<W: fmt::Write>(
    name: &str,
    text: Option<&str>,
    f: &mut fmt::Formatter<W>,
) -> fmt::Result
    ensures { WritesOnOk W.write_str_gives f.old result
        (leading_text name.now (option_map (λ s. s.now) text.entry)) f.new }
{
    let Some(text) = text else {
        return Ok(());
    };
    write_name(name, f)?;
    write_text(text, f)?;
    f.write_str(",")
}

/// Writes a comma and the member after it, if there is a value.
fn write_trailing<W: fmt::Write>(
    name: &str,
    value: Option<&Value>,
    f: &mut fmt::Formatter<W>,
) -> fmt::Result
    ensures { WritesOnOk W.write_str_gives f.old result
        (trailing_text name.now (option_map (λ v. view v.now) value.entry)) f.new }
{
    let Some(value) = value else {
        return Ok(());
    };
    f.write_str(",")?;
    write_name(name, f)?;
    write_value(value, f)
}

#[cycle(printing)]
fn write_value<W: fmt::Write>(value: &Value, f: &mut fmt::Formatter<W>) -> fmt::Result
    ensures { WritesOnOk W.write_str_gives f.old result (value_text (view value.now)) f.new }
{
    match value {
        Value::Null => f.write_str("null"),
        Value::Bool(true) => f.write_str("true"),
        Value::Bool(false) => f.write_str("false"),
        Value::Number(number) => write_number(number, f),
        Value::String(text) => write_text(text.as_str(), f),
        Value::Array(items) => write_items(items, f),
        Value::Object(members) => write_members(members, f),
    }
}

#[cycle(printing)]
fn write_items<W: fmt::Write>(items: &Vec<Value>, f: &mut fmt::Formatter<W>) -> fmt::Result
    ensures { WritesOnOk W.write_str_gives f.old result
        (value_text (array (items_view items.now.items))) f.new }
{
    f.write_str("[")?;
    let mut comma = "";
    'items: for item in items {
        f.write_str(comma)?;
        write_value(item, f)?;
        comma = ",";
    }
    f.write_str("]")
}

#[cycle(printing)]
fn write_members<W: fmt::Write>(
    members: &Map<String, Value>,
    f: &mut fmt::Formatter<W>,
) -> fmt::Result
    ensures { WritesOnOk W.write_str_gives f.old result
        (value_text (object (members_view members.now.entries))) f.new }
{
    f.write_str("{")?;
    let mut comma = "";
    'members: for (name, member) in members.iter() {
        f.write_str(comma)?;
        write_name(name.as_str(), f)?;
        write_value(member, f)?;
        comma = ",";
    }
    f.write_str("}")
}

/// Writes the digits of an integer, and `null` for another number.
fn write_number<W: fmt::Write>(number: &Number, f: &mut fmt::Formatter<W>) -> fmt::Result
    ensures { WritesOnOk W.write_str_gives f.old result
        (number_text (number_view number.now)) f.new }
{
    match number.as_i128() {
        Some(whole) => write!(f, "{whole}"),
        None => f.write_str("null"),
    }
}

fn write_name<W: fmt::Write>(name: &str, f: &mut fmt::Formatter<W>) -> fmt::Result
    ensures { WritesOnOk W.write_str_gives f.old result (quote name.now ++ codes ":") f.new }
{
    write_text(name, f)?;
    f.write_str(":")
}

/// Writes the string between quotes (RFC 8259, section 7).
fn write_text<W: fmt::Write>(text: &str, f: &mut fmt::Formatter<W>) -> fmt::Result
    ensures { WritesOnOk W.write_str_gives f.old result (quote text.now) f.new }
{
    f.write_str("\"")?;
    for character in text.chars() {
        write_character(character, f)?;
    }
    f.write_str("\"")
}

fn write_character<W: fmt::Write>(character: char, f: &mut fmt::Formatter<W>) -> fmt::Result
    ensures { WritesOnOk W.write_str_gives f.old result (character_text character) f.new }
{
    match character {
        '"' => f.write_str("\\\""),
        '\\' => f.write_str("\\\\"),
        '\u{8}' => f.write_str("\\b"),
        '\u{C}' => f.write_str("\\f"),
        '\n' => f.write_str("\\n"),
        '\r' => f.write_str("\\r"),
        '\t' => f.write_str("\\t"),
        _ if character < ' ' => {
            let code = u32::from(character);
            write!(f, "\\u{code:04x}")
        }
        _ => f.write_char(character),
    }
}
