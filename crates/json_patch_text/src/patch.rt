//! A JSON text patched by the text of a patch (RFC 6902).

ghost use Rattle.std.specs.Prelude.{◌≡◌, ◌<◌, ◌≤◌, IfErr, IfOk, IfSome, List, OnSome, length};
ghost use Rattle.std.specs.String.{string_bytes};
ghost use Rattle.json_patch_text.specs.Operations.{SaysOperations, TreeOperation};
ghost use Rattle.json_patch_text.specs.Patched.{AcceptsPatch, HasTexts, IsPatchTextFault, IsPatchedText};
ghost use Rattle.json_patch_text.specs.Stopped.{IsNoDocument, IsUnread, as_document, as_patch};
ghost use Rattle.json_patch_text.specs.Within.{IsPatchedWithin, IsTextLimitFault, IsTextWithin, most_bytes};
ghost use Rattle.json_patch_text.specs.declared.fault.PatchTextFault.TheVariants.{Document};
ghost use Rattle.json_lexemes.specs.Skipped.{nesting};
ghost use Rattle.json_text.specs.Checked.{text_in};
ghost use Rattle.json_text.specs.declared.fault.TextFault.TheVariants.{TooDeep};

use crate::bounds::Bounds;
use crate::fault::{PatchTextFault, TextLimitFault};
use crate::log::Log;
use crate::operation::TextOperation;
use crate::reading::read;
use crate::run::run;
use json::MAX_DEPTH;
use json_lexemes::Signposts;
use json_patch_limits::limits::Limits;
use json_patch_operation::ReadFault;
use json_text::{CheckedText, TextFault, is_deeper};
use std::alloc::Global;

/// The fault where the patch's text isn't read.
fn patch_fault(fault: TextFault) -> PatchTextFault
    ensures { result ≡ as_patch fault }
{
    match fault {
        TextFault::Memory(failed) => PatchTextFault::Memory(failed),
        TextFault::NotJson => PatchTextFault::Patch(TextFault::NotJson),
        TextFault::TooDeep => PatchTextFault::Patch(TextFault::TooDeep),
    }
}

/// The fault where the document's text isn't read.
fn document_fault(fault: TextFault) -> PatchTextFault
    ensures { result ≡ as_document fault }
{
    match fault {
        TextFault::Memory(failed) => PatchTextFault::Memory(failed),
        TextFault::NotJson => PatchTextFault::Document(TextFault::NotJson),
        TextFault::TooDeep => PatchTextFault::Document(TextFault::TooDeep),
    }
}

/// The document's text, checked here where it wasn't before.
pub(crate) fn document<'a>(
    alloc: Global,
    text: &'a str,
    checked: Option<CheckedText<'a>>,
) -> Result<CheckedText<'a>, PatchTextFault>
    requires { IfSome checked (λ checked. text_in checked ≡ text.now) }
    ensures text { IfOk result (λ checked. text_in checked ≡ text.now) }
    ensures fault { IfErr result (IsNoDocument text.now) }
{
    if let Some(checked) = checked {
        return Ok(checked);
    }
    match CheckedText::new(alloc, text) {
        Ok(checked) => Ok(checked),
        Err(fault) => Err(document_fault(fault)),
    }
}

/// A text of fewer bytes is passed over sooner than signposts are made.
const LONG: usize = 2048;

/// A patch of more bytes has more operations than are made on a text as a whole, by its signposts, or long values.
const SHORT: usize = 1024;

/// Room for the signposts of the document's text, where the patch has use for them.
pub(crate) fn room(text: &str, patch: &str) -> Option<Signposts> {
    if text.len() >= LONG && patch.len() <= SHORT {
        Some(Signposts::new())
    } else {
        None
    }
}

/// The document's text, where it is found to be within so many levels without the reader.
pub(crate) fn checked<'a>(
    text: &'a str,
    levels: usize,
    room: &'a mut Option<Signposts>,
) -> Option<CheckedText<'a>>
    ensures text { IfSome result (λ checked. text_in checked ≡ text.now) }
    ensures depth { OnSome result (nesting text.now ≤ levels) }
{
    match room {
        Some(signposts) => CheckedText::signposted(text, levels, signposts),
        None => CheckedText::within(text, levels),
    }
}

/// The same, or the fault where the text nests deeper.
pub(crate) fn checked_within<'a>(
    text: &'a str,
    levels: usize,
    room: &'a mut Option<Signposts>,
) -> Result<Option<CheckedText<'a>>, PatchTextFault>
    ensures text { IfOk result (λ found. IfSome found (λ checked. text_in checked ≡ text.now)) }
    ensures depth { IfOk result (λ found. nesting text.now ≤ levels) }
    ensures fault { IfErr result (λ fault. (fault ≡ Document TooDeep) × (levels < nesting text.now)) }
{
    // One pass checks the text and how deep it nests, where nothing is wrong with it.
    let checked = checked(text, levels, room);
    if checked.is_none() && is_deeper(text, levels) {
        return Err(PatchTextFault::Document(TextFault::TooDeep));
    }
    Ok(checked)
}

/// The operations that the patch's text says.
pub(crate) fn operations_in<'a>(
    alloc: Global,
    patch: &'a str,
) -> Result<Vec<TextOperation<'a>>, PatchTextFault>
    ensures read { IfOk result (λ os. HasTexts patch.now os.items) }
    ensures fault { IfErr result (IsUnread patch.now) }
{
    if let Err(fault) = CheckedText::new(alloc, patch) {
        return Err(patch_fault(fault));
    }
    match read(alloc, patch) {
        Ok(operations) => Ok(operations),
        Err(ReadFault::Refused(error)) => Err(PatchTextFault::Unreadable(error)),
        Err(ReadFault::Memory(failed)) => Err(PatchTextFault::Memory(failed)),
    }
}

/// Reads a patch's text (RFC 6902, sections 3 and 4) as [`patch_text`] does, and answers how many operations
/// it says. So of `[{"op": "add", "path": "/a"}]` the fault is `Unreadable`: the member "value" is missing in
/// operation 0.
pub fn check_patch(alloc: Global, patch: &str) -> Result<usize, PatchTextFault>
    ensures read { IfOk result (λ n. (ops : List TreeOperation) × SaysOperations patch.now ops
        × (length ops ≡ n)) }
    ensures fault { IfErr result (IsUnread patch.now) }
{
    let said = operations_in(alloc, patch)?;
    Ok(said.len())
}

/// The text with the patch applied, and every byte kept that no operation changes.
///
/// A value of the patch is put in as it is written there, and a value that is copied or moved as it is
/// written in the text. What goes with a new member or element follows the style of its neighbours.
/// Numbers are compared by their value, exactly.
///
/// ```rust
/// let text = r#"{ "price": 1.50, "list": [1, 2] }"#;
/// let patch = r#"[{"op": "copy", "from": "/price", "path": "/list/1"}]"#;
/// let new = patch_text(alloc, text, patch)?;
/// // { "price": 1.50, "list": [1, 1.50, 2] }
/// ```
pub fn patch_text(alloc: Global, text: &str, patch: &str) -> Result<String, PatchTextFault>
    ensures accepted { IfOk result (λ new. AcceptsPatch text.now patch.now (string_bytes new)) }
    ensures kept { IfOk result (λ new. IsPatchedText text.now patch.now (string_bytes new)) }
    ensures fault { IfErr result (IsPatchTextFault text.now patch.now) }
{
    let operations = operations_in(alloc, patch)?;
    let mut room = room(text, patch);
    let document = document(alloc, text, checked(text, MAX_DEPTH, &mut room))?;
    let mut log = Log::new(alloc, false);
    match run(&mut log, document, operations.as_slice(), None) {
        Ok(new) => Ok(new),
        Err(TextLimitFault::Patch(fault)) => Err(fault),
        Err(TextLimitFault::Over(_)) => unreachable!(),
    }
}

/// The text with the patch applied as [`patch_text`] does it, within limits: so a patch that a stranger
/// wrote makes no text grow or nest without bound.
///
/// Each text that the operations leave, one after another, may have at most `limits.depth` objects and
/// arrays open at once. It may have at most as many bytes as `text` and `patch` together, and
/// `limits.copied` bytes more: so much the `copy`s may add, with the whitespace, commas and names that go
/// with a new member or element. All operations together may cost at most as many bytes: a `copy` what it
/// copies, also where that is exchanged or removed again; a `test` what it reads of the text beyond the length
/// of its own value, which says the same in fewer bytes.
///
/// The first operation that would leave another text, or with which they cost more, is `Over`, with its
/// number: `TooDeep` where that text nests deeper, and else `TooMuch`. An operation that is refused leaves
/// no text, and is never over. Where `text` itself nests deeper than `limits.depth`, it is refused as a
/// document that is too deep.
///
/// ```rust
/// let text = r#"{"a": [1, 2]}"#;
/// let patch = r#"[{"op": "copy", "from": "", "path": "/b"}]"#;
/// let limits = Limits {
///     depth: 2,
///     copied: 1_000,
/// };
/// let told = match patch_text_within(alloc, text, patch, limits) {
///     Ok(new) => new,
///     Err(fault) => format!(in alloc; "{fault}")?,
/// };
/// // operation '/0' is over the limits: value would reach too deep
/// ```
pub fn patch_text_within(
    alloc: Global,
    text: &str,
    patch: &str,
    limits: Limits,
) -> Result<String, TextLimitFault>
    ensures accepted { IfOk result (λ new. AcceptsPatch text.now patch.now (string_bytes new)) }
    ensures kept { IfOk result (λ new. IsPatchedText text.now patch.now (string_bytes new)) }
    ensures within { IfOk result (λ new. IsPatchedWithin limits text.now patch.now (string_bytes new)) }
    ensures bounded { IfOk result
        (λ new. IsTextWithin limits (most_bytes limits text.now patch.now) (string_bytes new)) }
    ensures fault { IfErr result (IsTextLimitFault limits text.now patch.now) }
{
    let mut room = room(text, patch);
    let checked = checked_within(text, limits.depth, &mut room)?;
    patched(alloc, text, checked, patch, limits)
}

/// The same, of a text that nests no deeper than the limits say, and is checked here where it wasn't before.
fn patched<'a>(
    alloc: Global,
    text: &'a str,
    checked: Option<CheckedText<'a>>,
    patch: &str,
    limits: Limits,
) -> Result<String, TextLimitFault>
    requires text { IfSome checked (λ checked. text_in checked ≡ text.now) }
    requires depth { nesting text.now ≤ limits.depth }
    ensures accepted { IfOk result (λ new. AcceptsPatch text.now patch.now (string_bytes new)) }
    ensures kept { IfOk result (λ new. IsPatchedText text.now patch.now (string_bytes new)) }
    ensures within { IfOk result (λ new. IsPatchedWithin limits text.now patch.now (string_bytes new)) }
    ensures bounded { IfOk result
        (λ new. IsTextWithin limits (most_bytes limits text.now patch.now) (string_bytes new)) }
    ensures fault { IfErr result (IsTextLimitFault limits text.now patch.now) }
{
    let operations = operations_in(alloc, patch)?;
    let document = document(alloc, text, checked)?;
    let bounds = Bounds {
        limits,
        document: text.len(),
        patch: patch.len(),
    };
    let mut log = Log::new(alloc, false);
    run(&mut log, document, operations.as_slice(), Some(bounds))
}
