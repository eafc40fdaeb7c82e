//! What a table of cases is made of, and how a case is run.

ghost use Rattle.serde_json.specs.View.{view};
ghost use Rattle.json_patch.specs.Document.{IsDocument};
ghost use Rattle.json_patch.specs.Operation.{AreWhole, operations_of};

use json_patch::{
    AddOperation, CopyOperation, MoveOperation, Patch, PatchFault, PatchOperation, ReadFault,
    RemoveOperation, ReplaceOperation, TestOperation, apply_patches, is_whole, patch, patch_unsafe,
};
use serde_json::Value;
use std::alloc::{AllocError, AllocGlobal, Global};
use std::fmt::{Debug, Display};
use std::process::Abort;
use std::test::Fail;

/// A document, a patch, and what comes of it.
pub(crate) struct Case {
    /// What the case shows.
    pub name: &'static str,
    /// The document, as JSON text.
    pub document: &'static str,
    /// The patch, as JSON text.
    pub patch: &'static str,
    pub expected: Expected,
}

/// What comes of a patch. Documents and inverses are compact JSON texts, with the members of each
/// object in byte order of their names.
pub(crate) enum Expected {
    Accepted {
        /// The new document.
        document: &'static str,
        /// The patch that leads back, where the case tells it.
        inverse: Option<&'static str>,
    },
    Refused {
        /// The first operation that is refused, counted from 0.
        operation: usize,
        /// That operation's `path`.
        path: &'static str,
        /// The kind's name.
        kind: &'static str,
        /// What `patch_unsafe` leaves: what the operations before the refused one make of the
        /// document.
        left: &'static str,
    },
}

/// Runs each case of a table.
pub(crate) fn run_all(rt: &(impl Abort + AllocGlobal), cases: &[Case]) -> Result<(), Fail> {
    for case in cases {
        run(rt, case)?;
    }
    Ok(())
}

fn run(rt: &(impl Abort + AllocGlobal), case: &Case) -> Result<(), Fail> {
    let alloc = rt.alloc();
    let name = case.name;
    let document = Value::from_str(alloc, case.document).expect(rt, name);
    let changes = read_patch(rt, case);
    assert!(rt; is_whole(&document), "{name}");
    assert!(rt; changes.is_whole(), "{name}");
    match case.expected {
        Expected::Accepted {
            document: after,
            inverse,
        } => {
            assert_runs(rt, name, &document, &changes, after)?;
            assert_recorded(rt, name, &document, &changes, after, inverse)?;
        }
        Expected::Refused {
            operation,
            path,
            kind,
            left,
        } => {
            let refusal = format!(in alloc; "operation {operation} at '{path}': {kind}")?;
            assert_refused(rt, name, &document, &changes, refusal.as_str(), left)?;
        }
    }
    assert_patch_kept(rt, name, &changes)
}

fn read_patch(rt: &(impl Abort + AllocGlobal), case: &Case) -> Patch {
    let value = Value::from_str(rt.alloc(), case.patch).expect(rt, case.name);
    Patch::from_value(rt.alloc(), &value).expect(rt, case.name)
}

/// Asserts that `patch` and `patch_unsafe` make this of the document.
fn assert_runs(
    rt: &(impl Abort + AllocGlobal),
    name: &str,
    document: &Value,
    changes: &Patch,
    after: &str,
) -> Result<(), Fail>
    requires document { IsDocument (view document.now) }
    requires whole { AreWhole (operations_of changes.now) }
{
    let alloc = rt.alloc();
    let mut copied = document.clone()?;
    let answer = patch(alloc, &mut copied, changes.as_slice());
    assert_answer(rt, name, "patch", answer, "accepted")?;
    assert_text(rt, name, "patch", &copied, after)?;
    let mut in_place = document.clone()?;
    let answer = patch_unsafe(alloc, &mut in_place, changes.as_slice());
    assert_answer(rt, name, "patch_unsafe", answer, "accepted")?;
    assert_text(rt, name, "patch_unsafe", &in_place, after)
}

/// Asserts that `apply_patches` makes this of the document, and that its inverse leads back.
fn assert_recorded(
    rt: &(impl Abort + AllocGlobal),
    name: &str,
    document: &Value,
    changes: &Patch,
    after: &str,
    inverse: Option<&str>,
) -> Result<(), Fail>
    requires document { IsDocument (view document.now) }
    requires whole { AreWhole (operations_of changes.now) }
{
    let alloc = rt.alloc();
    let mut recorded = document.clone()?;
    let undo = apply_patches(alloc, &mut recorded, changes.as_slice()).expect(rt, name);
    assert_text(rt, name, "apply_patches", &recorded, after)?;
    if let Some(inverse) = inverse {
        assert_text(rt, name, "inverse", &undo.to_value(alloc)?, inverse)?;
    }
    let answer = patch(alloc, &mut recorded, undo.as_slice());
    assert_answer(rt, name, "inverse", answer, "accepted")?;
    let first = document.to_string(alloc)?;
    assert_text(rt, name, "inverse", &recorded, first.as_str())
}

/// Asserts that the three calls refuse the patch so, and what they leave of the document.
fn assert_refused(
    rt: &(impl Abort + AllocGlobal),
    name: &str,
    document: &Value,
    changes: &Patch,
    refusal: &str,
    left: &str,
) -> Result<(), Fail>
    requires document { IsDocument (view document.now) }
    requires whole { AreWhole (operations_of changes.now) }
{
    let alloc = rt.alloc();
    let first = document.to_string(alloc)?;
    let mut work = document.clone()?;
    let answer = patch(alloc, &mut work, changes.as_slice());
    assert_answer(rt, name, "patch", answer, refusal)?;
    assert_text(rt, name, "patch", &work, first.as_str())?;
    let answer = apply_patches(alloc, &mut work, changes.as_slice());
    assert_answer(rt, name, "apply_patches", answer, refusal)?;
    assert_text(rt, name, "apply_patches", &work, first.as_str())?;
    let answer = patch_unsafe(alloc, &mut work, changes.as_slice());
    assert_answer(rt, name, "patch_unsafe", answer, refusal)?;
    assert_text(rt, name, "patch_unsafe", &work, left)
}

/// Asserts what a call returns: `accepted`, or which operation is refused, its path and the kind.
fn assert_answer<T: Drop>(
    rt: &(impl Abort + AllocGlobal),
    name: &str,
    call: &str,
    answer: Result<T, PatchFault>,
    expected: &str,
) -> Result<(), Fail> {
    let alloc = rt.alloc();
    let shown = match answer {
        Ok(_done) => String::from_str(alloc, "accepted")?,
        Err(PatchFault::Refused(error)) => {
            let path = error.path.as_str();
            format!(in alloc;
                "operation {} at '{path}': {:?}",
                error.operation, error.kind
            )?
        }
        Err(PatchFault::Memory(_error)) => String::from_str(alloc, "out of memory")?,
    };
    assert_eq!(rt; shown.as_str(), expected, "{name}: {call}");
    Ok(())
}

/// Asserts the compact text of a value that a call leaves or returns.
pub(crate) fn assert_text(
    rt: &(impl Abort + AllocGlobal),
    name: &str,
    call: &str,
    value: &Value,
    expected: &str,
) -> Result<(), Fail> {
    assert_eq!(rt;
        value.to_string(rt.alloc())?.as_str(),
        expected,
        "{name}: {call}"
    );
    Ok(())
}

/// Asserts that a value is shown as this text.
pub(crate) fn assert_shown<T: Display>(
    rt: &(impl Abort + AllocGlobal),
    value: &T,
    expected: &str,
) -> Result<(), Fail> {
    assert_eq!(rt; value.to_string(rt.alloc())?.as_str(), expected);
    Ok(())
}

/// Asserts that the two are equal; `what` says of which case.
pub(crate) fn assert_is<T: Eq + Debug>(rt: &impl Abort, what: &str, found: &T, expected: &T) {
    assert_eq!(rt; *found, *expected, "{what}");
}

macro_rules! assert_again {
    ($rt:expr, $name:expr, $value:expr, $kind:ident) => {
        assert_read_again(
            $rt,
            $name,
            $value,
            None,
            $kind::from_value,
            $kind::to_value,
            $kind::clone,
        )
    };
}

/// Asserts that the patch, each operation and its struct can be written, read again and cloned, and
/// are the same then.
fn assert_patch_kept(
    rt: &(impl Abort + AllocGlobal),
    name: &str,
    changes: &Patch,
) -> Result<(), Fail> {
    assert_again!(rt, name, changes, Patch)?;
    for operation in changes.as_slice() {
        assert_again!(rt, name, operation, PatchOperation)?;
        assert_struct_kept(rt, name, operation)?;
    }
    Ok(())
}

fn assert_struct_kept(
    rt: &(impl Abort + AllocGlobal),
    name: &str,
    operation: &PatchOperation,
) -> Result<(), Fail> {
    match operation {
        PatchOperation::Add(made) => assert_again!(rt, name, made, AddOperation),
        PatchOperation::Remove(made) => assert_again!(rt, name, made, RemoveOperation),
        PatchOperation::Replace(made) => assert_again!(rt, name, made, ReplaceOperation),
        PatchOperation::Move(made) => assert_again!(rt, name, made, MoveOperation),
        PatchOperation::Copy(made) => assert_again!(rt, name, made, CopyOperation),
        PatchOperation::Test(made) => assert_again!(rt, name, made, TestOperation),
    }
}

/// Asserts that the value is written as this text, where one is given, and that it is the same when
/// it is read again or cloned.
pub(crate) fn assert_read_again<T, R, W, C>(
    rt: &(impl Abort + AllocGlobal),
    name: &str,
    value: &T,
    text: Option<&str>,
    from_value: R,
    to_value: W,
    clone: C,
) -> Result<(), Fail>
where
    T: Eq + Drop,
    R: FnOnce(Global, &Value) -> Result<T, ReadFault>,
    W: FnOnce(&T, Global) -> Result<Value, AllocError>,
    C: FnOnce(&T, Global) -> Result<T, AllocError>,
    requires read { R.IsAlwaysCallable from_value }
    requires written { W.IsAlwaysCallable to_value }
    requires cloned { C.IsAlwaysCallable clone }
{
    let written = to_value(value, rt.alloc())?;
    if let Some(text) = text {
        assert_text(rt, name, "written", &written, text)?;
    }
    let read = from_value(rt.alloc(), &written).expect(rt, name);
    assert!(rt; read == *value, "{name}: written and read again");
    let cloned = clone(value, rt.alloc()).expect(rt, name);
    assert!(rt; cloned == *value, "{name}: cloned");
    Ok(())
}
