//! The operations of JSON Patch (RFC 6902, section 4) and what they have, and lists of them.

ghost use Rattle.std.specs.Prelude.{◌≡◌, ◌↔◌, [], IfOk, IsTrue, option_map};
ghost use Rattle.serde_json.specs.Data.{null};
ghost use Rattle.jsonptr.specs.Pointers.{tokens_of};
ghost use Rattle.json_patch_operation.specs.Operation.{add_of, copy_of, move_of, operation_of, operations_of, parts_of, path_of};
ghost use Rattle.json_patch_operation.specs.Operation.{AreWhole, from_of, remove_of, replace_of, test, test_of};
ghost use Rattle.json_patch_operation.specs.PartsView.{parts_view};

use json_patch_document::is_whole;
use jsonptr::{Pointer, PointerBuf};
use serde_json::Value;
use std::alloc::{AllocError, Global};

/// Puts a value at `path`: a new member, a member in place of another, or an element before the one
/// that stands there (RFC 6902, section 4.1).
#[derive(Default, Drop)]
pub struct AddOperation {
    /// Where the value goes.
    pub path: PointerBuf,
    /// The value.
    pub value: Value,
}

/// Takes away the value at `path` (RFC 6902, section 4.2).
#[derive(Default, Drop)]
pub struct RemoveOperation {
    /// Where the value stands.
    pub path: PointerBuf,
}

/// Puts a value in place of the one at `path` (RFC 6902, section 4.3).
#[derive(Default, Drop)]
pub struct ReplaceOperation {
    /// Where the value stands.
    pub path: PointerBuf,
    /// The new value.
    pub value: Value,
}

/// Takes the value at `from` away and adds it at `path` (RFC 6902, section 4.4).
#[derive(Default, Drop)]
pub struct MoveOperation {
    /// Where the value stands.
    pub from: PointerBuf,
    /// Where it goes, in the document without it.
    pub path: PointerBuf,
}

/// Adds the value at `from` at `path` too (RFC 6902, section 4.5).
#[derive(Default, Drop)]
pub struct CopyOperation {
    /// Where the value stands.
    pub from: PointerBuf,
    /// Where its copy goes.
    pub path: PointerBuf,
}

/// Asks that a value stands at `path` (RFC 6902, section 4.6).
#[derive(Default, Drop)]
pub struct TestOperation {
    /// Where to look.
    pub path: PointerBuf,
    /// The value that has to stand there.
    pub value: Value,
}

/// One operation of a patch.
#[derive(Drop)]
pub enum PatchOperation {
    /// `add`
    Add(AddOperation),
    /// `remove`
    Remove(RemoveOperation),
    /// `replace`
    Replace(ReplaceOperation),
    /// `move`
    Move(MoveOperation),
    /// `copy`
    Copy(CopyOperation),
    /// `test`
    Test(TestOperation),
}

/// A `test` that the whole document is null.
impl Default for PatchOperation {
    ghost is_default = { λ o. operation_of o ≡ test [] null };

    fn default() -> PatchOperation {
        PatchOperation::Test(TestOperation::default())
    }
}

/// A JSON Patch: operations, to be applied in their order.
#[derive(Drop)]
pub struct Patch(pub Vec<PatchOperation>);

impl Patch {
    /// The empty patch, which holds no memory.
    pub fn new(alloc: Global) -> Patch
        ensures { result.0.items ≡ [] }
    {
        Patch(Vec::new(alloc))
    }

    /// The operations.
    pub fn as_slice(&self) -> &[PatchOperation]
        ensures { result.now ≡ self.now.0.items }
    {
        self.0.as_slice()
    }

    /// Whether the value of each operation is whole, as in an empty patch.
    pub fn is_whole(&self) -> bool
        ensures { IsTrue result ↔ AreWhole (operations_of self.now) }
    {
        for operation in &self.0 {
            if let Some(value) = operation.parts().value {
                if !is_whole(value) {
                    return false;
                }
            }
        }
        true
    }

    /// A copy of the patch, refused for memory alone.
    pub fn clone(&self, alloc: Global) -> Result<Patch, AllocError>
        ensures { IfOk result (λ copy. operations_of copy ≡ operations_of self.now) }
    {
        let mut copies = Vec::with_capacity(alloc, self.0.len())?;
        for operation in &self.0 {
            copies.push(operation.clone(alloc)?)?;
        }
        Ok(Patch(copies))
    }
}

/// The parts of an operation, borrowed.
#[derive(Clone, Copy)]
pub(crate) struct Parts<'a> {
    /// The string of its `op`.
    pub(crate) name: &'static str,
    pub(crate) from: Option<&'a PointerBuf>,
    pub(crate) path: &'a PointerBuf,
    pub(crate) value: Option<&'a Value>,
}

impl<'a> Parts<'a> {
    fn new(
        name: &'static str,
        from: Option<&'a PointerBuf>,
        path: &'a PointerBuf,
        value: Option<&'a Value>,
    ) -> Parts<'a>
        ensures { (result.name ≡ name.entry) × (result.from ≡ from.entry)
            × (result.path ≡ path.entry) × (result.value ≡ value.entry) }
    {
        Parts {
            name,
            from,
            path,
            value,
        }
    }
}

impl AddOperation {
    pub(crate) fn parts(&self) -> Parts<'_>
        ensures { parts_view result ≡ parts_of (add_of self.now) }
    {
        Parts::new("add", None, &self.path, Some(&self.value))
    }

    /// A copy of the operation, refused for memory alone.
    pub fn clone(&self, alloc: Global) -> Result<AddOperation, AllocError>
        ensures { IfOk result (λ copy. add_of copy ≡ add_of self.now) }
    {
        let path = self.path.clone(alloc)?;
        let value = self.value.clone()?;
        Ok(AddOperation { path, value })
    }
}

impl RemoveOperation {
    pub(crate) fn parts(&self) -> Parts<'_>
        ensures { parts_view result ≡ parts_of (remove_of self.now) }
    {
        Parts::new("remove", None, &self.path, None)
    }

    /// A copy of the operation, refused for memory alone.
    pub fn clone(&self, alloc: Global) -> Result<RemoveOperation, AllocError>
        ensures { IfOk result (λ copy. remove_of copy ≡ remove_of self.now) }
    {
        let path = self.path.clone(alloc)?;
        Ok(RemoveOperation { path })
    }
}

impl ReplaceOperation {
    pub(crate) fn parts(&self) -> Parts<'_>
        ensures { parts_view result ≡ parts_of (replace_of self.now) }
    {
        Parts::new("replace", None, &self.path, Some(&self.value))
    }

    /// A copy of the operation, refused for memory alone.
    pub fn clone(&self, alloc: Global) -> Result<ReplaceOperation, AllocError>
        ensures { IfOk result (λ copy. replace_of copy ≡ replace_of self.now) }
    {
        let path = self.path.clone(alloc)?;
        let value = self.value.clone()?;
        Ok(ReplaceOperation { path, value })
    }
}

impl MoveOperation {
    pub(crate) fn parts(&self) -> Parts<'_>
        ensures { parts_view result ≡ parts_of (move_of self.now) }
    {
        Parts::new("move", Some(&self.from), &self.path, None)
    }

    /// A copy of the operation, refused for memory alone.
    pub fn clone(&self, alloc: Global) -> Result<MoveOperation, AllocError>
        ensures { IfOk result (λ copy. move_of copy ≡ move_of self.now) }
    {
        let from = self.from.clone(alloc)?;
        let path = self.path.clone(alloc)?;
        Ok(MoveOperation { from, path })
    }
}

impl CopyOperation {
    pub(crate) fn parts(&self) -> Parts<'_>
        ensures { parts_view result ≡ parts_of (copy_of self.now) }
    {
        Parts::new("copy", Some(&self.from), &self.path, None)
    }

    /// A copy of the operation, refused for memory alone.
    pub fn clone(&self, alloc: Global) -> Result<CopyOperation, AllocError>
        ensures { IfOk result (λ copy. copy_of copy ≡ copy_of self.now) }
    {
        let from = self.from.clone(alloc)?;
        let path = self.path.clone(alloc)?;
        Ok(CopyOperation { from, path })
    }
}

impl TestOperation {
    pub(crate) fn parts(&self) -> Parts<'_>
        ensures { parts_view result ≡ parts_of (test_of self.now) }
    {
        Parts::new("test", None, &self.path, Some(&self.value))
    }

    /// A copy of the operation, refused for memory alone.
    pub fn clone(&self, alloc: Global) -> Result<TestOperation, AllocError>
        ensures { IfOk result (λ copy. test_of copy ≡ test_of self.now) }
    {
        let path = self.path.clone(alloc)?;
        let value = self.value.clone()?;
        Ok(TestOperation { path, value })
    }
}

impl PatchOperation {
    pub(crate) fn parts(&self) -> Parts<'_>
        ensures { parts_view result ≡ parts_of (operation_of self.now) }
    {
        match self {
            PatchOperation::Add(operation) => operation.parts(),
            PatchOperation::Remove(operation) => operation.parts(),
            PatchOperation::Replace(operation) => operation.parts(),
            PatchOperation::Move(operation) => operation.parts(),
            PatchOperation::Copy(operation) => operation.parts(),
            PatchOperation::Test(operation) => operation.parts(),
        }
    }

    /// Where the operation works: its `path`, also where it has a `from`.
    pub fn path(&self) -> Pointer<'_>
        ensures { tokens_of result ≡ path_of (operation_of self.now) }
    {
        self.parts().path.as_pointer()
    }

    /// Where the operation takes its value from: its `from`, where it has one.
    pub fn source(&self) -> Option<Pointer<'_>>
        ensures { option_map (λ p. tokens_of p) result ≡ from_of (operation_of self.now) }
    {
        match self.parts().from {
            Some(from) => Some(from.as_pointer()),
            None => None,
        }
    }

    /// A copy of the operation, refused for memory alone.
    pub fn clone(&self, alloc: Global) -> Result<PatchOperation, AllocError>
        ensures { IfOk result (λ copy. operation_of copy ≡ operation_of self.now) }
    {
        Ok(match self {
            PatchOperation::Add(operation) => PatchOperation::Add(operation.clone(alloc)?),
            PatchOperation::Remove(operation) => PatchOperation::Remove(operation.clone(alloc)?),
            PatchOperation::Replace(operation) => PatchOperation::Replace(operation.clone(alloc)?),
            PatchOperation::Move(operation) => PatchOperation::Move(operation.clone(alloc)?),
            PatchOperation::Copy(operation) => PatchOperation::Copy(operation.clone(alloc)?),
            PatchOperation::Test(operation) => PatchOperation::Test(operation.clone(alloc)?),
        })
    }
}
