//! Whether operations are about what stands below a pointer alone.

ghost use Rattle.std.specs.Prelude.{◌↔◌, IsTrue};
ghost use Rattle.jsonptr.specs.Pointers.{tokens_of};
ghost use Rattle.jsonptr.specs.Text.{IsProperPrefix};
ghost use Rattle.json_patch_operation.specs.Operation.{operation_of, operations, operations_of};
ghost use Rattle.json_patch_operation.specs.Shared.{AreWithin, IsWithin};

use crate::operation::{Patch, PatchOperation};
use jsonptr::Pointer;

impl PatchOperation {
    /// Whether the operation's `path`, and its `from` where it has one, leads to somewhere below the
    /// section: whether each is the section's tokens and at least one more. Takes no memory.
    pub fn is_within(&self, section: Pointer<'_>) -> bool
        ensures { IsTrue result ↔ IsWithin (tokens_of section.entry) (operation_of self.now) }
    {
        let parts = self.parts();
        match parts.from {
            Some(from) => {
                is_inside(from.as_pointer(), section) && is_inside(parts.path.as_pointer(), section)
            }
            None => is_inside(parts.path.as_pointer(), section),
        }
    }
}

impl Patch {
    /// Whether each operation is within the section, as in an empty patch. Such a patch changes what
    /// stands at the section, and nothing elsewhere (`laws::locality`).
    ///
    /// ```rust
    /// let section = Pointer::parse("/ann")?;
    /// Ok(changes.is_within(section))
    /// // not where it has a `copy` from /bob/0 to /ann/x
    /// ```
    pub fn is_within(&self, section: Pointer<'_>) -> bool
        ensures { IsTrue result
            ↔ AreWithin (tokens_of section.entry) (operations_of self.now) }
    {
        for operation in &self.0 {
            if !operation.is_within(section) {
                return false;
            }
        }
        true
    }
}

/// Whether `path` is `from` and at least one more token: whether `from` is a proper prefix of it
/// (RFC 6902, section 4.4). So `/a/b` is inside `/a`; `/a` and `/ab` aren't.
pub fn is_inside(path: Pointer<'_>, from: Pointer<'_>) -> bool
    ensures { IsTrue result ↔ IsProperPrefix (tokens_of from.entry) (tokens_of path.entry) }
{
    match path.strip_prefix(from) {
        Some(rest) => !rest.is_root(),
        None => false,
    }
}
