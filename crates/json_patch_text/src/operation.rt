//! The operations of a patch's text.

ghost use Rattle.std.specs.Prelude.{◌≡◌};
ghost use Rattle.jsonptr.specs.Pointers.{tokens_of};
ghost use Rattle.json_patch_text.specs.TextOperations.{place_of};

use jsonptr::{Pointer, PointerBuf};

/// An operation of a patch's text (RFC 6902, section 4), with its value as it is written there.
#[derive(Drop)]
pub(crate) enum TextOperation<'a> {
    /// `path` and `value`
    Add(PointerBuf, &'a str),
    /// `path`
    Remove(PointerBuf),
    /// `path` and `value`
    Replace(PointerBuf, &'a str),
    /// `from` and `path`
    Move(PointerBuf, PointerBuf),
    /// `from` and `path`
    Copy(PointerBuf, PointerBuf),
    /// `path` and `value`
    Test(PointerBuf, &'a str),
}

impl TextOperation<'_> {
    /// Its `path`.
    pub(crate) fn path(&self) -> Pointer<'_>
        ensures { tokens_of result ≡ place_of self.now }
    {
        match self {
            TextOperation::Add(path, _)
            | TextOperation::Remove(path)
            | TextOperation::Replace(path, _)
            | TextOperation::Move(_, path)
            | TextOperation::Copy(_, path)
            | TextOperation::Test(path, _) => path.as_pointer(),
        }
    }

    /// Whether it may put a value beside others.
    pub(crate) fn is_addition(&self) -> bool {
        matches!(
            self,
            TextOperation::Add(_, _) | TextOperation::Move(_, _) | TextOperation::Copy(_, _)
        )
    }
}
