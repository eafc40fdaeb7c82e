//! The text before a change, in proofs alone.

ghost use Rattle.std.specs.Prelude.{◌≡◌, List, ℕ};
ghost use Rattle.std.specs.Borrow.{ftrue};

use crate::kept::KeptText;
use std::marker::Model;

/// The text before a change. It takes no bytes: the pieces lead back there, and the clauses say where that
/// is.
#[derive(Drop)]
pub(crate) struct Before {
    pub ghost text: { List ℕ },
}

impl Model for Before {
    ghost also_owns = { λ _. ftrue };
}

impl Before {
    /// The text as it is.
    pub(crate) fn of(_kept: &KeptText) -> Before
        ensures { result.text ≡ _kept.now.text }
    {
        Before {}
    }
}
