//! The newest change of a shared document that is handed in, taken back.

ghost use Rattle.std.specs.Prelude.{◌≡◌, ◌<◌, ◌-◌, OnErr, OnOk};
ghost use Rattle.json_patch_uses.specs.SharedDocuments.{AreKept, AtVersion, document_of, version_of};

use crate::{ChangeFault, SharedDocument};
use std::alloc::{AllocError, Global};

/// Takes the newest change back, so that the document is again what it was before it.
pub fn undo_newest(alloc: Global, shared: &mut SharedDocument) -> Result<(), AllocError>
    requires { 0 < version_of shared.old }
    ensures back { OnOk result (AtVersion shared.old (version_of shared.old - 1)
        (λ d. document_of shared.new ≡ d)) }
    ensures unchanged { OnErr result (AreKept shared.old shared.new) }
{
    let newest = shared.version() - 1;
    let Err(fault) = shared.undo(alloc, newest) else {
        return Ok(());
    };
    match fault {
        ChangeFault::Memory(error) => Err(error),
        ChangeFault::NoVersion => unreachable!(),
        ChangeFault::Conflict(_) => unreachable!(),
        ChangeFault::Refused(_) => unreachable!(),
    }
}
