//! A change that is made only to the version of a document that it was meant for.

ghost use Rattle.std.specs.Prelude.{◌≡◌, IfErr, OnErr, OnOk};
ghost use Rattle.serde_json.specs.View.{view};
ghost use Rattle.json_patch.specs.Document.{IsDocument};
ghost use Rattle.json_patch.specs.Operation.{AreWhole, operations_of};
ghost use Rattle.json_patch.specs.Run.{Accepts};
ghost use Rattle.json_patch_uses.specs.Versioned.{HasVersion, IsVersionFault};
ghost use Rattle.json_patch_uses.specs.declared.versioned.VersionFault.TheVariants.{Memory};

use json_patch::jsonptr::PointerBuf;
use json_patch::{Patch, PatchError, PatchFault, PatchOperation, TestOperation, laws, patch};
use serde_json::Value;
use std::alloc::{AllocError, Global};
use thiserror::Error;

/// Why a change wasn't made.
#[derive(Debug, Drop, Error)]
pub enum VersionFault {
    /// The document has another version, or none.
    #[error("the document has another version")]
    Stale,
    /// An operation was refused.
    #[error("{0}")]
    Refused(PatchError),
    /// A growth of memory was refused.
    #[error("out of memory")]
    Memory(AllocError),
}

impl From<AllocError> for VersionFault {
    ghost from_gives = { λ error fault. fault ≡ Memory error };

    fn from(error: AllocError) -> VersionFault {
        VersionFault::Memory(error)
    }
}

/// Makes the changes if the member `version` of the document is this one.
pub fn update_version(
    alloc: Global,
    doc: &mut Value,
    version: u64,
    mut changes: Patch,
) -> Result<(), VersionFault>
    requires document { IsDocument (view doc.old) }
    requires whole { AreWhole (operations_of changes) }
    ensures updated { OnOk result (HasVersion (view doc.old) version
        × Accepts (view doc.old) (operations_of changes) (view doc.new)) }
    ensures fault { IfErr result
        (IsVersionFault (view doc.old) version (operations_of changes)) }
    ensures unchanged { OnErr result (view doc.new ≡ view doc.old) }
    ensures document { IsDocument (view doc.new) }
{
    laws::documents();
    let mut path = PointerBuf::new();
    path.push_back(alloc, "version")?;
    let value = Value::from(version);
    let test = PatchOperation::Test(TestOperation { path, value });
    if changes.0.insert(0, test).is_err() {
        return Err(VersionFault::Memory(AllocError));
    }
    match patch(alloc, doc, changes.as_slice()) {
        Ok(()) => Ok(()),
        Err(PatchFault::Memory(error)) => Err(VersionFault::Memory(error)),
        Err(PatchFault::Refused(error)) => {
            if error.operation == 0 {
                return Err(VersionFault::Stale);
            }
            Err(VersionFault::Refused(PatchError {
                operation: error.operation - 1,
                path: error.path,
                kind: error.kind,
            }))
        }
    }
}
