//! An example of RFC 6902, computed by the proof as well.

ghost use Rattle.std.specs.Prelude.{◌≡◌, IfOk, codes};
ghost use Rattle.serde_json.specs.Data.{member, no_members, object, string};
ghost use Rattle.serde_json.specs.View.{view};
ghost use Rattle.json_patch.specs.Refusal.{IfRefused};

use json_patch::jsonptr::PointerBuf;
use json_patch::{AddOperation, PatchFault, PatchOperation, laws, patch};
use serde_json::{Value, json};
use std::alloc::{AllocError, Global};

/// The document of the example.
fn example_document(alloc: Global) -> Result<Value, AllocError>
    ensures { IfOk result (λ d. view d
        ≡ object (member (codes "foo") (string (codes "bar")) no_members)) }
{
    json!(in alloc; {"foo": "bar"})
}

/// Adds a member to an object (RFC 6902, appendix A.1).
pub fn first_example(alloc: Global) -> Result<Value, PatchFault>
    ensures made { IfOk result (λ e. view e ≡ object (member (codes "baz") (string (codes "qux"))
        (member (codes "foo") (string (codes "bar")) no_members))) }
    ensures accepted { IfRefused result (λ _. ⊥) }
{
    laws::runs();
    let mut document = example_document(alloc)?;
    let mut path = PointerBuf::new();
    path.push_back(alloc, "baz")?;
    let value = json!(in alloc; "qux")?;
    let add = PatchOperation::Add(AddOperation { path, value });
    patch(alloc, &mut document, &[add])?;
    Ok(document)
}
