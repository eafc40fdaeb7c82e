//! The part of a document that a list of operations is about.

ghost use Rattle.std.specs.Prelude.{ℕ, List, IfNone, IfSome};
ghost use Rattle.jsonptr.specs.Pointers.{tokens_of};
ghost use Rattle.json_patch_operation.specs.Operation.{operation_of, operations};
ghost use Rattle.json_patch_operation.specs.Shared.{IsShared, IsWithin};
ghost use Rattle.json_patch_laws.specs.SharedComputed.{IsLongest};

use json_patch_operation::PatchOperation;
use jsonptr::Pointer;

/// The pointer of the tokens that begin the parent of each pointer of the operations.
pub(crate) fn shared_pointer(patch: &[PatchOperation]) -> Option<Pointer<'_>>
    ensures shared { IfSome result (λ p. IsShared (operations patch.now) (tokens_of p)) }
    ensures none { IfNone result ((S : List (List ℕ)) → ¬ IsShared (operations patch.now) S) }
{
    let (first, rest) = patch.split_first()?;
    let mut shared = parent_of(first)?;
    for operation in rest {
        shared = shared.shared_with(parent_of(operation)?);
    }
    Some(shared)
}

/// The pointer of the tokens that begin the parent of each pointer of the operation.
#[tactic(auto, using(json_patch_laws::proofs::SharedTokens::even_if_none, json_patch_laws::proofs::SharedTokens::root_within, json_patch_laws::proofs::SharedTokens::parent_longest))]
fn parent_of(operation: &PatchOperation) -> Option<Pointer<'_>>
    ensures shared { IfSome result
        (λ p. IsLongest (λ T. IsWithin T (operation_of operation.now)) (tokens_of p)) }
    ensures none { IfNone result
        ((T : List (List ℕ)) → ¬ IsWithin T (operation_of operation.now)) }
{
    let (parent, _last) = operation.path().split_back()?;
    match operation.source() {
        Some(from) => {
            let (source, _last) = from.split_back()?;
            Some(parent.shared_with(source))
        }
        None => Some(parent),
    }
}
