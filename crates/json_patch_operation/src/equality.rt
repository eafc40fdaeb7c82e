//! Equality of operations and of patches.

ghost use Rattle.std.specs.Prelude.{◌≡◌, ◌↔◌, IsTrue, option_map};
ghost use Rattle.std.specs.Cmp.{on_equiv, on_per};
ghost use Rattle.std.specs.Cmp.Lexicographic.{lists_equiv, lists_per, pointwise};
ghost use Rattle.std.specs.Option.{option_eq};
ghost use Rattle.std.specs.Ordering.{on};
ghost use Rattle.serde_json.specs.View.{view};
ghost use Rattle.json_patch_operation.specs.Operation.{add_of, copy_of, move_of, operation_of, operations_of, remove_of};
ghost use Rattle.json_patch_operation.specs.Operation.{replace_of, test_of};
ghost use Rattle.json_patch_operation.specs.PartsView.{parts_view};
ghost use Rattle.json_patch_operation.specs.Same.{AreSameLists, AreSameOperations, AreSameParts};
ghost use Rattle.json_patch_document.specs.SameComputed.{same};
ghost use Rattle.json_patch_operation.specs.SameComputed.{same_operation, same_parts};
ghost use Rattle.json_patch_operation.specs.SameLaws.{operation_equivalence, operation_partial_equivalence};

use crate::operation::{
    AddOperation, CopyOperation, MoveOperation, Parts, Patch, PatchOperation, RemoveOperation,
    ReplaceOperation, TestOperation,
};
use json_patch_document::same_values;
use serde_json::Value;

fn same_parts(a: Parts<'_>, b: Parts<'_>) -> bool
    ensures computed { result ≡ same_parts (parts_view a.entry) (parts_view b.entry) }
    ensures same { IsTrue result ↔ AreSameParts (parts_view a.entry) (parts_view b.entry) }
{
    a.name == b.name && a.from == b.from && a.path == b.path && same_if(a.value, b.value)
}

fn same_if(a: Option<&Value>, b: Option<&Value>) -> bool
    ensures { result ≡ option_eq same (option_map (λ v. view v.now) a.entry)
        (option_map (λ v. view v.now) b.entry) }
{
    match (a, b) {
        (Some(x), Some(y)) => same_values(x, y),
        (None, None) => true,
        _ => false,
    }
}

/// Equal where the pointers are, and the values are the same.
impl PartialEq for AddOperation {
    ghost eq = { λ a b. same_operation (add_of a) (add_of b) };

    ghost laws = { on_per add_of operation_partial_equivalence };

    fn eq(&self, other: &AddOperation) -> bool
        ensures eq_value { result ≡ same_operation (add_of self.now) (add_of other.now) }
        ensures same { IsTrue result ↔ AreSameOperations (add_of self.now) (add_of other.now) }
    {
        same_parts(self.parts(), other.parts())
    }
}

impl Eq for AddOperation {
    ghost laws = { on_equiv add_of operation_equivalence };
}

/// Equal where the pointers are.
impl PartialEq for RemoveOperation {
    ghost eq = { λ a b. same_operation (remove_of a) (remove_of b) };

    ghost laws = { on_per remove_of operation_partial_equivalence };

    fn eq(&self, other: &RemoveOperation) -> bool
        ensures eq_value { result ≡ same_operation (remove_of self.now) (remove_of other.now) }
        ensures same { IsTrue result ↔ AreSameOperations (remove_of self.now) (remove_of other.now) }
    {
        same_parts(self.parts(), other.parts())
    }
}

impl Eq for RemoveOperation {
    ghost laws = { on_equiv remove_of operation_equivalence };
}

/// Equal where the pointers are, and the values are the same.
impl PartialEq for ReplaceOperation {
    ghost eq = { λ a b. same_operation (replace_of a) (replace_of b) };

    ghost laws = { on_per replace_of operation_partial_equivalence };

    fn eq(&self, other: &ReplaceOperation) -> bool
        ensures eq_value { result ≡ same_operation (replace_of self.now) (replace_of other.now) }
        ensures same { IsTrue result ↔ AreSameOperations (replace_of self.now) (replace_of other.now) }
    {
        same_parts(self.parts(), other.parts())
    }
}

impl Eq for ReplaceOperation {
    ghost laws = { on_equiv replace_of operation_equivalence };
}

/// Equal where the pointers are.
impl PartialEq for MoveOperation {
    ghost eq = { λ a b. same_operation (move_of a) (move_of b) };

    ghost laws = { on_per move_of operation_partial_equivalence };

    fn eq(&self, other: &MoveOperation) -> bool
        ensures eq_value { result ≡ same_operation (move_of self.now) (move_of other.now) }
        ensures same { IsTrue result ↔ AreSameOperations (move_of self.now) (move_of other.now) }
    {
        same_parts(self.parts(), other.parts())
    }
}

impl Eq for MoveOperation {
    ghost laws = { on_equiv move_of operation_equivalence };
}

/// Equal where the pointers are.
impl PartialEq for CopyOperation {
    ghost eq = { λ a b. same_operation (copy_of a) (copy_of b) };

    ghost laws = { on_per copy_of operation_partial_equivalence };

    fn eq(&self, other: &CopyOperation) -> bool
        ensures eq_value { result ≡ same_operation (copy_of self.now) (copy_of other.now) }
        ensures same { IsTrue result ↔ AreSameOperations (copy_of self.now) (copy_of other.now) }
    {
        same_parts(self.parts(), other.parts())
    }
}

impl Eq for CopyOperation {
    ghost laws = { on_equiv copy_of operation_equivalence };
}

/// Equal where the pointers are, and the values are the same.
impl PartialEq for TestOperation {
    ghost eq = { λ a b. same_operation (test_of a) (test_of b) };

    ghost laws = { on_per test_of operation_partial_equivalence };

    fn eq(&self, other: &TestOperation) -> bool
        ensures eq_value { result ≡ same_operation (test_of self.now) (test_of other.now) }
        ensures same { IsTrue result ↔ AreSameOperations (test_of self.now) (test_of other.now) }
    {
        same_parts(self.parts(), other.parts())
    }
}

impl Eq for TestOperation {
    ghost laws = { on_equiv test_of operation_equivalence };
}

/// Equal where the kinds and the operations are.
impl PartialEq for PatchOperation {
    ghost eq = { λ a b. same_operation (operation_of a) (operation_of b) };

    ghost laws = { on_per operation_of operation_partial_equivalence };

    fn eq(&self, other: &PatchOperation) -> bool
        ensures eq_value { result ≡ same_operation (operation_of self.now) (operation_of other.now) }
        ensures same { IsTrue result ↔ AreSameOperations (operation_of self.now) (operation_of other.now) }
    {
        same_parts(self.parts(), other.parts())
    }
}

impl Eq for PatchOperation {
    ghost laws = { on_equiv operation_of operation_equivalence };
}

/// Equal where the operations are, one by one.
impl PartialEq for Patch {
    ghost eq = { λ a b. pointwise (on operation_of same_operation) a.0.items b.0.items };

    ghost laws = { on_per (λ p. p.0.items)
        (lists_per (on_per operation_of operation_partial_equivalence)) };

    #[tactic(auto, using(crate::proofs::SameOperations::operations_say))]
    fn eq(&self, other: &Patch) -> bool
        ensures eq_value { result
            ≡ pointwise (on operation_of same_operation) self.now.0.items other.now.0.items }
        ensures same { IsTrue result
            ↔ AreSameLists (operations_of self.now) (operations_of other.now) }
    {
        self.0 == other.0
    }
}

impl Eq for Patch {
    ghost laws = { on_equiv (λ p. p.0.items)
        (lists_equiv (on_equiv operation_of operation_equivalence)) };
}
