//! The failure for a fault of a text.

ghost use Rattle.std.specs.Prelude.{◌≡◌};
ghost use Rattle.json_patch_text_bytes.specs.Failures.{as_document, as_patch, of_both_fault, of_diff_fault, of_fault, of_merge_fault, of_reading};

use json_diff_text::{BothTextFault, DiffTextFault};
use json_merge_text::MergeTextFault;
use json_patch::{LimitError, LimitKind};
use json_patch_bytes::failure::{Failure, kind_of_reading};
use json_patch_bytes::kinds::{NOT_JSON, TOO_DEEP};
use json_patch_text::{PatchTextFault, TextLimitFault};
use json_text::TextFault;

/// That of the document's text.
pub(crate) fn of_document(fault: TextFault) -> Failure
    ensures { result ≡ as_document fault }
{
    match fault {
        TextFault::NotJson => Failure::NoDocument(NOT_JSON),
        TextFault::TooDeep => Failure::NoDocument(TOO_DEEP),
        TextFault::Memory(_) => Failure::Memory,
    }
}

/// That of the patch's text.
fn of_patch(fault: TextFault) -> Failure
    ensures { result ≡ as_patch fault }
{
    match fault {
        TextFault::NotJson => Failure::NoPatch(0, NOT_JSON),
        TextFault::TooDeep => Failure::NoPatch(0, TOO_DEEP),
        TextFault::Memory(_) => Failure::Memory,
    }
}

/// That of a run, or of reading its patch.
pub(crate) fn of_reading(fault: PatchTextFault) -> Failure
    ensures { result ≡ of_reading fault }
{
    match fault {
        PatchTextFault::Document(fault) => of_document(fault),
        PatchTextFault::Patch(fault) => of_patch(fault),
        PatchTextFault::Unreadable(error) => Failure::NoPatch(
            error.operation.unwrap_or(0),
            kind_of_reading(&error.kind),
        ),
        PatchTextFault::Refused(error) => Failure::Refused(error),
        // Limits of at most 124 levels leave no such text.
        PatchTextFault::TooDeep { operation } => Failure::Over(LimitError {
            operation,
            kind: LimitKind::TooDeep,
        }),
        PatchTextFault::Memory(_) => Failure::Memory,
    }
}

/// That of a run within limits.
pub(crate) fn of_run(fault: TextLimitFault) -> Failure
    ensures { result ≡ of_fault fault }
{
    match fault {
        TextLimitFault::Over(error) => Failure::Over(error),
        TextLimitFault::Patch(fault) => of_reading(fault),
    }
}

/// That of a merge.
pub(crate) fn of_merge(fault: MergeTextFault) -> Failure
    ensures { result ≡ of_merge_fault fault }
{
    match fault {
        MergeTextFault::Document(fault) => of_document(fault),
        MergeTextFault::Patch(fault) => of_patch(fault),
        MergeTextFault::Memory(_) => Failure::Memory,
    }
}

/// That of a difference.
pub(crate) fn of_difference(fault: DiffTextFault) -> Failure
    ensures { result ≡ of_diff_fault fault }
{
    match fault {
        DiffTextFault::From(fault) => of_document(fault),
        DiffTextFault::To(fault) => of_patch(fault),
        DiffTextFault::Memory(_) => Failure::Memory,
    }
}

/// That of two merge patches that are joined.
pub(crate) fn of_joining(fault: BothTextFault) -> Failure
    ensures { result ≡ of_both_fault fault }
{
    match fault {
        BothTextFault::First(fault) => of_document(fault),
        BothTextFault::Then(fault) => of_patch(fault),
        BothTextFault::Memory(_) => Failure::Memory,
    }
}
