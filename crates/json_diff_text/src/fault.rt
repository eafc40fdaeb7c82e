//! Why there is no patch.

ghost use Rattle.std.specs.Prelude.{◌≡◌};
ghost use Rattle.json_diff_text.specs.Faults.{as_first, as_from, as_then, as_to};

use json_text::TextFault;
use std::alloc::AllocError;
use thiserror::Error;

/// Why there is no patch between two texts.
#[derive(Debug, Drop, Error)]
pub enum DiffTextFault {
    /// The first text isn't read.
    #[error("from: {0}")]
    From(TextFault),
    /// The second text isn't read.
    #[error("to: {0}")]
    To(TextFault),
    /// No memory was found.
    #[error("out of memory")]
    Memory(AllocError),
}

impl From<AllocError> for DiffTextFault {
    ghost use Rattle.std.specs.Prelude.{◌≡◌};
    ghost use Rattle.json_diff_text.specs.declared.fault.DiffTextFault.TheVariants.{Memory};

    ghost from_gives = { λ error fault. fault ≡ Memory error };

    fn from(error: AllocError) -> DiffTextFault {
        DiffTextFault::Memory(error)
    }
}

/// The fault where the first text isn't read.
pub(crate) fn from_fault(fault: TextFault) -> DiffTextFault
    ensures { result ≡ as_from fault }
{
    match fault {
        TextFault::Memory(failed) => DiffTextFault::Memory(failed),
        TextFault::NotJson => DiffTextFault::From(TextFault::NotJson),
        TextFault::TooDeep => DiffTextFault::From(TextFault::TooDeep),
    }
}

/// The fault where the second text isn't read.
pub(crate) fn to_fault(fault: TextFault) -> DiffTextFault
    ensures { result ≡ as_to fault }
{
    match fault {
        TextFault::Memory(failed) => DiffTextFault::Memory(failed),
        TextFault::NotJson => DiffTextFault::To(TextFault::NotJson),
        TextFault::TooDeep => DiffTextFault::To(TextFault::TooDeep),
    }
}

/// Why there is no merge patch of two.
#[derive(Debug, Drop, Error)]
pub enum BothTextFault {
    /// The text of the first merge patch isn't read.
    #[error("first: {0}")]
    First(TextFault),
    /// The text of the second merge patch isn't read.
    #[error("then: {0}")]
    Then(TextFault),
    /// No memory was found.
    #[error("out of memory")]
    Memory(AllocError),
}

impl From<AllocError> for BothTextFault {
    ghost use Rattle.std.specs.Prelude.{◌≡◌};
    ghost use Rattle.json_diff_text.specs.declared.fault.BothTextFault.TheVariants.{Memory};

    ghost from_gives = { λ error fault. fault ≡ Memory error };

    fn from(error: AllocError) -> BothTextFault {
        BothTextFault::Memory(error)
    }
}

/// The fault where the first merge patch isn't read.
pub(crate) fn first_fault(fault: TextFault) -> BothTextFault
    ensures { result ≡ as_first fault }
{
    match fault {
        TextFault::Memory(failed) => BothTextFault::Memory(failed),
        TextFault::NotJson => BothTextFault::First(TextFault::NotJson),
        TextFault::TooDeep => BothTextFault::First(TextFault::TooDeep),
    }
}

/// The fault where the second isn't read.
pub(crate) fn then_fault(fault: TextFault) -> BothTextFault
    ensures { result ≡ as_then fault }
{
    match fault {
        TextFault::Memory(failed) => BothTextFault::Memory(failed),
        TextFault::NotJson => BothTextFault::Then(TextFault::NotJson),
        TextFault::TooDeep => BothTextFault::Then(TextFault::TooDeep),
    }
}
