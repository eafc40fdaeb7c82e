//! A document that strangers change: whatever they send, it is never deeper or larger than is allowed.

ghost use Rattle.std.specs.Prelude.{◌≡◌, ◌≤◌, ◌↔◌, IfErr, IfSome, IsSome, OnErr, OnOk};
ghost use Rattle.serde_json.specs.Data.{depth};
ghost use Rattle.serde_json.specs.View.{view};
ghost use Rattle.json_patch.specs.Document.{IsDocument};
ghost use Rattle.json_patch.specs.OverLimits.{size};
ghost use Rattle.json_patch.specs.Propositions.{IsDocument-prop};
ghost use Rattle.json_patch.specs.Fault.TheVariants.{Memory};
ghost use Rattle.json_patch_uses.specs.Guards.{IsFaultWithin, UpdatesWithin, of_limited};
ghost use Rattle.json_patch_uses.specs.declared.guarded.GuardFault.TheVariants.{NotApplied};

use json_patch::{
    Fault, LimitError, LimitFault, Limits, Patch, is_shallow, is_small, patch_within,
};
use serde_json::Value;
use std::alloc::{AllocError, Global};
use thiserror::Error;

/// Why a stranger's change isn't made.
#[derive(Debug, Drop, Error)]
pub enum GuardFault {
    /// An operation would put a value too deep, or copy too much.
    #[error("{0}")]
    Over(LimitError),
    /// The document would be too large.
    #[error("the document would be too large")]
    TooLarge,
    /// The text says no patch, or the document refuses it.
    #[error("{0}")]
    NotApplied(Fault),
}

impl From<Fault> for GuardFault {
    ghost from_gives = { λ error fault. fault ≡ NotApplied error };

    fn from(error: Fault) -> GuardFault {
        GuardFault::NotApplied(error)
    }
}

impl From<AllocError> for GuardFault {
    ghost from_gives = { λ error fault. fault ≡ NotApplied (Memory error) };

    fn from(error: AllocError) -> GuardFault {
        GuardFault::NotApplied(Fault::Memory(error))
    }
}

impl From<LimitFault> for GuardFault {
    ghost from_gives = { λ error fault. fault ≡ of_limited error };

    fn from(error: LimitFault) -> GuardFault {
        match error {
            LimitFault::Over(error) => GuardFault::Over(error),
            LimitFault::Patch(error) => GuardFault::NotApplied(Fault::from(error)),
        }
    }
}

/// A document whose numbers are 64-bit integers, of at most so many levels, and at most so large.
#[derive(Drop)]
pub struct Guarded {
    document: Value,
    levels: usize,
    most: usize,
    ghost whole: { IsDocument (view document) } by { IsDocument-prop (view document) },
    ghost shallow: { depth (view document) ≤ levels },
    ghost small: { size (view document) ≤ most },
}

impl Guarded {
    ghost use Rattle.json_patch_uses.specs.Guarded.{document_in, levels_in, most_in};

    /// The document within these limits, if it isn't past them.
    pub fn open(document: Value, levels: usize, most: usize) -> Option<Guarded>
        requires { IsDocument (view document) }
        ensures opened { IfSome result
            (λ g. (document_in g ≡ view document) × (levels_in g ≡ levels) × (most_in g ≡ most)) }
        ensures fits { IsSome result ↔ ((depth (view document) ≤ levels) × (size (view document) ≤ most)) }
    {
        if !is_shallow(&document, levels) || !is_small(&document, most) {
            return None;
        }
        Some(Guarded {
            document,
            levels,
            most,
        })
    }

    /// The document, which is never deeper or larger than it was opened for.
    pub fn document(&self) -> &Value
        ensures value { view result.now ≡ document_in self.now }
        ensures whole { IsDocument (document_in self.now) }
        ensures shallow { depth (document_in self.now) ≤ levels_in self.now }
        ensures small { size (document_in self.now) ≤ most_in self.now }
    {
        &self.document
    }

    /// Makes the changes that a stranger's text says, or none: they are made on a copy, so that a
    /// document that is too large never takes the place of this one.
    pub fn change(&mut self, alloc: Global, text: &str) -> Result<(), GuardFault>
        ensures changed { OnOk result (UpdatesWithin (levels_in self.old) (most_in self.old)
            (document_in self.old) text.now (document_in self.new)) }
        ensures fault { IfErr result (IsFaultWithin (levels_in self.old) (most_in self.old)
            (document_in self.old) text.now) }
        ensures limits { (levels_in self.new ≡ levels_in self.old) × (most_in self.new ≡ most_in self.old) }
        ensures unchanged { OnErr result (document_in self.new ≡ document_in self.old) }
    {
        let changes = Patch::from_str(alloc, text)?;
        let mut changed = self.document.clone()?;
        let limits = Limits {
            depth: self.levels,
            copied: self.most,
        };
        patch_within(alloc, &mut changed, changes.as_slice(), limits)?;
        if !is_small(&changed, self.most) {
            return Err(GuardFault::TooLarge);
        }
        self.document = changed;
        Ok(())
    }
}
