//! Settings that texts change, with a trail of what takes the changes back.

ghost use Rattle.std.specs.Prelude.{◌≡◌, ◌∷◌, [], IfErr, OnErr, OnOk};
ghost use Rattle.serde_json.specs.Data.{Data};
ghost use Rattle.serde_json.specs.View.{view};
ghost use Rattle.json_patch.specs.Document.{IsDocument};
ghost use Rattle.json_patch.specs.Operation.{operations_of};
ghost use Rattle.json_patch.specs.Propositions.{IsDocument-prop, IsTrail-prop};
ghost use Rattle.json_patch.specs.Run.{IsAccepted};
ghost use Rattle.json_patch.specs.Trails.{IsTrail};
ghost use Rattle.json_patch_uses.specs.Updates.{NoUpdate, Updates};

use json_patch::{Fault, Patch, PatchFault, apply_patches, laws, patch};
use serde_json::Value;
use std::alloc::{AllocError, Global};
use std::collections::VecDeque;

/// Settings, and the patches that take their changes back, the latest first.
#[derive(Drop)]
pub struct Settings {
    values: Value,
    trail: VecDeque<Patch>,
    ghost whole: { IsDocument (view values) } by { IsDocument-prop (view values) },
    ghost undoable: { IsTrail (view values) trail.items } by { IsTrail-prop (view values) trail.items },
}

impl Settings {
    ghost use Rattle.json_patch_uses.specs.Trail.{BeganAs, trail_of, values_of};

    /// Settings with no change so far.
    pub fn open(alloc: Global, values: Value) -> Settings
        requires { IsDocument (view values) }
        ensures values { values_of result ≡ view values }
        ensures began { BeganAs result (view values) }
    {
        Settings {
            values,
            trail: VecDeque::new(alloc),
        }
    }

    /// The settings.
    pub fn values(&self) -> &Value
        ensures { view result.now ≡ values_of self.now }
    {
        &self.values
    }

    /// Makes the changes that a text says, all or none, and puts what takes them back on the trail.
    pub fn change(&mut self, alloc: Global, text: &str) -> Result<(), Fault>
        ensures changed { OnOk result (Updates (values_of self.old) text.now (values_of self.new)) }
        ensures traced { OnOk result ((undo : Patch)
            × IsAccepted (values_of self.new) (operations_of undo) (values_of self.old)
            × (trail_of self.new ≡ undo ∷ trail_of self.old)) }
        ensures began { (first : Data) → BeganAs self.old first → BeganAs self.new first }
        ensures fault { IfErr result (NoUpdate (values_of self.old) text.now) }
        ensures values_kept { OnErr result (values_of self.new ≡ values_of self.old) }
        ensures trail_kept { OnErr result (trail_of self.new ≡ trail_of self.old) }
    {
        laws::trails();
        self.trail.reserve(1)?;
        let changes = Patch::from_str(alloc, text)?;
        let undo = apply_patches(alloc, &mut self.values, changes.as_slice())?;
        self.trail.push_front_reserved(undo);
        Ok(())
    }

    /// Takes every change back, the latest first. Where memory runs out, some are taken back.
    pub fn take_all_back(&mut self, alloc: Global) -> Result<(), AllocError>
        ensures emptied { OnOk result (trail_of self.new ≡ []) }
        ensures first { OnOk result
            ((first : Data) → BeganAs self.old first → values_of self.new ≡ first) }
        ensures began { (first : Data) → BeganAs self.old first → BeganAs self.new first }
    {
        laws::trails();
        while let Some(undo) = self.trail.front() {
            match patch(alloc, &mut self.values, undo.as_slice()) {
                Ok(()) => {
                    let _ = self.trail.pop_front();
                }
                Err(PatchFault::Refused(_)) => unreachable!(),
                Err(PatchFault::Memory(error)) => return Err(error),
            }
        }
        Ok(())
    }
}
