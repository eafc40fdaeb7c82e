//! Settings of a service, of which each client holds a copy: what is sent when they change.

ghost use Rattle.std.specs.Prelude.{◌≡◌, IfOk, OnErr, OnOk};
ghost use Rattle.serde_json.specs.Data.{Data};
ghost use Rattle.serde_json.specs.View.{view};
ghost use Rattle.json_patch.specs.Document.{IsDocument};
ghost use Rattle.json_patch.specs.Merged.{IsMerged};
ghost use Rattle.json_patch_uses.specs.Sending.{Brings, HasDocument};

use json_merge_diff::{merge_both, merge_diff};
use json_patch::merge;
use serde_json::Value;
use std::alloc::{AllocError, Global};

/// What is sent to a client.
#[derive(Drop)]
pub enum Message {
    /// A merge patch, for the copy that the client holds.
    Changes(Value),
    /// The settings whole, where no merge patch leads to them.
    Whole(Value),
}

/// The message for a client whose copy is `from`, when the settings are `to`.
pub fn send(alloc: Global, from: &Value, to: &Value) -> Result<Message, AllocError>
    requires from { IsDocument (view from.now) }
    requires to { IsDocument (view to.now) }
    ensures brings { IfOk result (λ m. Brings m (view from.now) (view to.now)) }
    ensures document { IfOk result HasDocument }
{
    match merge_diff(alloc, from, to)? {
        Some(changes) => Ok(Message::Changes(changes)),
        None => Ok(Message::Whole(to.clone()?)),
    }
}

/// The message for a client that has missed two merge patches, after which the settings are `to`.
pub fn send_both(
    alloc: Global,
    first: &Value,
    then: &Value,
    to: &Value,
) -> Result<Message, AllocError>
    requires first { IsDocument (view first.now) }
    requires then { IsDocument (view then.now) }
    requires to { IsDocument (view to.now) }
    ensures brings { IfOk result (λ m. (d c : Data) → IsDocument d → IsDocument c
        → IsMerged d (view first.now) c → IsMerged c (view then.now) (view to.now)
        → Brings m d (view to.now)) }
    ensures document { IfOk result HasDocument }
{
    match merge_both(alloc, first, then)? {
        Some(changes) => Ok(Message::Changes(changes)),
        None => Ok(Message::Whole(to.clone()?)),
    }
}

/// Makes of a client's copy what a message brings.
pub fn receive(alloc: Global, copy: &mut Value, message: &Message) -> Result<(), AllocError>
    requires copy { IsDocument (view copy.old) }
    requires message { HasDocument message.now }
    ensures brought { OnOk result (Brings message.now (view copy.old) (view copy.new)) }
    ensures document { IsDocument (view copy.new) }
    ensures unchanged { OnErr result (view copy.new ≡ view copy.old) }
{
    match message {
        Message::Changes(changes) => merge(alloc, copy, changes),
        Message::Whole(settings) => {
            *copy = settings.clone()?;
            Ok(())
        }
    }
}
