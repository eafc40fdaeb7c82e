//! Undoing what a log says, without memory.

ghost use Rattle.std.specs.Prelude.{◌≡◌, ◌≤◌};
ghost use Rattle.serde_json.specs.Data.{Data};
ghost use Rattle.serde_json.specs.View.{view};
ghost use Rattle.json_patch_edit.specs.Exchange.{room};
ghost use Rattle.json_patch.specs.Logged.{AreRoomy, IsRoomy, IsUndone, LeadsBack};

use crate::log::{Change, Log, put_back};
use json_patch_edit::edits::{Edit, Names, make};
use serde_json::Value;

/// Undoes the changes, the last one first.
pub(crate) fn undo_all(doc: &mut Value, mut log: Log<'_>)
    requires roomy { AreRoomy (room log.names) log.changes.items }
    requires leads { (p : Data) × LeadsBack log.changes.items (view doc.old) p }
    ensures back { (p : Data) → LeadsBack log.entry.changes.items (view doc.old) p → view doc.new ≡ p }
{
    while let Some(change) = log.changes.pop() {
        undo_one(&mut log.names, doc, change);
    }
}

fn undo_one(names: &mut Names, doc: &mut Value, change: Change<'_>)
    requires roomy { IsRoomy (room names.old) change }
    requires undone { (p : Data) × IsUndone change (view doc.old) p }
    ensures undoes { (p : Data) → IsUndone change.entry (view doc.old) p → view doc.new ≡ p }
    ensures grows { room names.old ≤ room names.new }
{
    let mut value = change.value;
    if make(
        names,
        doc,
        change.path,
        Edit::Undo(change.found),
        &mut value,
    )
    .is_err()
    {
        unreachable!();
    }
    let Some(from) = change.from else {
        return;
    };
    put_back(names, doc, from, value);
}
