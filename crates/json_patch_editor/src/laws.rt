//! Laws over the definitions, each the contract of a public function that does nothing: it is for
//! proofs to cite, and never called.

ghost use Rattle.std.specs.Prelude.{◌≡◌, ◌+◌, ◌++◌, ◌∷◌, ◌≤◌, [], List, All, length};
ghost use Rattle.json_patch_editor.specs.Commands.{AreVersions, Command, IsWholeCommand, Replies, RepliesInTurn, Reply};
ghost use Rattle.json_patch_editor.specs.History.{Lead};
ghost use Rattle.json_patch_editor.specs.Shown.{redo_patches, undo_patches, versions};
ghost use Rattle.json_patch_editor.specs.Versions.{Versions};

use crate::Editor;
use json_patch::laws;

/// One more command after a list of them.
pub fn one_more_reply()
    ensures { (vs ms ws : Versions) (cs : List Command) (rs : List Reply) (c : Command) (r : Reply)
        → RepliesInTurn vs cs rs ms → Replies ms c r ws
        → RepliesInTurn vs (cs ++ c ∷ []) (rs ++ r ∷ []) ws }
{}

/// A joined list has the replies of both parts.
pub fn joined_replies()
    ensures { (vs ms ws : Versions) (cs ds : List Command) (rs ss : List Reply)
        → RepliesInTurn vs cs rs ms → RepliesInTurn ms ds ss ws
        → RepliesInTurn vs (cs ++ ds) (rs ++ ss) ws }
{}

/// A list of commands has one list of replies, and leads to one state of the versions.
pub fn replied_once()
    ensures { (vs ws us : Versions) (cs : List Command) (rs ss : List Reply)
        → AreVersions vs → All IsWholeCommand cs
        → RepliesInTurn vs cs rs ws → RepliesInTurn vs cs ss us → (rs ≡ ss) × (ws ≡ us) }
{
    laws::runs();
}

/// Each list of commands has replies.
pub fn always_replied()
    ensures { (vs : Versions) (cs : List Command) → AreVersions vs → All IsWholeCommand cs
        → (rs : List Reply) × (ws : Versions) × RepliesInTurn vs cs rs ws × AreVersions ws }
{
    laws::runs();
}

/// At most `depth` versions stand beside the one here, after any commands.
pub fn versions_stay_bounded()
    ensures { (vs ws : Versions) (cs : List Command) (rs : List Reply)
        → length vs.before + length vs.after ≤ vs.depth → RepliesInTurn vs cs rs ws
        → length ws.before + length ws.after ≤ ws.depth }
{}

/// The versions of an editor are those to which the patches that it stores lead, one after another,
/// away from its document. There are at most as many as it was opened for.
pub fn stored_patches_lead(editor: &Editor)
    ensures before { Lead (versions editor.now).here (undo_patches editor.now)
        (versions editor.now).before }
    ensures after { Lead (versions editor.now).here (redo_patches editor.now)
        (versions editor.now).after }
    ensures bounded { length (versions editor.now).before + length (versions editor.now).after
        ≤ (versions editor.now).depth }
    ensures documents { AreVersions (versions editor.now) }
{
    laws::runs();
}
