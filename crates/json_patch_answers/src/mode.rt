//! The modes, the words that name them, and how the program is called.

ghost use Rattle.std.specs.Prelude.{◌≡◌, ◌↔◌, Some, codes};
ghost use Rattle.json_patch_answers.specs.Modes.{word_of};
ghost use Rattle.json_patch_answers.specs.declared.mode.Mode.{Mode};

/// What the tool does with the two values of its input.
#[derive(Clone, Copy, Debug, PartialEq, Eq)]
pub enum Mode {
    /// Applies the second value, a JSON Patch (RFC 6902), to the first, and gives the new
    /// document.
    Patch,
    /// Does the same, and gives an array of the new document and the inverse.
    Record,
    /// Merges the second value, a merge patch (RFC 7396), into the first, and gives the new
    /// document.
    Merge,
    /// Has an editor of the first value do the commands of the second: an array of patches and of the
    /// words `undo` and `redo`. Gives an array of the new document and of a reply to each.
    Edit,
}

/// The mode that a word on the command line names, in exactly these letters.
pub fn mode_of(word: &str) -> Option<Mode>
    ensures { (mode : Mode) → (result ≡ Some mode) ↔ (word.now ≡ word_of mode) }
{
    match word {
        "patch" => Some(Mode::Patch),
        "record" => Some(Mode::Record),
        "merge" => Some(Mode::Merge),
        "edit" => Some(Mode::Edit),
        _ => None,
    }
}

/// How the program is called, without a line feed.
pub fn usage() -> &'static str
    ensures { result.now ≡ codes "usage: json_patch_tool patch|record|merge|edit" }
{
    "usage: json_patch_tool patch|record|merge|edit"
}
