//! Laws of what a text says.

ghost use Rattle.std.specs.Prelude.{◌≡◌, ◌↔◌, ◌≤◌, ◌+◌, ℕ, List, Some, length, max};
ghost use Rattle.json.specs.Json.{Json, document};
ghost use Rattle.json.specs.Tree.{depth};
ghost use Rattle.jsonptr.specs.Text.{Pointer};
ghost use Rattle.json_text.specs.Added.{IsAdded};
ghost use Rattle.json_lexemes.specs.Skipped.{nesting};
ghost use Rattle.json_text.specs.Pointed.{IsWrittenAt};
ghost use Rattle.json_text.specs.Removed.{IsRemoved};
ghost use Rattle.json_text.specs.Replaced.{IsReplaced};
ghost use Rattle.json_lexemes.specs.Spelled.{IsShallowText, Says};

/// A text says one tree at most; its brackets nest as deep as the tree; and the toolchain's reader of
/// JSON accepts it exactly where it says a tree of at most 128 levels, and reads that tree.
pub fn texts()
    ensures one_tree { (text : List ℕ) (i j : Json) → Says text i → Says text j → i ≡ j }
    ensures nests { (text : List ℕ) (j : Json) → Says text j → nesting text ≡ depth j }
    ensures as_read { (text : List ℕ) (j : Json) → (document text ≡ Some j) ↔ IsShallowText text j }
{}

/// How deep a text nests that a change leaves: the pointer's tokens and the value's own levels reach no
/// deeper than the text did, or they tell how deep the new one nests at the most.
pub fn depths()
    ensures written { (text s : List ℕ) (j : Json) (P : Pointer) → Says text j
        → IsWrittenAt text j P s → length P + nesting s ≤ nesting text }
    ensures replaced { (text value new : List ℕ) (P : Pointer) → IsReplaced text P value new
        → nesting new ≤ max (nesting text) (length P + nesting value) }
    ensures removed { (text new : List ℕ) (P : Pointer) → IsRemoved text P new
        → nesting new ≤ nesting text }
    ensures added { (text value new : List ℕ) (P : Pointer) → IsAdded text P value new
        → nesting new ≤ max (nesting text) (length P + nesting value) }
{}
