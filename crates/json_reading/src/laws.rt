//! Laws of readings, as the clauses of functions that do nothing.

ghost use Rattle.std.specs.Prelude.{◌≡◌, ◌≢◌, ◌↔◌, ℕ, List, Some, option_map};
ghost use Rattle.json.specs.Json.{Json};
ghost use Rattle.json.specs.Find as tree;
ghost use Rattle.serde_json.specs.Data.{Data};
ghost use Rattle.serde_json.specs.Find as document;
ghost use Rattle.serde_json.specs.Read.{of_json};
ghost use Rattle.json_number.specs.Numbers.{SameNumber};
ghost use Rattle.json_patch_document.specs.Document.{IsDocument};
ghost use Rattle.json_patch_document.specs.Same.{AreSame};
ghost use Rattle.json_reading.specs.Reading.{Reading};
ghost use Rattle.json_reading.specs.Same.{SameTree};
ghost use Rattle.json_reading.specs.Trees.{data_of};

/// Readings of numbers.
pub fn readings()
    // There is one.
    ensures exists { Reading }

    // Texts are of one number exactly where each reading has one for them.
    ensures read_alike { (s t : List ℕ) → SameNumber s t ↔ ((r : Reading) → r.of s ≡ r.of t) }

    // Texts that aren't of one number are told apart by some reading.
    ensures told_apart { (s t : List ℕ) → ¬ SameNumber s t → (r : Reading) × (r.of s ≢ r.of t) }
{}

/// What a tree is under a reading.
pub fn trees()
    // It is a document.
    ensures is_document { (r : Reading) (j : Json) → IsDocument (data_of r j) }

    // Where the tree is read as a document, it is that one.
    ensures as_read { (r : Reading) (j : Json) (d : Data) → of_json j ≡ Some d → IsDocument d
        → data_of r j ≡ d }

    // What stands at a name in the document is what stands there in the tree.
    ensures same_names { (r : Reading) (k : List ℕ) (j : Json)
        → document.get k (data_of r j) ≡ option_map (data_of r) (tree.get k j) }

    // What stands at a place in an array is what stands there in the tree.
    ensures same_places { (r : Reading) (i : ℕ) (j : Json)
        → document.at i (data_of r j) ≡ option_map (data_of r) (tree.at i j) }
{}

/// When two trees are the same.
pub fn same_trees()
    // They are the same exactly where they are under each reading.
    ensures same_under_each { (i j : Json)
        → SameTree i j ↔ ((r : Reading) → AreSame (data_of r i) (data_of r j)) }

    // Trees that aren't the same are told apart by one reading.
    ensures trees_told_apart { (i j : Json) → ¬ SameTree i j
        → (r : Reading) × ¬ AreSame (data_of r i) (data_of r j) }
{}
