//! Laws of what operations leave of a tree, as the clauses of functions that do nothing.

ghost use Rattle.std.specs.Prelude.{◌≡◌, ◌⊎◌, ◌↔◌, ◌∷◌, ◌≤◌, ◌<◌, ◌*◌, ◌++◌, [], ℕ, List, Option, Some, length, option_map, take};
ghost use Rattle.json.specs.Json.{Json, max_depth};
ghost use Rattle.jsonptr.specs.Text.{Pointer};
ghost use Rattle.serde_json.specs.Data.{Data};
ghost use Rattle.serde_json.specs.Read.{of_json};
ghost use Rattle.json_patch_document.specs.ChangeComputed.{pointee, after_add, after_remove, after_replace};
ghost use Rattle.json_patch_document.specs.Document.{IsDocument};
ghost use Rattle.json_patch_edit.specs.Step.{Leaves};
ghost use Rattle.json_patch_laws.specs.Inverse.{ArePlain};
ghost use Rattle.json_patch_laws.specs.Run.{Accepts, RefusesAt};
ghost use Rattle.json_patch_operation.specs.Operation.{Operation};
ghost use Rattle.json_patch_limits.specs.declared.limits.LimitKind.{LimitKind};
ghost use Rattle.json_patch_limits.specs.declared.limits.LimitKind.TheVariants.{TooDeep};
ghost use Rattle.json_patch_limits.specs.declared.limits.Limits.{Limits};
ghost use Rattle.json_patch_operation.specs.PatchValue.{ReadsPatch, RefusesPatch};
ghost use Rattle.json_patch_operation.specs.declared.read_error.ReadKind.{ReadKind};
ghost use Rattle.json_patch_operation.specs.declared.error.PatchErrorKind.{PatchErrorKind};
ghost use Rattle.json_patch_text.specs.Changed.{added, removed, replaced};
ghost use Rattle.json_patch_text.specs.Made.{AreMadeIn};
ghost use Rattle.json_patch_text.specs.Operations.{TreeOperation, ReadsTreePatch, SaysOperations, all_under, test, under};
ghost use Rattle.json_patch_text.specs.Inverses.{IsTreeInverse, Undoes};
ghost use Rattle.json_patch_text.specs.Run.{AcceptsTree, RefusesTextAt, RefusesTreeAt};
ghost use Rattle.json_patch_text.specs.Shallow.{AllPutWithin, IsNeverTooDeep};
ghost use Rattle.json_patch_text.specs.Within.{AreMadeWithin, IsFaultWithin, IsPatchedWithin, IsTextOver, IsTextOverAt, IsTextWithin};
ghost use Rattle.json_patch_text.specs.declared.fault.PatchTextFault.TheVariants as PatchTextFault;
ghost use Rattle.json_patch_text.specs.declared.operation.TextOperation.{TextOperation};
ghost use Rattle.json_lexemes.specs.Skipped.{nesting};
ghost use Rattle.json_lexemes.specs.Spelled.{Says};
ghost use Rattle.json_reading.specs.Reading.{Reading};
ghost use Rattle.json_reading.specs.Same.{SameTree};
ghost use Rattle.json_reading.specs.Trees.{data_of};
ghost use Rattle.json_text.specs.Pointed.{IsTight, IsWrittenAt, tree_at};

/// What a change leaves of a tree is what it leaves of the tree's document, under each reading, and
/// nothing where it leaves nothing.
pub fn changes()
    // Where a pointer leads.
    ensures pointee { (r : Reading) (P : Pointer) (j : Json)
        → pointee (data_of r j) P ≡ option_map (data_of r) (tree_at P j) }

    // A replacement.
    ensures replaced { (r : Reading) (P : Pointer) (w j : Json)
        → after_replace (data_of r j) P (data_of r w)
        ≡ option_map (data_of r) (replaced P w j) }

    // An addition.
    ensures added { (r : Reading) (P : Pointer) (w j : Json)
        → after_add (data_of r j) P (data_of r w) ≡ option_map (data_of r) (added P w j) }

    // A removal.
    ensures removed { (r : Reading) (P : Pointer) (j : Json)
        → after_remove (data_of r j) P ≡ option_map (data_of r) (removed P j) }
{}

/// Lists of operations.
pub fn runs()
    // A list is accepted with an end, or refused at one operation.
    ensures ends { (i : Json) (ops : List TreeOperation) → ((j : Json) × AcceptsTree i ops j)
        ⊎ ((k : ℕ) × (kind : PatchErrorKind) × RefusesTreeAt i ops k kind) }

    // It is not both.
    ensures not_both { (i j : Json) (ops : List TreeOperation) (k : ℕ) (kind : PatchErrorKind)
        → AcceptsTree i ops j → RefusesTreeAt i ops k kind → ⊥ }

    // Its ends are the same.
    ensures one_end { (i j k : Json) (ops : List TreeOperation)
        → AcceptsTree i ops j → AcceptsTree i ops k → SameTree j k }

    // It is refused at one operation, for one kind.
    ensures one_refusal { (i : Json) (ops : List TreeOperation) (k l : ℕ)
        (kind other : PatchErrorKind) → RefusesTreeAt i ops k kind → RefusesTreeAt i ops l other
        → (l ≡ k) × (other ≡ kind) }

    // A `test` is accepted exactly where its value is the same as what stands there.
    ensures tests { (i w : Json) (P : Pointer) → AcceptsTree i (test P w ∷ []) i
        ↔ ((v : Json) × (tree_at P i ≡ Some v) × SameTree v w) }
{}

/// Operations within limits.
pub fn limits()
    // A text and the n bytes that its operations cost are within the limits, or over them in one way.
    ensures within_or_over { (l : Limits) (most n : ℕ) (text : List ℕ)
        → (IsTextWithin l most text × (n ≤ most))
        ⊎ ((kind : LimitKind) × IsTextOver l most text n kind) }
    ensures over_alone { (l : Limits) (most n : ℕ) (text : List ℕ) (kind : LimitKind)
        → IsTextOver l most text n kind → IsTextWithin l most text → n ≤ most → ⊥ }
    ensures one_kind { (l : Limits) (most n : ℕ) (text : List ℕ) (kind other : LimitKind)
        → IsTextOver l most text n kind → IsTextOver l most text n other → other ≡ kind }

    // What is made within the limits is made, and is within them, as is its cost.
    ensures made { (l : Limits) (most n : ℕ) (text new : List ℕ) (os : List TextOperation)
        → AreMadeWithin l most text os new n
        → AreMadeIn text os new × IsTextWithin l most new × (n ≤ most) }

    // No operation up to the one that is over is refused.
    ensures not_refused { (l : Limits) (most : ℕ) (text : List ℕ) (os : List TextOperation)
        (ops : List TreeOperation) (k n : ℕ) (kind : LimitKind) (other : PatchErrorKind)
        → IsTextOverAt l most text os ops k kind → RefusesTextAt text ops n other → k < n }

    // One that leaves too deep a text is never made within the limits.
    ensures deep_last { (l : Limits) (most : ℕ) (text left : List ℕ) (os : List TextOperation)
        (ops : List TreeOperation) (k m n : ℕ) → IsTextOverAt l most text os ops k TooDeep
        → AreMadeWithin l most text (take n os) left m → n ≤ k }

    // With limits of at most 128 levels no text on the way is too deep to be read.
    ensures readable { (l : Limits) (text patch : List ℕ) (k : ℕ) → l.depth ≤ max_depth
        → IsFaultWithin l text patch (PatchTextFault.TooDeep k) → ⊥ }

    // Where nothing is moved or copied, and no value is put deeper than the text may nest, no text on
    // the way is too deep.
    ensures never { (levels : ℕ) (text patch : List ℕ) (ops : List TreeOperation)
        → SaysOperations patch ops → AllPutWithin levels ops → nesting text ≤ levels
        → levels ≤ max_depth → IsNeverTooDeep levels text patch }

    // Nor of a patch that was made within so many levels.
    ensures tried { (l : Limits) (levels : ℕ) (text patch new : List ℕ) (i : Json) → Says text i
        → IsPatchedWithin l text patch new → l.depth ≤ levels → levels ≤ max_depth
        → IsNeverTooDeep levels text patch }
{}

/// Patches as trees.
pub fn patches()
    // A tree that reads as a patch does so under each reading.
    ensures read_under_each { (p : Json) (ops : List TreeOperation) → ReadsTreePatch p ops
        → (r : Reading) → ReadsPatch (data_of r p) (all_under r ops) }

    // Each tree reads as a patch, or is refused with one number and for one kind, under each
    // reading.
    ensures read_or_refused { (p : Json) → ((ops : List TreeOperation) × ReadsTreePatch p ops)
        ⊎ ((k : Option ℕ) × (kind : ReadKind) × ((r : Reading) → RefusesPatch (data_of r p) k kind)) }

    // A text says one list of operations at most.
    ensures one_patch { (text : List ℕ) (ops others : List TreeOperation) → SaysOperations text ops
        → SaysOperations text others → others ≡ ops }
{}

/// Trees i and p of a document and a patch whose numbers are all whole ones of 64 bits, so that they are
/// read as the document d and the operations os.
pub fn whole_numbers()
    // Where both are accepted, they lead to one document.
    ensures accepted_alike { (i j p : Json) (d v e : Data) (ops : List TreeOperation)
        (os : List Operation) → of_json i ≡ Some d → IsDocument d → of_json p ≡ Some v
        → IsDocument v → ReadsTreePatch p ops → ReadsPatch v os → AcceptsTree i ops j
        → Accepts d os e → (r : Reading) → data_of r j ≡ e }

    // Where the trees are refused, so are these, at the same operation and for the same kind.
    ensures refused_alike { (i p : Json) (d v : Data) (ops : List TreeOperation)
        (os : List Operation) (k : ℕ) (kind : PatchErrorKind) → of_json i ≡ Some d → IsDocument d
        → of_json p ≡ Some v → IsDocument v → ReadsTreePatch p ops → ReadsPatch v os
        → RefusesTreeAt i ops k kind → RefusesAt d os k kind }
{}

/// Values as they are written.
pub fn values()
    // Of a text with no whitespace around it all is put in, byte by byte, where it is added.
    ensures as_written { (s put : List ℕ) (w : Json) → IsTight s → IsWrittenAt s w [] put
        → put ≡ s }
{}

/// What undoes operations on a tree.
pub fn inverses()
    // Of no operation it is none.
    ensures first { (i : Json) → IsTreeInverse i [] [] }

    // With each operation that is made, what undoes it comes in front.
    ensures later { (i m n : Json) (ops I B : List TreeOperation) (o : TreeOperation)
        → AcceptsTree i ops m → ((r : Reading) → Leaves (data_of r m) (under r o) (data_of r n))
        → IsTreeInverse i ops I → Undoes m o B
        → AcceptsTree i (ops ++ o ∷ []) n × IsTreeInverse i (ops ++ o ∷ []) (B ++ I) }

    // It leads back, and has at most two operations for each.
    ensures leads_back { (i j : Json) (ops I : List TreeOperation) → AcceptsTree i ops j
        → IsTreeInverse i ops I → AcceptsTree j I i }
    ensures short { (i j : Json) (ops I : List TreeOperation) → AcceptsTree i ops j
        → IsTreeInverse i ops I → length I ≤ 2 * length ops }

    // It adds, removes and replaces alone, and has no `-` for a place in an array.
    ensures plain { (i j : Json) (ops I : List TreeOperation) → AcceptsTree i ops j
        → IsTreeInverse i ops I → (r : Reading) → ArePlain (data_of r j) (all_under r I) }
{}
