//! Laws of merge patches that lead somewhere, as contracts of functions that do nothing.

ghost use Rattle.std.specs.Prelude.{◌≡◌, ◌≤◌, ◌⊎◌};
ghost use Rattle.serde_json.specs.Data.{Data};
ghost use Rattle.json_patch_document.specs.Document.{IsDocument};
ghost use Rattle.json_patch_merge.specs.Merged.{IsMerged};
ghost use Rattle.json_merge_diff.specs.Leads.{DoesBoth, IsPartOf, Resets, WantsNull};
ghost use Rattle.json_patch_limits.specs.OverLimits.{size};

/// Merge patches from one document to another.
pub fn leading()
    // A merge patch leads there that is part of each that does, or a null is wanted.
    ensures leads_or_wants { (d e : Data) → IsDocument d → IsDocument e
        → ((p : Data) × IsDocument p × IsMerged d p e
        × ((q : Data) → IsMerged d q e → IsPartOf p q)) ⊎ WantsNull d e }

    // Never both.
    ensures wants_none { (d e p : Data) → WantsNull d e → IsMerged d p e → ⊥ }

    // What is part of a document is no larger.
    ensures part_size { (p q : Data) → IsDocument p → IsDocument q → IsPartOf p q
        → size p ≤ size q }

    // Two that are part of each other are one. So only one merge patch is part of each.
    ensures part_of_each { (p q : Data) → IsDocument p → IsDocument q → IsPartOf p q
        → IsPartOf q p → p ≡ q }
{}

/// Two merge patches in turn.
pub fn composing()
    // One merge patch does what both do, or the first resets what the second changes.
    ensures does_or_resets { (p q : Data) → IsDocument p → IsDocument q
        → ((r : Data) × IsDocument r × DoesBoth p q r) ⊎ Resets p q }

    // Never both.
    ensures resets_none { (p q r : Data) → IsDocument p → IsDocument q → IsDocument r
        → Resets p q → DoesBoth p q r → ⊥ }
{}
