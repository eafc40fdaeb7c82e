//! Laws over the definitions: the clauses of functions that do nothing, one for each subject. They
//! are for proofs to cite, and never called by a program.

ghost use Rattle.std.specs.Prelude.{◌≡◌, ◌↔◌, ◌+◌, ◌++◌, ℕ, List, Ok, Err, length, Some, ◌∷◌, [], ◌≤◌, ◌*◌, ◌⊎◌};
ghost use Rattle.std.specs.Prelude.{◌<◌, Bool, Option, ◌≢◌, false, take};
ghost use Rattle.serde_json.specs.Data.{Data, Members, depth, object};
ghost use Rattle.serde_json.specs.Find.{get_member, get};
ghost use Rattle.serde_json.specs.Written.{has_float};
ghost use Rattle.jsonptr.specs.Text.{Pointer};
ghost use Rattle.json_patch_apart.specs.Apart.{AreApart, Diverge};
ghost use Rattle.json_patch_edit.specs.Change.{IsReplaced, IsAdded, IsRemoved};
ghost use Rattle.json_patch_document.specs.ChangeComputed.{after_add, after_remove, after_replace, pointee};
ghost use Rattle.json_patch_document.specs.Document.{IsDocument, Segment, look, sight_of, value_at};
ghost use Rattle.json_patch_laws.specs.Inverse.{IsInverse, ArePlain, IsBlock};
ghost use Rattle.json_patch_edit.specs.InverseComputed.{block, inverse};
ghost use Rattle.json_patch_limits.specs.OverLimits.{AreShallow, IsNeverOver, IsNeverOverRecorded, IsOverFirst, NeverOver, copied_by, own_size, own_sizes, reach_of, size, values_size};
ghost use Rattle.json_patch_limits.specs.declared.limits.LimitKind.{LimitKind};
ghost use Rattle.json_patch_limits.specs.declared.limits.Limits.{Limits};
ghost use Rattle.json_patch_merge.specs.Merged.{IsMerged};
ghost use Rattle.json_patch_merge.specs.MergedComputed.{after_merge};
ghost use Rattle.json_patch_operation.specs.Operation.{AreWhole, IsWholeOp, Operation, operations, operations_of, path_of};
ghost use Rattle.json_patch_operation.specs.PatchValue.{ReadsPatch, written_value, written_fields, written_patch};
ghost use Rattle.json_patch_operation.specs.ReadLaws.{IsRead, IsReadAlone, IsReadLike, HasReadFault, HasReadFaultAlone};
ghost use Rattle.json_patch_operation.specs.ReadLaws.{HasReadFaultLike};
ghost use Rattle.json_patch_document.specs.Resolve.{Resolves, StandsAt, HasTarget};
ghost use Rattle.json_patch_laws.specs.Run.{Accepts, AreTests, Ends, IsAccepted, RefusesAt};
ghost use Rattle.json_patch_edit.specs.RunComputed.{fault, after_run, after_step};
ghost use Rattle.json_patch_document.specs.Same.{AreInOrder, AreSame, AreSameAt};
ghost use Rattle.json_patch_operation.specs.Same.{AreSameLists};
ghost use Rattle.json_patch_operation.specs.Shared.{AreWithin, IsShared, IsWithin, KeepsElsewhere, extend_all, strip, strip_all};
ghost use Rattle.json_patch_laws.specs.SharedComputed.{shared_tokens};
ghost use Rattle.json_patch_document.specs.Sight.{Sight};
ghost use Rattle.json_patch_edit.specs.Step.{Leaves, Refuses};
ghost use Rattle.json_patch_operation.specs.Texts.{NoDocument, NoPatch, SaysDocument, SaysPatch};
ghost use Rattle.json_patch_laws.specs.Trails.{AreEachWhole, IsTrail, LeadsTo};
ghost use Rattle.json_patch_operation.specs.declared.fault.Fault.{Fault};
ghost use Rattle.json_patch_operation.specs.declared.fault.Fault.TheVariants.{Memory};
ghost use Rattle.json_patch_operation.specs.declared.error.PatchErrorKind.{PatchErrorKind};
ghost use Rattle.json_patch_operation.specs.declared.read_error.ReadKind.{ReadKind};
ghost use Rattle.json_patch_operation.specs.declared.operation.Patch.{Patch};
ghost use Rattle.std.specs.declared.alloc.AllocError.{AllocError};

/// Single operations and runs.
#[tactic(auto, using(crate::proofs::Blocks::step_left, crate::proofs::Blocks::step_refused, crate::proofs::Blocks::run_accepted, crate::proofs::Blocks::run_refused, crate::proofs::Runs::ends, crate::proofs::Runs::accepts_document, crate::proofs::Blocks::joined, crate::proofs::Runs::refuses_first, crate::proofs::Runs::refuses_second, crate::proofs::Runs::tests_end))]
pub fn runs()
    // What an operation leaves is what is computed.
    ensures step_left { (d : Data) (op : Operation) → IsDocument d → IsWholeOp op
        → (e : Data) → Leaves d op e ↔ (after_step d op ≡ Ok e) }

    // An operation is refused where and as is computed.
    ensures step_refused { (d : Data) (op : Operation) → IsDocument d → IsWholeOp op
        → (kind : PatchErrorKind) → Refuses d op kind ↔ (after_step d op ≡ Err kind) }

    // A list is accepted where it is computed to be, with the end that is computed.
    ensures run_accepted { (d : Data) (ops : List Operation) → IsDocument d → AreWhole ops
        → (e : Data) → Accepts d ops e ↔ (after_run d ops ≡ Ok e) }

    // A list is refused where and as is computed.
    ensures run_refused { (d : Data) (ops : List Operation) → IsDocument d → AreWhole ops → (k : ℕ)
        (kind : PatchErrorKind) → RefusesAt d ops k kind ↔ (after_run d ops ≡ Err (fault k kind)) }

    // A list is accepted with one end, or refused at one operation and for one kind, and not both.
    ensures run_ends { (d : Data) (ops : List Operation) → IsDocument d → AreWhole ops
        → Ends d ops }

    // A run leads from a document to a document.
    ensures run_keeps_documents { (d : Data) (ops : List Operation) (e : Data) → IsDocument d
        → AreWhole ops → Accepts d ops e → IsDocument e }

    // A joined list is accepted where the first is and the second is on its end.
    ensures joined_accepted { (d : Data) (xs ys : List Operation) (e : Data)
        → Accepts d (xs ++ ys) e ↔ ((m : Data) × Accepts d xs m × Accepts m ys e) }

    // A joined list is refused where its first part is.
    ensures joined_refused_first { (d : Data) (xs ys : List Operation) (k : ℕ)
        (kind : PatchErrorKind) → RefusesAt d xs k kind → RefusesAt d (xs ++ ys) k kind }

    // A joined list is refused where its second part is, counted on from the first.
    ensures joined_refused_second { (d : Data) (xs ys : List Operation) (m : Data) (j : ℕ)
        (kind : PatchErrorKind) → Accepts d xs m → RefusesAt m ys j kind
        → RefusesAt d (xs ++ ys) (length xs + j) kind }

    // A list of tests ends where it began.
    ensures tests_change_nothing { (d : Data) (ops : List Operation) (e : Data)
        → AreTests ops → Accepts d ops e → e ≡ d }
{}

/// Operations within limits.
pub fn limits()
    // An operation leaves no document deeper than both the one that it is made on and the value that
    // it puts reaches.
    ensures step_depth { (d : Data) (op : Operation) (e : Data) (b : ℕ) → IsDocument d → IsWholeOp op
        → Leaves d op e → depth d ≤ b → reach_of d op ≤ b → depth e ≤ b }

    // What stands where a pointer leads has fewer levels than the document, by the pointer's tokens.
    ensures stands_depth { (d : Data) (P : Pointer) (c : Data) → StandsAt d P c
        → length P + depth c ≤ depth d }

    // On a document of at most so many levels an operation leaves one of more exactly where its
    // value reaches deeper: so an operation is too deep exactly where it has to be.
    ensures deeper_exactly { (d : Data) (op : Operation) (e : Data) (b : ℕ) → IsDocument d
        → IsWholeOp op → Leaves d op e → depth d ≤ b → (b < depth e) ↔ (b < reach_of d op) }

    // The document that is left is no larger than the one before, with what the operation holds
    // itself and what it copies.
    ensures step_size { (d : Data) (op : Operation) (e : Data) → IsDocument d → IsWholeOp op
        → Leaves d op e → size e ≤ size d + (own_size op + copied_by false d op) }

    // A merge patch leaves no document deeper than both the one that it is merged into and itself.
    ensures merge_depth { (d p e : Data) (b : ℕ) → IsDocument d → IsDocument p → IsDocument e
        → IsMerged d p e → depth d ≤ b → depth p ≤ b → depth e ≤ b }

    // Either no operation comes to be over the limits, or one is the first, in one way: in a run
    // that is recorded, and in one that isn't. With `run_ends` of `runs` exactly one answer fits:
    // accepted with one end, refused at one operation for one kind, or over at one for one kind.
    ensures over_or_never { (recorded : Bool) (l : Limits) (d : Data) (ops : List Operation)
        → IsDocument d → AreWhole ops → NeverOver recorded l d ops
        ⊎ ((k : ℕ) × (kind : LimitKind) × IsOverFirst recorded l d ops k kind) }

    // Where none comes to be over, no state of the run is deeper than the limit, if the document
    // isn't.
    ensures run_depth { (recorded : Bool) (l : Limits) (d : Data) (ops : List Operation) (k : ℕ)
        (m : Data) → IsDocument d → AreWhole ops → NeverOver recorded l d ops → depth d ≤ l.depth
        → Accepts d (take k ops) m → depth m ≤ l.depth }

    // Then the values of the inverse have no more levels than the limit either.
    ensures inverse_shallow { (recorded : Bool) (l : Limits) (d : Data) (ops I : List Operation)
        → IsDocument d → AreWhole ops → NeverOver recorded l d ops → depth d ≤ l.depth
        → IsInverse d ops I → AreShallow l.depth I }

    // A patch as a value has at most two levels more than its values: the array, and the objects.
    ensures written_depth { (b : ℕ) (ops : List Operation) → AreShallow b ops
        → depth (written_patch ops) ≤ b + 2 }

    // Where none comes to be over, the end is no larger than the document, with what the operations
    // hold and what the limit lets them copy.
    ensures run_size { (l : Limits) (d : Data) (ops : List Operation) (e : Data) → IsDocument d
        → AreWhole ops → IsNeverOver l d ops → Accepts d ops e
        → size e ≤ size d + (own_sizes ops + l.copied) }

    // Where none comes to be over in a recorded run, the end and the values of the inverse together
    // are no larger than that.
    ensures inverse_size { (l : Limits) (d : Data) (ops I : List Operation) (e : Data) → IsDocument d
        → AreWhole ops → IsNeverOverRecorded l d ops → Accepts d ops e → IsInverse d ops I
        → size e + values_size I ≤ size d + (own_sizes ops + l.copied) }
{}

/// Operations that are about one part of a document: they change that part alone, and as the
/// operations without the shared tokens change it.
#[tactic(auto, using(crate::proofs::Locality::local_leaves, crate::proofs::Locality::local_refuses, crate::proofs::Locality::location_stays, crate::proofs::Locality::refused_alike, crate::proofs::SharedTokens::shared_one))]
pub fn locality()
    // Where the operation without the shared tokens is accepted on what stands there, the operation
    // is accepted on the document, and puts what that leaves in its place.
    ensures local_step { (d : Data) (S : Pointer) (b : Data) (op : Operation) → IsDocument d
        → IsWholeOp op → StandsAt d S b → IsWithin S op → (e : Data) → Leaves b (strip S op) e
        → (x : Data) × IsReplaced d S e x × Leaves d op x }

    // Where the operation without the shared tokens is refused on what stands there, the operation
    // is refused on the document, for the same kind.
    ensures local_refusal { (d : Data) (S : Pointer) (b : Data) (op : Operation) → IsDocument d
        → IsWholeOp op → StandsAt d S b → IsWithin S op → (kind : PatchErrorKind)
        → Refuses b (strip S op) kind → Refuses d op kind }

    // After each accepted run the shared tokens resolve to the same location as before.
    ensures location_stays { (d : Data) (S : Pointer) (L : List Segment) (b : Data)
        (ops : List Operation) (x : Data) → IsDocument d → AreWhole ops → Resolves d S L b
        → AreWithin S ops → Accepts d ops x → (c : Data) × Resolves x S L c }

    // A list is accepted on the document where it is accepted, without the shared tokens, on what
    // stands there, and its end is the document with that end in its place.
    ensures local_run { (d : Data) (S : Pointer) (b : Data) (ops : List Operation) → IsDocument d
        → AreWhole ops → StandsAt d S b → AreWithin S ops → (x : Data) → Accepts d ops x
        ↔ ((e : Data) × Accepts b (strip_all S ops) e × IsReplaced d S e x) }

    // A list changes what stands at the tokens that it shares, and nothing elsewhere: nothing at
    // all where these lead nowhere.
    ensures elsewhere_kept { (d : Data) (S : Pointer) (ops : List Operation) (x : Data)
        → IsDocument d → AreWhole ops → AreWithin S ops → Accepts d ops x → KeepsElsewhere S d x }

    // Where the one is refused, so is the other, at the same number and for the same kind.
    ensures local_run_refused { (d : Data) (S : Pointer) (b : Data) (ops : List Operation)
        → IsDocument d → AreWhole ops → StandsAt d S b → AreWithin S ops → (k : ℕ)
        (kind : PatchErrorKind) → RefusesAt d ops k kind ↔ RefusesAt b (strip_all S ops) k kind }

    // The inverse of a list is the inverse of the list without the shared tokens, on what stands
    // there, with these tokens in front of each pointer.
    ensures local_inverse { (d : Data) (S : Pointer) (b : Data) (ops : List Operation)
        → IsDocument d → AreWhole ops → StandsAt d S b → AreWithin S ops → (I : List Operation)
        → IsInverse d ops I
        ↔ ((J : List Operation) × IsInverse b (strip_all S ops) J × (I ≡ extend_all S J)) }

    // A list shares one list of tokens at most.
    ensures shared_is_one { (ops : List Operation) (S T : Pointer) → IsShared ops S → IsShared ops T
        → S ≡ T }

    // What a list shares is what is computed, and where nothing is, it shares nothing.
    ensures shared_is_computed { (ops : List Operation) (S : Pointer)
        → IsShared ops S ↔ (shared_tokens ops ≡ Some S) }
{}

/// Two lists of operations that are apart.
pub fn apart()
    // Apart is so both ways.
    ensures apart_both_ways { (xs ys : List Operation) → AreApart xs ys → AreApart ys xs }

    // A list is apart from a joined list where it is from each part.
    ensures apart_joined { (xs ys zs : List Operation) → AreApart xs ys → AreApart xs zs
        → AreApart xs (ys ++ zs) }

    // In either order they are accepted alike, and lead to one end.
    ensures accepted_alike { (d : Data) (xs ys : List Operation) → IsDocument d → AreWhole xs
        → AreWhole ys → AreApart xs ys → (e : Data)
        → Accepts d (xs ++ ys) e ↔ Accepts d (ys ++ xs) e }

    // Joined, they are accepted exactly where each is.
    ensures each_alone { (d : Data) (xs ys : List Operation) → IsDocument d → AreWhole xs
        → AreWhole ys → AreApart xs ys → (e : Data) → Accepts d (xs ++ ys) e
        ↔ ((m n : Data) × Accepts d xs m × Accepts d ys n × Accepts m ys e) }

    // Where a document accepts both, each is accepted on what the other leaves, with one end.
    ensures both_accepted { (d : Data) (xs ys : List Operation) → IsDocument d → AreWhole xs
        → AreWhole ys → AreApart xs ys → (m n : Data) → Accepts d xs m → Accepts d ys n
        → (e : Data) × Accepts m ys e × Accepts n xs e }

    // After the one is accepted, the other is refused where and as it is without it.
    ensures refused_alike { (d : Data) (xs ys : List Operation) → IsDocument d → AreWhole xs
        → AreWhole ys → AreApart xs ys → (m : Data) (k : ℕ) (kind : PatchErrorKind)
        → Accepts d xs m → RefusesAt d ys k kind ↔ RefusesAt m ys k kind }

    // The joined list is refused at an operation of the second exactly where and as that is refused
    // on the document itself.
    ensures refused_joined { (d : Data) (xs ys : List Operation) → IsDocument d → AreWhole xs
        → AreWhole ys → AreApart xs ys → (m : Data) (k : ℕ) (kind : PatchErrorKind)
        → Accepts d xs m → RefusesAt d (xs ++ ys) (length xs + k) kind ↔ RefusesAt d ys k kind }

    // After both, the inverse of the one is accepted, and leads to the end of the other alone.
    ensures undo_keeps { (d : Data) (xs ys I : List Operation) (m e : Data) → IsDocument d
        → AreWhole xs → AreWhole ys → AreApart xs ys → IsInverse d xs I → Accepts d xs m
        → Accepts m ys e → (n : Data) × Accepts d ys n × IsAccepted e I n }

    // That neither's `path` begins the other's is not enough for two operations: on an empty array
    // an `add` at `/-` makes what a `replace` at `/0` is refused without.
    ensures diverging_is_not_enough { ((d : Data) (x y : Operation) (e : Data) → IsDocument d
        → IsWholeOp x → IsWholeOp y → Diverge (path_of x) (path_of y) → Accepts d (x ∷ y ∷ []) e
        → Accepts d (y ∷ x ∷ []) e) → ⊥ }
{}

/// What add, remove and replace leave: one document, where they are defined, and it is what is
/// computed.
#[tactic(auto, using(json_patch_edit::proofs::Changes::added_one, json_patch_edit::proofs::Changes::added_computed, json_patch_edit::proofs::Changes::IsAdded_document, json_patch_edit::proofs::Changes::removed_there, json_patch_edit::proofs::Changes::replaced_there))]
pub fn changes()
    // Where a pointer has a target, add leaves a document.
    ensures added_at_a_target { (d : Data) (P : Pointer) (v : Data) (L : List Segment) (s : Segment)
        → IsDocument d → IsDocument v → HasTarget d P L s → (e : Data) × IsAdded d P v e }

    // Add leaves one document at most.
    ensures one_added { (d : Data) (P : Pointer) (v e f : Data) → IsAdded d P v e → IsAdded d P v f
        → e ≡ f }

    // What add leaves is what is computed, and where nothing is, it leaves nothing.
    ensures added_is_computed { (d : Data) (P : Pointer) (v e : Data) → IsDocument d → IsDocument v
        → (IsAdded d P v e ↔ (after_add d P v ≡ Some e)) }

    // What add leaves is a document.
    ensures added_is_document { (d : Data) (P : Pointer) (v e : Data) → IsDocument v
        → IsAdded d P v e → IsDocument e }

    // Where a pointer below the root resolves, remove leaves a document.
    ensures removed_where_it_resolves { (d : Data) (P : Pointer) (L : List Segment) (s : Segment)
        (c : Data) → IsDocument d → Resolves d P (L ++ s ∷ []) c → (e : Data) × IsRemoved d P e }

    // Remove leaves one document at most.
    ensures one_removed { (d : Data) (P : Pointer) (e f : Data) → IsRemoved d P e → IsRemoved d P f
        → e ≡ f }

    // What remove leaves is what is computed, and where nothing is, it leaves nothing.
    ensures removed_is_computed { (d : Data) (P : Pointer) (e : Data) → IsDocument d
        → (IsRemoved d P e ↔ (after_remove d P ≡ Some e)) }

    // Where a pointer resolves, replace leaves a document.
    ensures replaced_where_it_resolves { (d : Data) (P : Pointer) (v : Data) (L : List Segment)
        (c : Data) → IsDocument d → IsDocument v → Resolves d P L c
        → (e : Data) × IsReplaced d P v e }

    // Replace leaves one document at most.
    ensures one_replaced { (d : Data) (P : Pointer) (v e f : Data)
        → IsReplaced d P v e → IsReplaced d P v f → e ≡ f }

    // What replace leaves is what is computed, and where nothing is, it leaves nothing.
    ensures replaced_is_computed { (d : Data) (P : Pointer) (v e : Data) → IsDocument d
        → IsDocument v → (IsReplaced d P v e ↔ (after_replace d P v ≡ Some e)) }

    // After a replace, what is not at or under its place looks as before.
    ensures replace_keeps_elsewhere { (d : Data) (P : Pointer) (v e : Data) (L : List Segment)
        (c : Data) (X : List Segment) → IsReplaced d P v e → Resolves d P L c
        → ((R : List Segment) → X ≡ L ++ R → ⊥) → look e X ≡ look d X }
{}

/// The operations that undo a run.
#[tactic(auto, using(crate::proofs::Blocks::block_exactly, crate::proofs::Blocks::block_leads_back, crate::proofs::Blocks::inverse_exactly, crate::proofs::Blocks::inverse_leads_back, crate::proofs::Plain::inverse_is_plain, crate::proofs::Blocks::passes_back, crate::proofs::Blocks::inverse_again))]
pub fn inverse()
    // The block of an accepted operation is the one that is computed.
    ensures block_is_computed { (d : Data) (op : Operation) (e : Data) → IsDocument d → IsWholeOp op
        → Leaves d op e → (B : List Operation) → IsBlock d op B ↔ (block d op ≡ B) }

    // The block is accepted on what the operation left, and gives the document before it.
    ensures block_leads_back { (d : Data) (op : Operation) (e : Data) → IsDocument d → IsWholeOp op
        → Leaves d op e → (B : List Operation) → IsBlock d op B
        → AreWhole B × (length B ≤ 2) × Accepts e B d }

    // The inverse of an accepted list is the one that is computed.
    ensures inverse_is_computed { (d : Data) (ops : List Operation) → IsDocument d → AreWhole ops
        → (e : Data) → Accepts d ops e → (I : List Operation)
        → IsInverse d ops I ↔ (inverse d ops ≡ I) }

    // The inverse is accepted on the end, and leads to the first document.
    ensures inverse_leads_back { (d : Data) (ops : List Operation) → IsDocument d → AreWhole ops
        → (e : Data) (I : List Operation) → Accepts d ops e → IsInverse d ops I
        → AreWhole I × (length I ≤ 2 * length ops) × Accepts e I d }

    // The inverse holds `add`, `remove` and `replace` alone, and no `-` that stands for an index of
    // an array.
    ensures inverse_is_plain { (d : Data) (ops : List Operation) → IsDocument d → AreWhole ops
        → (e : Data) (I : List Operation) → Accepts d ops e → IsInverse d ops I → ArePlain e I }

    // The inverse leads back through every state: first over the later operations, then over the
    // earlier ones.
    ensures inverse_passes_back { (d : Data) (xs ys : List Operation) (m e : Data)
        (I : List Operation) → IsDocument d → AreWhole xs → AreWhole ys → Accepts d xs m
        → Accepts m ys e → IsInverse d (xs ++ ys) I
        → (J K : List Operation) × IsInverse m ys J × IsInverse d xs K × (I ≡ J ++ K)
        × Accepts e J m × Accepts m K d }

    // The inverse of the inverse leads from the first document to the end.
    ensures inverse_again { (d : Data) (ops : List Operation) → IsDocument d → AreWhole ops
        → (e : Data) (I J : List Operation) → Accepts d ops e → IsInverse d ops I
        → IsInverse e I J → Accepts d J e }
{}

/// Patches that are accepted one after another, as those that take changes back, the latest first.
#[tactic(auto, using(crate::proofs::Trails::trail_begins, crate::proofs::Trails::trail_grows, crate::proofs::Trails::trail_leads, crate::proofs::Trails::leads_to_one, crate::proofs::Trails::each_whole))]
pub fn trails()
    // The first patch of a trail is accepted, and the others are a trail from its end.
    ensures trail_begins { (d : Data) (p : Patch) (ps : List Patch) → IsDocument d
        → IsTrail d (p ∷ ps)
        → (e : Data) × IsAccepted d (operations_of p) e × IsDocument e × IsTrail e ps }

    // A patch that leads to where a trail begins makes it longer.
    ensures trail_grows { (d e : Data) (p : Patch) (ps : List Patch) → IsDocument e
        → AreWhole (operations_of p) → IsAccepted e (operations_of p) d
        → IsTrail d ps → IsTrail e (p ∷ ps) }

    // A trail leads to a document.
    ensures trail_leads { (d : Data) (ps : List Patch) → IsDocument d → IsTrail d ps
        → (e : Data) × LeadsTo d ps e }

    // Patches lead to one document at most.
    ensures leads_to_one { (d : Data) (ps : List Patch) (e f : Data) → LeadsTo d ps e
        → LeadsTo d ps f → f ≡ e }

    // The patches of a trail are each whole.
    ensures trail_is_whole { (d : Data) (ps : List Patch) → IsTrail d ps → AreEachWhole ps }
{}

/// Patches as JSON values.
#[tactic(auto, using(json_patch_operation::proofs::PatchValues::written_reads_back, json_patch_operation::proofs::PatchValues::written_reads_alone, json_patch_operation::proofs::PatchValues::written_fields_read_back, json_patch_operation::proofs::PatchValues::written_patch_document, json_patch_operation::proofs::PatchFaults::patch_whole))]
pub fn values()
    // Each value reads as one patch, or is refused with one number and kind, and never both.
    ensures read_or_refused { (v : Data) → ((ops : List Operation) × IsRead v ops)
        ⊎ ((k : Option ℕ) × (kind : ReadKind) × HasReadFault v k kind) }

    // A patch that a value reads as is whole.
    ensures read_is_whole { (v : Data) (ops : List Operation) → ReadsPatch v ops → AreWhole ops }

    // Each value reads as one operation, or is refused for one kind, and never both.
    ensures read_alone_or_refused { (v : Data) → ((op : Operation) × IsReadAlone v op)
        ⊎ ((kind : ReadKind) × HasReadFaultAlone v kind) }

    // Each value reads as one operation of a given name with no look at `op`, or is refused for one
    // kind, and never both.
    ensures read_like_or_refused { (like : Operation) (v : Data)
        → ((op : Operation) × IsReadLike like v op)
        ⊎ ((kind : ReadKind) × HasReadFaultLike like v kind) }

    // What is written of a whole patch reads back as that patch.
    ensures written_reads_back { (ops : List Operation) → AreWhole ops
        → IsRead (written_patch ops) ops }

    // What is written of a whole operation reads back as that operation.
    ensures written_reads_alone { (op : Operation) → IsWholeOp op
        → IsReadAlone (written_value op) op }

    // What is written of a whole operation without its `op` reads back, with no look at `op`.
    ensures written_fields_read_back { (op : Operation) → IsWholeOp op
        → IsReadLike op (written_fields op) op }

    // What is written of a whole patch is a document.
    ensures written_is_document { (ops : List Operation) → AreWhole ops
        → IsDocument (written_patch ops) }
{}

/// What texts say.
#[tactic(auto, using(json_patch_operation::proofs::SaidTexts::one_document, json_patch_operation::proofs::SaidTexts::document_no_fault))]
pub fn texts()
    // A text says one document at most.
    ensures one_document { (t : List ℕ) (d e : Data) → SaysDocument t d → SaysDocument t e → e ≡ d }

    // Where it says one, only a lack of memory keeps it from being read.
    ensures document_has_no_fault { (t : List ℕ) (d : Data) (f : Fault)
        → SaysDocument t d → NoDocument t f → (e : AllocError) × (f ≡ Memory e) }

    // A text says one patch at most.
    ensures one_patch { (t : List ℕ) (ops others : List Operation)
        → SaysPatch t ops → SaysPatch t others → others ≡ ops }

    // Where it says one, only a lack of memory keeps it from being read.
    ensures patch_has_no_fault { (t : List ℕ) (ops : List Operation) (f : Fault)
        → SaysPatch t ops → NoPatch t f → (e : AllocError) × (f ≡ Memory e) }
{}

/// Equality of values and of lists of operations.
#[tactic(auto, using(crate::proofs::Equality::laws_of_equality, json_patch_document::proofs::SameDocuments::same_by_name))]
pub fn equality()
    // Each value is the same as itself.
    ensures same_as_itself { (d : Data) → AreSame d d }

    // Which of two values stands first makes no difference.
    ensures same_either_way { (d e : Data) → AreSame d e → AreSame e d }

    // Two values that are the same as a third are the same.
    ensures same_in_turn { (d e f : Data) → AreSame d e → AreSame e f → AreSame d f }

    // Two objects, each with its members in the order of their names, are the same exactly where
    // each name has the same value in both, or is in neither. Every object that a program holds has
    // its members in that order, whole numbers or not.
    ensures same_by_name { (ms ns : Members) → AreInOrder ms → AreInOrder ns
        → (AreSame (object ms) (object ns)
        ↔ ((k : List ℕ) → AreSameAt (get_member k ms) (get_member k ns))) }

    // A document is the same as itself alone.
    ensures same_as_document { (d e : Data) → IsDocument d → (AreSame d e ↔ (d ≡ e)) }

    // A list of operations whose values are documents is the same as itself alone.
    ensures same_as_whole_list { (ops others : List Operation) → AreWhole ops
        → (AreSameLists ops others ↔ (ops ≡ others)) }
{}

/// Merge patches.
#[tactic(auto, using(json_patch_merge::proofs::Merges::exactly_one, json_patch_merge::proofs::Merges::merged_exactly, json_patch_merge::proofs::Merges::again, json_patch_merge::proofs::Merges::no_object, json_patch_merge::proofs::Merges::unnamed_stays))]
pub fn merging()
    // A merge leaves a document, and that one alone.
    ensures merged_is_one { (d p : Data) → IsDocument d → IsDocument p
        → (e : Data) × IsDocument e × IsMerged d p e
        × ((f : Data) → IsDocument f → IsMerged d p f → f ≡ e) }

    // What a merge leaves is what is computed.
    ensures merged_is_computed { (d p e : Data) → IsDocument d → IsDocument p → IsDocument e
        → IsMerged d p e ↔ (after_merge d p ≡ e) }

    // What is merged changes no more when it is merged again.
    ensures merged_again { (d p e : Data) → IsMerged d p e → IsMerged e p e }

    // A merge patch that is no object is the result.
    ensures patch_that_is_no_object { (d p e : Data) → sight_of p ≢ Sight.object
        → IsMerged d p e ↔ (e ≡ p) }

    // A member that a merge patch, an object, doesn't name stays.
    ensures unnamed_stays { (d p e : Data) (k : List ℕ) → sight_of p ≡ Sight.object → IsMerged d p e
        → get k p ≡ None → get k e ≡ get k d }
{}

/// Documents: what is seen of them, and where pointers lead in them.
#[tactic(auto, using(json_patch_document::proofs::DocumentOrNot::document_or_not, json_patch_document::proofs::Floats::no_float, json_patch_document::proofs::Alike::alike, json_patch_edit::proofs::Locations::resolves_standing))]
pub fn documents()
    // A value is a document, or it is none.
    ensures document_or_not { (d : Data) → IsDocument d ⊎ (IsDocument d → ⊥) }

    // A document has no float. A value that a program holds and that has none is a document:
    // `is_whole` says so.
    ensures no_float { (d : Data) → IsDocument d → has_float d ≡ false }

    // Documents that look alike at every location are equal.
    ensures alike_is_equal { (d e : Data) → IsDocument d → IsDocument e
        → ((L : List Segment) → look d L ≡ look e L) → d ≡ e }

    // A pointer resolves to what stands at its location.
    ensures resolves_to_what_stands { (d : Data) (P : Pointer) (L : List Segment) (c : Data)
        → Resolves d P L c → value_at d L ≡ Some c }

    // What stands where a pointer leads is what is found there.
    ensures found_is_computed { (d : Data) (P : Pointer) (c : Data)
        → StandsAt d P c ↔ (pointee d P ≡ Some c) }
{}
