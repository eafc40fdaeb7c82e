//! Pointers: one step further, the element that one names, and how deep it leads.

ghost use Rattle.std.specs.Prelude.{◌≡◌, ◌≤◌, ◌^◌, ℕ, List, Some, ◌∷◌, [], ◌++◌, length};
ghost use Rattle.std.specs.Prelude.{IfErr, IfNone, IfOk, IfSome};
ghost use Rattle.jsonptr.specs.Faults.{IfParse, IsFault};
ghost use Rattle.jsonptr.specs.Places.{place_of};
ghost use Rattle.jsonptr.specs.Pointers.{tokens_of};
ghost use Rattle.jsonptr.specs.Text.{text_of};

use jsonptr::index::Index;
use jsonptr::{Pointer, PointerBuf, PointerFault};
use std::alloc::Global;

/// The pointer to the member `name` of what `text` points to.
pub fn member(alloc: Global, text: &str, name: &str) -> Result<PointerBuf, PointerFault>
    ensures pointer { IfOk result
        (λ b. (P : List (List ℕ)) × (text_of P ≡ text.now) × (b ≡ P ++ name.now ∷ [])) }
    ensures fault { IfErr result (λ f. IfParse f (IsFault text.now)) }
{
    let mut pointer = PointerBuf::parse(alloc, text)?;
    pointer
        .push_back(alloc, name)
        .map_err(PointerFault::Memory)?;
    Ok(pointer)
}

/// The pointer to an array and the index in it, if `pointer` names an element.
pub fn element(pointer: Pointer) -> Option<(Pointer, usize)>
    ensures element { IfSome result
        (λ x. (last : List ℕ)
        × (tokens_of pointer.entry ≡ tokens_of x.0 ++ last ∷ []) × (place_of last ≡ Some x.1)) }
    ensures none { IfNone result ((front : List (List ℕ)) (last : List ℕ) (n : ℕ)
        → tokens_of pointer.entry ≡ front ++ last ∷ [] → place_of last ≡ Some n → 2 ^ 64 ≤ n) }
{
    let (front, last) = pointer.split_back()?;
    match last.to_index() {
        Ok(Index::Num(place)) => Some((front, place)),
        Ok(Index::Next) => None,
        Err(_) => None,
    }
}

/// How deep in a document `pointer` leads.
pub fn depth(pointer: Pointer) -> usize
    ensures { result ≡ length (tokens_of pointer.entry) }
{
    pointer.tokens().count()
}
