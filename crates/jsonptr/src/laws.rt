//! Laws over the definitions: the clauses of functions that do nothing, one for each subject. They
//! are for proofs to cite, and never called by a program. `specs::PlaceLaws` and `specs::TextLaws`
//! have them as lemmas.

ghost use Rattle.std.specs.Prelude.{◌≡◌, ◌↔◌, ◌⊎◌, ◌<◌, ◌^◌, ℕ, List, Some, None, decimal};
ghost use Rattle.jsonptr.specs.Faults.{IsFault};
ghost use Rattle.jsonptr.specs.Places.{place_of, decimal_token, next_token};
ghost use Rattle.jsonptr.specs.Text.{Pointer, IsPointerText, decoded, encoded, text_of};

use crate::ParseError;

/// Which indexes tokens name.
#[tactic(auto, using(crate::specs::PlaceLaws::place_is_token, crate::specs::PlaceLaws::token_is_decimal, crate::specs::PlaceLaws::place_is_plain, crate::specs::PlaceLaws::next_is_no_place))]
pub fn places()
    // A token names an index exactly where it is the decimal text of that index.
    ensures place_is_token { (t : List ℕ) (i : ℕ) → (place_of t ≡ Some i) ↔ (t ≡ decimal_token i) }

    // The decimal text of an index below 2^64 is the one that is printed for it.
    ensures token_is_decimal { (i : ℕ) → i < 2 ^ 64 → decimal_token i ≡ decimal i }

    // The decimal text of an index stands in a pointer's text as it is.
    ensures place_is_plain { (i : ℕ) → encoded (decimal_token i) ≡ decimal_token i }

    // The token `-` is no index's decimal text.
    ensures next_is_no_place { place_of next_token ≡ None }
{}

/// Texts, and the pointers that they are.
#[tactic(auto, using(crate::specs::TextLaws::decoded_again, crate::specs::TextLaws::encoded_once, crate::specs::TextLaws::one_pointer, crate::specs::TextLaws::pointer_has_no_fault, crate::specs::TextLaws::one_fault))]
pub fn texts()
    // A token that is encoded and decoded again is the same.
    ensures decoded_again { (t : List ℕ) → decoded (encoded t) ≡ t }

    // So an encoded text is that of one token.
    ensures encoded_once { (t u : List ℕ) → encoded t ≡ encoded u → t ≡ u }

    // A text is that of one pointer.
    ensures one_pointer { (P Q : Pointer) → text_of P ≡ text_of Q → P ≡ Q }

    // A text is a pointer's, or has a fault.
    ensures pointer_or_fault { (t : List ℕ) → IsPointerText t ⊎ ((e : ParseError) × IsFault t e) }

    // The text of a pointer has no fault.
    ensures pointer_has_no_fault { (P : Pointer) (e : ParseError) → ¬ IsFault (text_of P) e }

    // A text has one fault at most.
    ensures one_fault { (t : List ℕ) (e f : ParseError) → IsFault t e → IsFault t f → e ≡ f }
{}
