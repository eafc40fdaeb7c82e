//! Laws of `SameNumber`, as the clauses of a function that does nothing.

ghost use Rattle.std.specs.Prelude.{ℕ, List};
ghost use Rattle.json_number.specs.Numbers.{SameNumber};

/// To be of one number is an equivalence.
#[tactic(auto, using(crate::proofs::Same::same_reflexive, crate::proofs::Same::same_symmetric))]
pub fn same_numbers()
    ensures reflexive { (s : List ℕ) → SameNumber s s }
    ensures symmetric { (s t : List ℕ) → SameNumber s t → SameNumber t s }
    ensures transitive { (s t u : List ℕ) → SameNumber s t → SameNumber t u → SameNumber s u }
{}
