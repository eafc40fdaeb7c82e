//! Laws over the definitions: the clauses of a function that only names the laws from which they
//! follow. They are for proofs to cite, and never called by the program.

ghost use Rattle.std.specs.Prelude.{◌≡◌, ◌≢◌, ℕ, List, Result, Err};
ghost use Rattle.json_patch_answers.specs.Answer.{Answer};
ghost use Rattle.json_patch_answers.specs.declared.fault.ToolFault.{ToolFault};
ghost use Rattle.json_patch_answers.specs.declared.fault.ToolFault.TheVariants.{Memory, ReadFailed, WriteFailed};
ghost use Rattle.json_patch_answers.specs.declared.mode.Mode.{Mode};

use json_patch::laws::{documents, inverse, merging, runs, values};
use json_patch_editor::laws;

/// What each input calls for.
pub fn answers()
    // In each mode an input has one answer at most: one line, or one fault.
    ensures answered_once { (mode : Mode) (input : List ℕ) (a b : Result (List ℕ) ToolFault)
        → Answer mode input a → Answer mode input b → a ≡ b }

    // In each mode each input has an answer.
    ensures each_input_has_an_answer { (mode : Mode) (input : List ℕ)
        → (answer : Result (List ℕ) ToolFault) × Answer mode input answer }

    // The answer is no fault of memory, of the reader or of the writer.
    ensures answer_is_no_failure { (mode : Mode) (input : List ℕ) (fault : ToolFault)
        → Answer mode input (Err fault)
        → (fault ≢ Memory) × (fault ≢ ReadFailed) × (fault ≢ WriteFailed) }
{
    documents();
    values();
    runs();
    inverse();
    merging();
    laws::replied_once();
    laws::always_replied();
}
