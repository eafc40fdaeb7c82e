//! A quick test that pointers diverge from many others, which takes no memory.

ghost use Rattle.std.specs.Prelude.{◌≡◌, ◌<◌, IsTrue};
ghost use Rattle.std.specs.List.{AllByRecursion};
ghost use Rattle.jsonptr.specs.Pointers.{token_of, tokens_of};
ghost use Rattle.json_patch_apart.specs.Apart.{Diverge, DivergesFrom};
ghost use Rattle.json_patch_apart.specs.Filters.{Has, KeepsSlots, slot_after};
ghost use Rattle.json_patch_apart.specs.Footprints.{listed};
ghost use Rattle.jsonptr.specs.Text as text;

use jsonptr::{Pointer, Token};

const SLOTS: usize = 16384;

/// Two tables of slots. Each list of tokens has one slot in both, by a hash: `begun` has those of
/// all that begins a pointer that was put in, `whole` those of the pointers themselves. Lists may
/// share a slot, so a filter may miss that a pointer diverges from all, and never says it wrongly.
#[derive(Drop)]
pub struct Filter {
    begun: [bool; SLOTS],
    whole: [bool; SLOTS],
}

impl Filter {
    /// One that has no pointer.
    pub fn new() -> Filter
        ensures { (P : text.Pointer) → Has result P → ⊥ }
    {
        Filter {
            begun: [false; SLOTS],
            whole: [false; SLOTS],
        }
    }

    /// Puts in the pointer, if there is one.
    #[tactic(auto, using(crate::proofs::Filters::kept_itself))]
    pub fn insert(&mut self, pointer: Option<Pointer<'_>>)
        ensures kept { KeepsSlots self.old self.new }
        ensures has { AllByRecursion (Has self.new) (listed pointer.entry) }
    {
        if let Some(pointer) = pointer {
            self.put(pointer);
        }
    }

    /// Whether the pointer, if there is one, is seen to diverge from each that was put in.
    pub fn is_clear_of(&self, pointer: Option<Pointer<'_>>) -> bool
        ensures { IsTrue result → (Q : text.Pointer) → Has self.now Q
            → DivergesFrom Q (listed pointer.entry) }
    {
        match pointer {
            Some(pointer) => self.is_free(pointer),
            None => true,
        }
    }

    fn put(&mut self, pointer: Pointer<'_>)
        ensures kept { KeepsSlots self.old self.new }
        ensures has { Has self.new (tokens_of pointer.entry) }
    {
        let mut slot = 0;
        self.begun[slot] = true;
        for token in pointer.tokens() {
            slot = next_slot(slot, token);
            self.begun[slot] = true;
        }
        self.whole[slot] = true;
    }

    /// Whether neither the pointer nor what begins it has the slot of a pointer that was put in,
    /// and nothing that begins such a one has the slot of the pointer.
    #[tactic(auto, using(crate::proofs::Filters::diverges))]
    fn is_free(&self, pointer: Pointer<'_>) -> bool
        ensures { IsTrue result → (Q : text.Pointer) → Has self.now Q
            → Diverge Q (tokens_of pointer.entry) }
    {
        let mut slot = 0;
        for token in pointer.tokens() {
            if self.whole[slot] {
                return false;
            }
            slot = next_slot(slot, token);
        }
        !self.whole[slot] && !self.begun[slot]
    }
}

/// The slot of a list of tokens, by that of the list without its last.
fn next_slot(slot: usize, last: Token<'_>) -> usize
    requires { slot < 16384 }
    ensures value { result ≡ slot_after slot (token_of last.entry) }
    ensures within { result < 16384 }
{
    let mut hash = (slot * 31 + 47) % SLOTS;
    for byte in last.encoded().as_bytes() {
        hash = (hash * 31 + usize::from(*byte)) % SLOTS;
    }
    hash
}
