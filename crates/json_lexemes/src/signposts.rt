//! The places that a check of a text leaves, so that a way to a value need not pass over all that stands before it.

ghost use Rattle.std.specs.Prelude.{◌≡◌, ◌⊎◌, ◌<◌, ◌≤◌, ◌+◌, ◌-◌, ◌∷◌, ℕ, Bool, true, false, List, length, get_or, IfSome};
ghost use Rattle.std.specs.Str.{IsUtf8, IsCharBoundary};
ghost use Rattle.json_lexemes.specs.Grammar.{Opens, Continues, closing};
ghost use Rattle.json_lexemes.specs.Signposts.{ArePlaces, AreSeenFrom, AreSignposts, IsPassed, IsStep};
ghost use Rattle.json_lexemes.specs.Places.{left_at, HasEnd, IsEnd};
ghost use Rattle.json_lexemes.specs.Skipped.{skip};
ghost use Rattle.json_lexemes.specs.Followed.{IsAhead, IsBehind, IsBehindBracket, IsBehindComma};
ghost use Rattle.json_lexemes.specs.declared.span.Span.{Span};

use crate::lexemes::{byte_at, is_opening, value_end};
use crate::span::Span;

/// So many places of each kind are kept.
const ROOM: usize = 128;

/// So many objects and arrays that are open at once are followed, the outermost first.
const LEVELS: usize = 128;

/// Of a text some so many places are wanted.
const PARTS: usize = 32;

/// What is shorter is passed over sooner than looked up.
const LEAST: usize = 1024;

/// Behind a comma of an array.
#[derive(Clone, Copy, Debug, Drop)]
pub struct Step {
    /// The array's bracket.
    pub array: usize,
    /// How many elements stand before the comma.
    pub number: usize,
    pub place: usize,
}

/// An object or an array that is open.
#[derive(Clone, Copy, Debug, Drop)]
struct Open {
    /// Its bracket.
    start: usize,
    /// How many of its commas are passed, if it is an array.
    number: usize,
    /// The last of its places that is kept.
    kept: usize,
}

/// Where long objects and arrays end, and some of the elements of long arrays begin.
#[derive(Drop)]
pub struct Signposts {
    spans: [Span; ROOM],
    /// So many of them are known, in the order of their starts.
    ended: usize,
    steps: [Step; ROOM],
    /// So many of them are known.
    stepped: usize,
    nest: [Open; LEVELS],
    depth: usize,
    /// What is shorter isn't kept.
    apart: usize,
}

/// Puts one more among so many, in the order of the starts.
fn insert(spans: &mut [Span; ROOM], count: usize, span: Span)
    requires { count < 128 }
    ensures { (t : List ℕ) → ((k : ℕ) (d : Span) → k < count → IsPassed t (get_or spans.old k d)) → IsPassed t span
        → (k : ℕ) (d : Span) → k < count + 1 → IsPassed t (get_or spans.new k d) }
{
    let mut at = count;
    while at > 0 && spans[at - 1].start > span.start {
        spans[at] = spans[at - 1];
        at -= 1;
    }
    spans[at] = span;
}

impl Signposts {
    /// Room for them, and none as yet.
    #[inline(always)]
    pub fn new() -> Signposts
        ensures { (t : List ℕ) → AreSignposts t result }
    {
        Signposts {
            spans: [Span { start: 0, end: 0 }; ROOM],
            ended: 0,
            steps: [Step {
                array: 0,
                number: 0,
                place: 0,
            }; ROOM],
            stepped: 0,
            nest: [Open {
                start: 0,
                number: 0,
                kept: 0,
            }; LEVELS],
            depth: 0,
            apart: LEAST,
        }
    }

    /// None again, for a text of so many bytes.
    pub(crate) fn restart(&mut self, len: usize)
        ensures { (t : List ℕ) → IsAhead t self.new 0 0 }
    {
        self.ended = 0;
        self.stepped = 0;
        self.depth = 0;
        self.apart = (len / PARTS).max(LEAST);
    }

    /// An object or an array opens at `start`, within so many others.
    #[inline(always)]
    pub(crate) fn enter(&mut self, wanted: bool, start: usize, depth: usize)
        ensures { wanted ≡ true → (t : List ℕ) (object : Bool) (i k : ℕ) → IsAhead t self.old depth i
            → start < k → i ≤ k → left_at t start ≡ left_at t i → IsEnd t start → Opens t object i k
            → IsAhead t self.new (depth + 1) k }
    {
        if !wanted {
            return;
        }
        if depth == self.depth && depth < LEVELS {
            self.nest[depth] = Open {
                start,
                number: 0,
                kept: start,
            };
            self.depth = depth + 1;
        }
    }

    /// Keeps a place of an array, if there is room.
    fn keep_step(&mut self, array: Open, place: usize)
        ensures signposts { (t : List ℕ) → AreSignposts t self.old
            → IsStep t (record { array = array.start; number = array.number; place = place })
            → AreSignposts t self.new }
        ensures nest { (self.new.nest ≡ self.old.nest) × (self.new.depth ≡ self.old.depth) }
    {
        if self.stepped >= ROOM {
            return;
        }
        let (array, number) = (array.start, array.number);
        self.steps[self.stepped] = Step {
            array,
            number,
            place,
        };
        self.stepped += 1;
    }

    /// An object or an array, the innermost of so many that are open, goes on at `place`, an array behind a comma.
    #[inline(always)]
    pub(crate) fn go_on(&mut self, wanted: bool, object: bool, place: usize, depth: usize)
        requires { (0 < depth) × (wanted ≡ true → self.old.depth ≤ 128) }
        ensures { wanted ≡ true → (t : List ℕ) (i : ℕ) → IsBehind t self.old depth i → i < place → place ≤ length t
            → (object ≡ false → IsBehindComma t place) → Continues t object i place → IsAhead t self.new depth place }
    {
        if !wanted {
            return;
        }
        if object || depth != self.depth {
            return;
        }
        let mut array = self.nest[depth - 1];
        array.number = array.number.saturating_add(1);
        // Most are near the last that is kept.
        if place.wrapping_sub(array.kept) < self.apart {
            self.nest[depth - 1] = array;
            return;
        }
        self.keep_step(array, place);
        array.kept = place;
        self.nest[depth - 1] = array;
    }

    /// Keeps where something long ends, if there is room.
    fn keep_end(&mut self, start: usize, end: usize)
        ensures signposts { (t : List ℕ) → AreSignposts t self.old → IsPassed t (record { start = start; end = end })
            → AreSignposts t self.new }
        ensures nest { (self.new.nest ≡ self.old.nest) × (self.new.depth ≡ self.old.depth) }
    {
        if self.ended >= ROOM {
            return;
        }
        insert(&mut self.spans, self.ended, Span { start, end });
        self.ended += 1;
    }

    /// The innermost of so many that are open is closed before `end`.
    #[inline(always)]
    pub(crate) fn leave(&mut self, wanted: bool, end: usize, depth: usize)
        requires { (0 < depth) × (wanted ≡ true → self.old.depth ≤ 128) }
        ensures { wanted ≡ true → (t : List ℕ) (object : Bool) (i : ℕ) → IsBehind t self.old depth i → i < end → end ≤ length t
            → IsBehindBracket t end → left_at t i ≡ closing object ∷ left_at t end
            → IsBehind t self.new (depth - 1) end }
    {
        if !wanted {
            return;
        }
        if depth != self.depth {
            return;
        }
        self.depth = depth - 1;
        let start = self.nest[depth - 1].start;
        // Most are short.
        if end.wrapping_sub(start) < self.apart {
            return;
        }
        self.keep_end(start, end);
    }

    /// The places.
    pub fn places(&self) -> Places<'_>
        requires { (t : List ℕ) × AreSignposts t self.now }
        ensures { (t : List ℕ) → AreSignposts t self.now → ArePlaces t result }
    {
        Places {
            from: 0,
            spans: &self.spans[..self.ended],
            steps: &self.steps[..self.stepped],
        }
    }
}

/// Places of a text, of which some long objects and arrays need not be passed over.
#[derive(Clone, Copy, Debug, Drop)]
pub struct Places<'a> {
    /// Where the text begins in the one that the spans are of.
    from: usize,
    spans: &'a [Span],
    steps: &'a [Step],
}

impl<'a> Places<'a> {
    /// None.
    pub fn none() -> Places<'a>
        ensures { (t : List ℕ) → ArePlaces t result }
    {
        Places {
            from: 0,
            spans: &[],
            steps: &[],
        }
    }

    /// Those of a value that begins at `start`, in a text of its own.
    pub fn within(&self, start: usize) -> Places<'a>
        ensures { AreSeenFrom self.now start result }
    {
        let Some(from) = self.from.checked_add(start) else {
            return Places {
                from: 0,
                spans: &[],
                steps: &[],
            };
        };
        Places {
            from,
            spans: self.spans,
            steps: &[],
        }
    }

    /// The number of the first span that doesn't begin before `start`.
    fn first_from(&self, start: usize) -> usize {
        let (mut low, mut high) = (0, self.spans.len());
        while low < high {
            let middle = low + (high - low) / 2;
            if self.spans[middle].start < start {
                low = middle + 1;
            } else {
                high = middle;
            }
        }
        low
    }

    /// Where the value that begins at `start` ends, if that is kept.
    pub fn end_of(&self, text: &[u8], start: usize) -> Option<usize>
        ensures { ArePlaces text.now self.now → IfSome result (λ end. IsPassed text.now (record { start = start; end = end })) }
    {
        let begins = self.from.checked_add(start)?;
        let number = self.first_from(begins);
        if number >= self.spans.len() || self.spans[number].start != begins {
            return None;
        }
        let end = self.spans[number].end.checked_sub(self.from)?;
        if 0 < end && end <= text.len() {
            Some(end)
        } else {
            None
        }
    }

    /// As [`value_end`], with no byte passed where the place is kept.
    #[inline]
    pub fn value_end(&self, text: &[u8], from: usize) -> usize
        requires within { from ≤ length text.now }
        requires places { ArePlaces text.now self.now }
        ensures bounds { (from ≤ result) × (result ≤ length text.now) }
        ensures left { left_at text.now result ≡ skip 0 (left_at text.now from) }
        ensures end { IsEnd text.now from
            → IsEnd text.now result × ((result ≡ from) ⊎ HasEnd text.now result) }
        ensures boundary { IsUtf8 text.now → IsCharBoundary text.now from → IsCharBoundary text.now result }
    {
        if self.spans.is_empty() {
            return value_end(text, from);
        }
        // What is no object and no array is passed as soon.
        if is_opening(byte_at(text, from)) {
            if let Some(end) = self.end_of(text, from) {
                return end;
            }
        }
        value_end(text, from)
    }

    /// The last place that is kept in the array whose bracket stands at `array`, up to the element of this number.
    pub fn step_to(&self, array: usize, number: usize) -> Option<Step>
        ensures { (t : List ℕ) → ArePlaces t self.now → IfSome result
            (λ s. (s.array ≡ array) × (s.number ≤ number) × IsStep t s) }
    {
        let mut left = self.steps.len();
        while left > 0 {
            left -= 1;
            let step = self.steps[left];
            if step.array == array && step.number <= number {
                return Some(step);
            }
        }
        None
    }
}
