//! Where marks stand after later changes, as elements of arrays shift.
//!
//! No clause says that a place is the right one: a mark is taken out where one is found, and what is
//! left is looked for by a walk. A member whose name is a number may be taken for an element. A place is
//! followed in memory of a fixed size, so that following asks for none.

ghost use Rattle.std.specs.Prelude.{◌≡◌, IfSome, ℕ};
ghost use Rattle.jsonptr.specs.Pointers.{tokens_of};
ghost use Rattle.json_patch_edit.specs.Exchange.{AreFitting};
ghost use Rattle.json_patch.specs.Logged.{IsRoomy, taken, count_some};

use crate::log::Change;
use json_patch_edit::edits::Found;
use jsonptr::{Pointer, Token};
use std::ops::Range;
use std::str;

/// The longest pointer that is followed, in bytes. Where a pointer is longer, a walk finds the mark.
const MOST_BYTES: usize = 1_024;

/// How many digits an index may have.
const MOST_DIGITS: usize = 20;

/// A place that is followed: the string of its pointer.
#[derive(Drop)]
pub(crate) struct Place {
    bytes: [u8; MOST_BYTES],
    len: usize,
}

impl Place {
    pub(crate) fn new() -> Place {
        Place {
            bytes: [0; MOST_BYTES],
            len: 0,
        }
    }

    /// The pointer of the place.
    pub(crate) fn pointer(&self) -> Option<Pointer<'_>> {
        let bytes = self.bytes.get(..self.len)?;
        let text = str::from_utf8(bytes).ok()?;
        Pointer::parse(text).ok()
    }

    /// Goes to where the mark stands, after the later changes, that the change left, and returns
    /// whether it left one that could be followed.
    pub(crate) fn follow(&mut self, change: &Change<'_>, later: &[Change<'_>]) -> bool {
        let Some(place) = taken_at(change) else {
            return false;
        };
        self.len = 0;
        if !self.replace(0..0, place.as_str().as_bytes()) {
            return false;
        }
        if change.from.is_some() && !self.after_insert(change) {
            return false;
        }
        for next in later {
            if !self.after_take(next) || !self.after_insert(next) {
                return false;
            }
        }
        true
    }

    /// Goes to the place after the change took a value away, from it or to move it.
    fn after_take(&mut self, change: &Change<'_>) -> bool {
        let Some(taken) = taken_at(change) else {
            return true;
        };
        if self.is_below(taken) {
            return self.replace(0..taken.len(), change.path.as_str().as_bytes());
        }
        self.shift(taken, false)
    }

    /// Goes to the place after the change put a value in, if it did.
    fn after_insert(&mut self, change: &Change<'_>) -> bool {
        match change.found {
            Found::Nothing => self.shift(change.path, true),
            _ => true,
        }
    }

    /// Goes to the place after an element of an array came in at `at`, or went from there.
    fn shift(&mut self, at: Pointer<'_>, came: bool) -> bool {
        let Some((list, last)) = at.split_back() else {
            return true;
        };
        let Some(item) = index_of(last) else {
            return true;
        };
        let Some((here, digits)) = self.item_of(list) else {
            return true;
        };
        if item > here {
            return true;
        }
        let now = if came {
            here.saturating_add(1)
        } else {
            here.saturating_sub(1)
        };
        self.write_index(digits, now)
    }

    /// Whether the place is that of the pointer, or one in the value there.
    fn is_below(&self, pointer: Pointer<'_>) -> bool {
        match self.pointer() {
            Some(place) => place.starts_with(pointer),
            None => false,
        }
    }

    /// The index of the element through which the place leads in the array, and where its digits are in
    /// the string.
    fn item_of(&self, list: Pointer<'_>) -> Option<(usize, Range<usize>)> {
        let rest = self.pointer()?.strip_prefix(list)?;
        let token = rest.tokens().next()?;
        let index = index_of(token)?;
        let start = list.len().saturating_add(1);
        Some((index, start..start.saturating_add(token.encoded().len())))
    }

    /// Puts the index in place of the digits in the range.
    fn write_index(&mut self, at: Range<usize>, index: usize) -> bool {
        let mut digits = [0; MOST_DIGITS];
        let first = write_digits(&mut digits, index);
        match digits.get(first..) {
            Some(digits) => self.replace(at, digits),
            None => false,
        }
    }

    /// Puts the bytes in place of those in the range, where there is room for them.
    fn replace(&mut self, at: Range<usize>, text: &[u8]) -> bool {
        let Range { start, end } = at;
        if start > end || end > self.len || self.len > MOST_BYTES {
            return false;
        }
        if text.len() > MOST_BYTES - (self.len - (end - start)) {
            return false;
        }
        let past = start + text.len();
        self.bytes.copy_within(end..self.len, past);
        self.bytes[start..past].copy_from_slice(text);
        self.len = self.len - (end - start) + text.len();
        true
    }
}

/// Writes the number's digits at the end, and returns where they begin.
fn write_digits(digits: &mut [u8; MOST_DIGITS], number: usize) -> usize {
    let mut left = number;
    for first in (0..MOST_DIGITS).rev() {
        digits[first] = b'0' + (left % 10) as u8;
        left /= 10;
        if left == 0 {
            return first;
        }
    }
    0
}

fn index_of(token: Token<'_>) -> Option<usize> {
    token.to_index().ok()?.for_len(usize::MAX).ok()
}

/// Where a change left a mark, if it took a value away.
pub(crate) fn taken_at<'a>(change: &Change<'a>) -> Option<Pointer<'a>>
    ensures counted { count_some result ≡ taken change.now.found change.now.from }
    ensures fits { (n : ℕ) → IsRoomy n change.now
        → IfSome result (λ place. AreFitting n (tokens_of place)) }
{
    match change.found {
        Found::Taken => Some(change.path),
        _ => change.from,
    }
}
