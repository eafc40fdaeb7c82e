//! Numbers for texts of values. Equal documents have the same text, since their members stand in
//! order and their numbers are integers, and unequal ones don't. This is advice, as `moves` is.

use std::alloc::{AllocError, Global};
use std::collections::BTreeMap;

/// A number for each text that was seen.
#[derive(Drop)]
pub(crate) struct Texts {
    numbers: BTreeMap<String, usize>,
}

impl Texts {
    /// None was seen.
    pub(crate) fn new(alloc: Global) -> Texts {
        Texts {
            numbers: BTreeMap::new(alloc),
        }
    }

    /// The number of a text: the one that it has, or the next.
    pub(crate) fn number_of(&mut self, text: String) -> Result<usize, AllocError> {
        if let Some(number) = self.numbers.get(text.as_str()) {
            return Ok(*number);
        }
        let next = self.numbers.len();
        if self.numbers.insert(text, next).is_err() {
            return Err(AllocError);
        }
        Ok(next)
    }
}
