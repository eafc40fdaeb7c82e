//! A list with its length, so that a number can be looked at before a call.

ghost use Rattle.std.specs.Prelude.{◌≡◌, ◌<◌, length};
ghost use Rattle.long_vec.specs.Items.{items_of};

use long_vec::LongVec;
use std::alloc::{AllocError, Global};

#[derive(Drop)]
pub(crate) struct Counted {
    list: LongVec<usize>,
    count: usize,
    ghost counted: { length (items_of list) ≡ count },
}

impl Counted {
    pub(crate) fn new(alloc: Global) -> Counted {
        Counted {
            list: LongVec::new(alloc),
            count: 0,
        }
    }

    pub(crate) fn count(&self) -> usize {
        self.count
    }

    pub(crate) fn push(&mut self, item: usize) -> Result<(), AllocError> {
        let Some(more) = self.count.checked_add(1) else {
            return Err(AllocError);
        };
        self.list.push(item)?;
        self.count = more;
        Ok(())
    }

    pub(crate) fn insert(&mut self, number: usize, item: usize) -> Result<bool, AllocError> {
        let Some(more) = self.count.checked_add(1) else {
            return Err(AllocError);
        };
        if number > self.count {
            return Ok(false);
        }
        self.list.insert(number, item)?;
        self.count = more;
        Ok(true)
    }

    pub(crate) fn remove(&mut self, number: usize) -> Option<usize> {
        if number >= self.count {
            return None;
        }
        self.count -= 1;
        Some(self.list.remove(number))
    }

    pub(crate) fn exchange(&mut self, number: usize, item: usize) -> Option<usize> {
        if number >= self.count {
            return None;
        }
        Some(self.list.exchange(number, item))
    }

    pub(crate) fn at(&self, number: usize) -> Option<usize> {
        if number >= self.count {
            return None;
        }
        Some(*self.list.at(number))
    }

    /// How many stand before the first that is as large.
    pub(crate) fn below(&self, bound: usize) -> usize {
        self.list.partition_point(|item| *item < bound)
    }

    /// The items by turns, each times 31 and the next one more, without what doesn't fit.
    pub(crate) fn mixed(&self) -> usize {
        let mut mixed: usize = 0;
        for block in self.list.blocks() {
            for item in block {
                mixed = mixed.wrapping_mul(31).wrapping_add(*item);
            }
        }
        mixed
    }

    /// Takes an item out, and puts it back where it was.
    pub(crate) fn there_and_back(&mut self, number: usize) -> bool {
        if number >= self.count {
            return false;
        }
        let near = self.list.block_of(number);
        let item = self.list.remove(number);
        self.list.put(number, item, near);
        true
    }
}
