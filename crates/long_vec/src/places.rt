//! Where an item is, or comes to: in which block, and at which number there.

ghost use Rattle.std.specs.Prelude.{◌≡◌, ◌<◌, ◌≤◌, ◌+◌, ◌↔◌, Decides, IsTrue, length};
ghost use Rattle.long_vec.specs.Blocks.{IsAt, IsPlace, HasRoom};
ghost use Rattle.long_vec.specs.Items.{items_of, capacity_of};

use crate::LongVec;

impl<T> LongVec<T> {
    /// The block that has the item of this number, and the item's number there.
    pub(crate) fn find(&self, number: usize) -> (usize, usize)
        requires { number < length (items_of self.now) }
        ensures { IsAt self.now.blocks.items number result.0 result.1 }
    {
        let mut i = 0;
        let mut k = number;
        while k >= self.blocks[i].len() {
            k -= self.blocks[i].len();
            i += 1;
        }
        (i, k)
    }

    /// A block to which an item of this number may come, and its number there. Between two blocks it
    /// may come to either: the one that is nearer to the block `near`.
    pub(crate) fn place(&self, number: usize, near: usize) -> (usize, usize)
        requires some { 0 < length self.now.blocks.items }
        requires within { number ≤ length (items_of self.now) }
        ensures { IsPlace self.now.blocks.items number result.0 result.1 }
    {
        let mut i = 0;
        let mut k = number;
        while k > self.blocks[i].len() {
            k -= self.blocks[i].len();
            i += 1;
        }
        while i < near && k == self.blocks[i].len() && i < self.blocks.len() - 1 {
            k = 0;
            i += 1;
        }
        (i, k)
    }

    /// Whether there is a block i, and it has room.
    pub(crate) fn has_room(&self, i: usize) -> bool
        ensures { IsTrue result ↔ HasRoom self.now.blocks.items i }
    {
        i < self.blocks.len() && self.blocks[i].len() < self.blocks[i].capacity()
    }

    /// Whether there is room for one more item.
    pub fn has_any_room(&self) -> bool
        ensures { Decides result (length (items_of self.now) < capacity_of self.now) }
    {
        for i in 0..self.blocks.len() {
            if self.has_room(i) {
                return true;
            }
        }
        false
    }

    /// The nearest block to block i that has room.
    pub(crate) fn nearest_room(&self, i: usize) -> usize
        requires block { i < length self.now.blocks.items }
        requires room { length (items_of self.now) < capacity_of self.now }
        ensures { HasRoom self.now.blocks.items result }
    {
        for d in 0..self.blocks.len() {
            if self.has_room(i + d) {
                return i + d;
            }
            if d <= i && self.has_room(i - d) {
                return i - d;
            }
        }
        0
    }
}
