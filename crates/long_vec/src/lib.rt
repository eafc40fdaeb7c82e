//! A list in blocks: an item is put in or taken out anywhere by moving those of its block alone.
#![tactic(auto)]

mod carry;
mod growth;
mod places;
mod search;
mod walk;

ghost use Rattle.std.specs.Prelude.{◌≡◌, ◌<◌, ◌≤◌, ◌+◌, [], ℕ, insert, length, slice_index_or, slice_set};
ghost use Rattle.std.specs.List.{remove};
ghost use Rattle.long_vec.specs.Blocks.{items_in, IsAt};
ghost use Rattle.long_vec.specs.Items.{items_of, capacity_of};

use std::alloc::Global;
use std::mem;
pub use walk::Items;

/// A list in blocks.
#[derive(Drop)]
pub struct LongVec<T> {
    blocks: Vec<Vec<T>>,
}

impl<T> LongVec<T> {
    /// One of no items. It asks for no memory.
    pub fn new(alloc: Global) -> LongVec<T>
        ensures items { items_of result ≡ [] }
        ensures capacity { capacity_of result ≡ 0 }
    {
        LongVec {
            blocks: Vec::new(alloc),
        }
    }

    /// What it asks for memory.
    pub fn allocator(&self) -> &Global {
        self.blocks.allocator()
    }

    /// The blocks, for a loop over all items: one over the blocks, and one over each of them.
    pub fn blocks(&self) -> &[Vec<T>]
        ensures { items_in result.now ≡ items_of self.now }
    {
        self.blocks.as_slice()
    }

    /// The block that has the item of this number.
    pub fn block_of(&self, number: usize) -> usize
        requires { number < length (items_of self.now) }
        ensures { (k : ℕ) × IsAt self.now.blocks.items number result k }
    {
        self.find(number).0
    }

    /// The item of this number.
    pub fn at(&self, number: usize) -> &T
        requires { number < length (items_of self.now) }
        ensures { result.now ≡ slice_index_or (items_of self.now) number result.now }
    {
        let (i, k) = self.find(number);
        &self.blocks[i][k]
    }

    /// Puts another item in the place of the one of this number, which it returns.
    pub fn exchange(&mut self, number: usize, item: T) -> T
        requires { number < length (items_of self.old) }
        ensures value { result ≡ slice_index_or (items_of self.old) number result }
        ensures items { items_of self.new ≡ slice_set (items_of self.old) number item }
        ensures capacity { capacity_of self.new ≡ capacity_of self.old }
    {
        let (i, k) = self.find(number);
        mem::replace(&mut self.blocks[i][k], item)
    }

    /// Takes out the item of this number. Its room stays.
    pub fn remove(&mut self, number: usize) -> T
        requires { number < length (items_of self.old) }
        ensures value { result ≡ slice_index_or (items_of self.old) number result }
        ensures items { items_of self.new ≡ remove (items_of self.old) number }
        ensures len { length (items_of self.new) + 1 ≡ length (items_of self.old) }
        ensures capacity { capacity_of self.new ≡ capacity_of self.old }
        // So it can be put back.
        ensures room { length (items_of self.new) < capacity_of self.new }
    {
        let (i, k) = self.find(number);
        self.blocks[i].remove(k)
    }
}

impl<T: Drop> LongVec<T> {
    /// Puts the item in at this number, where there is room: it asks for no memory. Where it comes
    /// between two blocks it goes to the one that is nearer to block `near`, as the one that it was
    /// taken from; this costs or spares time alone.
    pub fn put(&mut self, number: usize, item: T, near: usize)
        requires within { number ≤ length (items_of self.old) }
        requires room { length (items_of self.old) < capacity_of self.old }
        ensures items { items_of self.new ≡ insert (items_of self.old) number item }
        ensures capacity { capacity_of self.new ≡ capacity_of self.old }
    {
        let (i, k) = self.place(number, near);
        let to = self.nearest_room(i);
        if i <= to {
            self.carry_behind(i, k, item, to);
        } else {
            self.carry_before(i, k, item, to);
        }
    }
}
