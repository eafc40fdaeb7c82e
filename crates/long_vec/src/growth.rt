//! Room: a block more, or a block in two.

ghost use Rattle.std.specs.Prelude.{◌≡◌, ◌<◌, ◌≤◌, ◌+◌, ◌∷◌, ◌++◌, [], if◌then◌else◌, insert, is_ok, length, IfErr, OnOk, vec_capacity, vec_len};
ghost use Rattle.long_vec.specs.Blocks.{HasItem};
ghost use Rattle.long_vec.specs.Items.{items_of, capacity_of};

use crate::LongVec;
use crate::carry::put_in;
use std::alloc::{AllocError, AllocFailed};

/// A block of so many items is split, and not made larger.
const BLOCK: usize = 256;

impl<T: Drop> LongVec<T> {
    /// Room for one more block. Most lists have one block, so the first takes no room for others.
    fn reserve_block(&mut self) -> Result<(), AllocError>
        ensures items { self.new.blocks.items ≡ self.old.blocks.items }
        ensures len { vec_len self.new.blocks ≡ vec_len self.old.blocks }
        ensures room { OnOk result (vec_len self.new.blocks < vec_capacity self.new.blocks) }
    {
        if self.blocks.is_empty() {
            self.blocks.reserve_exact(1)
        } else {
            self.blocks.reserve(1)
        }
    }

    /// A block with room for one item, behind the others.
    fn add_block(&mut self) -> Result<(), AllocError>
        ensures items { items_of self.new ≡ items_of self.old }
        ensures capacity { capacity_of self.old ≤ capacity_of self.new }
        ensures room { OnOk result (length (items_of self.new) < capacity_of self.new) }
        ensures one { OnOk result (vec_len self.new.blocks ≡ vec_len self.old.blocks + 1) }
    {
        self.reserve_block()?;
        let alloc = *self.blocks.allocator();
        let block = Vec::with_capacity(alloc, 1)?;
        self.blocks.push(block)?;
        Ok(())
    }

    /// Block i in two: its second half goes to a block of its own, and leaves its room behind.
    fn split(&mut self, i: usize) -> Result<(), AllocError>
        requires { HasItem self.old.blocks.items i }
        ensures items { items_of self.new ≡ items_of self.old }
        ensures capacity { capacity_of self.old ≤ capacity_of self.new }
        ensures room { OnOk result (length (items_of self.new) < capacity_of self.new) }
    {
        self.reserve_block()?;
        let half = self.blocks[i].len() / 2;
        let behind = self.blocks[i].split_off(half)?;
        put_in(&mut self.blocks, i + 1, behind);
        Ok(())
    }

    /// Makes room, best for an item that comes to this number. What fails leaves the items.
    pub fn make_room(&mut self, number: usize) -> Result<(), AllocError>
        requires { number ≤ length (items_of self.old) }
        ensures items { items_of self.new ≡ items_of self.old }
        ensures capacity { capacity_of self.old ≤ capacity_of self.new }
        ensures room { OnOk result (length (items_of self.new) < capacity_of self.new) }
    {
        if self.blocks.is_empty() {
            return self.add_block();
        }
        let (i, k) = self.place(number, usize::MAX);
        if self.has_room(i) {
            return Ok(());
        }
        if self.blocks[i].len() < BLOCK {
            return self.blocks[i].reserve(1);
        }
        if k == self.blocks[i].len() && i == self.blocks.len() - 1 {
            return self.add_block();
        }
        self.split(i)
    }

    /// Puts the item in at this number. Without memory nothing is put in, and the item comes back.
    pub fn insert(&mut self, number: usize, item: T) -> Result<(), AllocFailed<T>>
        requires { number ≤ length (items_of self.old) }
        ensures items { items_of self.new ≡
            (if is_ok result then insert (items_of self.old) number item else items_of self.old) }
        ensures value_returned { IfErr result (λ failed. failed.value ≡ item) }
        ensures capacity { capacity_of self.old ≤ capacity_of self.new }
    {
        if self.make_room(number).is_err() {
            return Err(AllocFailed { value: item });
        }
        self.put(number, item, usize::MAX);
        Ok(())
    }

    /// Puts the item in behind the last. Without memory nothing is put in, and the item comes back.
    #[inline(always)]
    pub fn push(&mut self, item: T) -> Result<(), AllocFailed<T>>
        ensures items { items_of self.new ≡
            (if is_ok result then items_of self.old ++ item ∷ [] else items_of self.old) }
        ensures value_returned { IfErr result (λ failed. failed.value ≡ item) }
        ensures capacity { capacity_of self.old ≤ capacity_of self.new }
    {
        let count = self.blocks.len();
        if count > 0 && self.blocks[count - 1].len() < BLOCK {
            return self.blocks[count - 1].push(item);
        }
        match self.add_block() {
            Ok(()) => self.blocks[count].push(item),
            Err(_) => Err(AllocFailed { value: item }),
        }
    }
}
