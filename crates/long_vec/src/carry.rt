//! An item that is put into a full block: one is handed on, from block to block, to the nearest room.

ghost use Rattle.std.specs.Prelude.{◌≡◌, ◌<◌, ◌≤◌, ◌∷◌, ◌++◌, [], insert, vec_len, vec_capacity};
ghost use Rattle.long_vec.specs.Blocks.{HasRoom, IsNumberIn, with_put};
ghost use Rattle.long_vec.specs.Items.{items_of, capacity_of};

use crate::LongVec;

/// Puts the item in at this number.
pub(crate) fn put_in<T: Drop>(block: &mut Vec<T>, number: usize, item: T)
    requires within { number ≤ vec_len block.old }
    requires room { vec_len block.old < vec_capacity block.old }
    ensures items { block.new.items ≡ insert block.old.items number item }
    ensures capacity { vec_capacity block.new ≡ vec_capacity block.old }
{
    match block.insert(number, item) {
        Ok(()) | Err(_) => {}
    }
}

/// Puts the item in at this number, and returns the last one, which leaves the block.
fn last_out<T: Drop>(block: &mut Vec<T>, number: usize, item: T) -> T
    requires { number ≤ vec_len block.old }
    ensures items { insert block.old.items number item ≡ block.new.items ++ result ∷ [] }
    ensures capacity { vec_capacity block.new ≡ vec_capacity block.old }
{
    if number == block.len() {
        return item;
    }
    let last = block.take_last();
    put_in(block, number, item);
    last
}

/// Puts the item in at this number, and returns the first one, which leaves the block.
fn first_out<T: Drop>(block: &mut Vec<T>, number: usize, item: T) -> T
    requires { number ≤ vec_len block.old }
    ensures items { insert block.old.items number item ≡ result ∷ block.new.items }
    ensures capacity { vec_capacity block.new ≡ vec_capacity block.old }
{
    if number == 0 {
        return item;
    }
    let first = block.remove(0);
    put_in(block, number - 1, item);
    first
}

impl<T: Drop> LongVec<T> {
    /// Puts the item in at number k of block i. Each block from there on hands its last item on to the
    /// next, up to block `to`, which has room.
    pub(crate) fn carry_behind(&mut self, mut i: usize, mut k: usize, mut item: T, to: usize)
        requires order { i ≤ to }
        requires room { HasRoom self.old.blocks.items to }
        requires within { IsNumberIn self.old.blocks.items i k }
        ensures items { items_of self.new ≡ with_put self.old.blocks.items i k item }
        ensures capacity { capacity_of self.new ≡ capacity_of self.old }
    {
        while i < to {
            item = last_out(&mut self.blocks[i], k, item);
            k = 0;
            i += 1;
        }
        put_in(&mut self.blocks[i], k, item);
    }

    /// The same where block `to` stands before: each block hands its first item back.
    pub(crate) fn carry_before(&mut self, mut i: usize, mut k: usize, mut item: T, to: usize)
        requires block { i < vec_len self.old.blocks }
        requires order { to ≤ i }
        requires room { HasRoom self.old.blocks.items to }
        requires within { IsNumberIn self.old.blocks.items i k }
        ensures items { items_of self.new ≡ with_put self.old.blocks.items i k item }
        ensures capacity { capacity_of self.new ≡ capacity_of self.old }
    {
        while to < i {
            item = first_out(&mut self.blocks[i], k, item);
            i -= 1;
            k = self.blocks[i].len();
        }
        put_in(&mut self.blocks[i], k, item);
    }
}
