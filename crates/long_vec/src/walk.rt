//! The items, one after another.

ghost use Rattle.std.specs.Prelude.{◌≡◌, ◌∷◌, [], MatchOption};
ghost use Rattle.long_vec.specs.Items.{items_of};
ghost use Rattle.long_vec.specs.Walks.{left};

use crate::LongVec;

/// A walk over the items, from the first to the last.
#[derive(Drop)]
pub struct Items<'a, T> {
    /// Those of the block that is walked through.
    block: &'a [T],
    /// The blocks behind it.
    behind: &'a [Vec<T>],
}

impl<T> LongVec<T> {
    /// The items, one after another.
    pub fn items(&self) -> Items<'_, T>
        ensures { left result ≡ items_of self.now }
    {
        Items {
            block: &[],
            behind: self.blocks.as_slice(),
        }
    }
}

impl<'a, T> Items<'a, T> {
    /// The next item; `None` behind the last.
    pub fn next(&mut self) -> Option<&'a T>
        ensures { MatchOption result (left self.old ≡ []) (λ item. left self.old ≡ item.now ∷ left self.new) }
    {
        while self.block.is_empty() {
            let (block, behind) = self.behind.split_first()?;
            self.block = block.as_slice();
            self.behind = behind;
        }
        let (item, block) = self.block.split_first()?;
        self.block = block;
        Some(item)
    }
}
