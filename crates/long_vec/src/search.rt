//! Where the items end of which a test holds.

ghost use Rattle.std.specs.Prelude.{◌≡◌, ◌≤◌, ◌<◌, ◌^◌, Bool, true, false, length};
ghost use Rattle.std.specs.Fn.{ComputesKey};
ghost use Rattle.std.specs.List.Sorted.{IsPartitionedBy, IsPartitionPoint};
ghost use Rattle.long_vec.specs.Items.{items_of};

use crate::LongVec;

impl<T> LongVec<T> {
    /// How many items there are of which the test holds, where these come before the others. It is
    /// asked of the last item of each block up to there, and within one block.
    pub fn partition_point<P: FnMut(&T) -> bool>(&self, mut pred: P) -> usize
        requires { P.IsAlwaysCallable pred }
        ensures bound { result ≤ length (items_of self.now) }
        ensures partitioned { length (items_of self.now) < 2 ^ 64
            → (p : T → Bool) → ComputesKey P.FnMut p pred → IsPartitionedBy p (items_of self.now)
            → IsPartitionPoint (λ y. p y ≡ true) (λ y. p y ≡ false) (items_of self.now) result }
    {
        let mut before: usize = 0;
        for i in 0..self.blocks.len() {
            let block = &self.blocks[i];
            let count = block.len();
            if count == 0 {
                continue;
            }
            if !pred(&block[count - 1]) {
                return before.saturating_add(block.as_slice().partition_point(pred));
            }
            before = before.saturating_add(count);
        }
        before
    }
}
