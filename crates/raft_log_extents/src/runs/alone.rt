//! Entries that come alone: each is kept with the last run.
ghost use Rattle.std.specs.Prelude.{◌≡◌, ℕ, ◌+◌, ◌-◌, ◌<◌, ◌↔◌, ◌++◌, [], ◌∷◌, IsTrue, length, take, slice_index_or};
ghost use Rattle.std.specs.VecDeque.{deque_capacity, deque_len};
ghost use Rattle.raft_log_extents.specs.Runs.{one_more};

use super::Runs;
use crate::words::push_place;
use crate::{Place, Run};
use std::collections::VecDeque;

impl Runs {
    ghost use Rattle.raft_log_extents.specs.RunLists.{places, HasRoom};

    /// Whether the last run can have one more entry that came alone.
    pub(super) fn takes_alone(&self) -> bool
        ensures some { IsTrue result → 0 < deque_len self.now.runs }
        ensures room { IsTrue result → (d : Run)
            → (slice_index_or self.now.runs.items (deque_len self.now.runs - 1) d).alone < 4294967295 }
        ensures takes { 0 < length (places self.now) → length (places self.now) < 4294967295 → IsTrue result }
    {
        let count = self.runs.len();
        count > 0 && self.runs[count - 1].alone < u32::MAX
    }

    /// Appends the place of an entry that came alone.
    pub(super) fn push_alone(&mut self, place: Place)
        requires some { 0 < deque_len self.old.runs }
        requires few { (d : Run)
            → (slice_index_or self.old.runs.items (deque_len self.old.runs - 1) d).alone < 4294967295 }
        requires room { HasRoom self.old 1 }
        ensures items { places self.new ≡ places self.old ++ (place ∷ []) }
        ensures sizes { (deque_len self.new.runs ≡ deque_len self.old.runs)
            × (deque_len self.new.starts ≡ deque_len self.old.starts + 8) }
        ensures room { (m : ℕ) → HasRoom self.old (1 + m) → HasRoom self.new m }
    {
        add_one(&mut self.runs);
        push_place(&mut self.starts, place);
        self.len += 1;
    }
}

/// Counts one more entry that came alone in the last run.
fn add_one(runs: &mut VecDeque<Run>)
    requires some { 0 < deque_len runs.old }
    requires few { (d : Run) → (slice_index_or runs.old.items (deque_len runs.old - 1) d).alone < 4294967295 }
    ensures items { (d : Run) → runs.new.items ≡ take (deque_len runs.old - 1) runs.old.items
        ++ (one_more (slice_index_or runs.old.items (deque_len runs.old - 1) d) ∷ []) }
    ensures len { deque_len runs.new ≡ deque_len runs.old }
    ensures capacity { deque_capacity runs.new ≡ deque_capacity runs.old }
{
    let last = runs.len() - 1;
    runs[last].alone += 1;
}
