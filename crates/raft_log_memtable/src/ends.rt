//! The two ends of a group's entries.
ghost use Rattle.std.specs.Prelude.{◌≡◌, ℕ, List, ◌+◌, ◌-◌, ◌≤◌, ◌<◌, ◌^◌, length, min, IfSome, IfNone};
ghost use Rattle.raft_log_record_items.specs.declared.entry.EntryIndex.{EntryIndex};
ghost use Rattle.raft_log_record_items.specs.Run.{IsRun};
ghost use Rattle.raft_log_model_laws.specs.Item.Item.{Compact};
ghost use Rattle.raft_log_extents.specs.Entries.{run_of};
ghost use Rattle.raft_log_memtable_index.specs.Shown.{next_span, MayFollow};
ghost use Rattle.raft_log_memtable.specs.Table.{window_of};

use raft_log_record_items::EntryIndex;

/// The two ends of a group's entries: the first index, and the index after the last.
#[derive(Clone, Copy, Debug, PartialEq, Eq)]
pub struct Ends {
    /// The first index.
    pub first: u64,
    /// The index after the last.
    pub end: u64,
}

impl Ends {
    /// The ends after a run of entries, or `None` if it would leave a hole.
    #[tactic(auto, unfolding(raft_log_machine_laws::specs::Whereabouts::top))]
    pub fn after_run(self, entries: &[EntryIndex]) -> Option<Ends>
        requires { IsRun entries.now }
        ensures follows { IfSome result (λ _. MayFollow (window_of self) (run_of entries.now)) }
        ensures ends { IfSome result (λ e. window_of e ≡ next_span (window_of self) (run_of entries.now)) }
        ensures hole { IfNone result (MayFollow (window_of self) (run_of entries.now) → ⊥) }
    {
        let Some(front) = entries.first() else {
            return Some(self);
        };
        let stands = self.first < self.end;
        if stands && self.end < front.index {
            return None;
        }
        let first = if stands {
            self.first.min(front.index)
        } else {
            front.index
        };
        let end = front.index + entries.len() as u64;
        Some(Ends { first, end })
    }

    /// The ends after a compaction.
    pub fn after_compact(self, index: u64) -> Ends
        ensures { window_of result
            ≡ next_span {E = EntryIndex} {V = List ℕ} (window_of self) (Compact index) }
    {
        let dropped = index
            .saturating_sub(self.first)
            .min(self.end.saturating_sub(self.first));
        Ends {
            first: self.first + dropped,
            end: self.end,
        }
    }
}
