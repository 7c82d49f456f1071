//! What is kept of the runs of one group.

ghost use Rattle.std.specs.Prelude.{◌≡◌};
ghost use Rattle.raft_log_offline.specs.Kept.{followed, hole_between, kept};
ghost use Rattle.raft_log_offline.specs.Runs.{run_in, run_of_content};

use raft_log_record_items::{EntryIndex, LogItem, LogItemContent};

/// What is kept of the runs of one group in the records of a queue. A run is the entries of one
/// item.
#[derive(Clone, Copy, Debug, PartialEq, Eq)]
pub struct GroupRuns {
    /// The index at which the first run begins.
    pub first: u64,
    /// The index at which the last one ends.
    pub last: u64,
    /// The last index of the first run after which indexes are missing before the next one.
    pub hole_after: Option<u64>,
}

impl GroupRuns {
    /// The entries of an item as one run, if it has any.
    pub fn of_item(item: &LogItem) -> Option<GroupRuns>
        ensures { result ≡ kept (run_of_content item.now.content) }
    {
        match &item.content {
            LogItemContent::EntryIndexes(entries) => GroupRuns::of_entries(entries.as_slice()),
            _ => None,
        }
    }

    /// These entries as one run, if there are any.
    fn of_entries(entries: &[EntryIndex]) -> Option<GroupRuns>
        ensures { result ≡ kept (run_in entries.now) }
    {
        let first = entries.first()?;
        let last = entries.last()?;
        Some(GroupRuns {
            first: first.index,
            last: last.index,
            hole_after: None,
        })
    }

    /// What is kept of these runs and later ones together.
    pub fn followed_by(self, later: GroupRuns) -> GroupRuns
        ensures { result ≡ followed self later }
    {
        GroupRuns {
            first: self.first,
            last: later.last,
            hole_after: self
                .hole_after
                .or(self.hole_before(later))
                .or(later.hole_after),
        }
    }

    /// Where these runs end, if the later ones start past that + 1.
    fn hole_before(self, later: GroupRuns) -> Option<u64>
        ensures { result ≡ hole_between self later }
    {
        if later.first.saturating_sub(self.last) > 1 {
            Some(self.last)
        } else {
            None
        }
    }
}
