//! Counts of the entries in all groups.
ghost use Rattle.std.specs.Prelude.{◌≡◌, ◌+◌, ◌-◌, ◌^◌, min};
ghost use Rattle.raft_log_memtable.specs.Stats.{added, deleted, live, no_entries};

use raft_log_record_base::LogQueue;

/// Counts of the entries of all groups. No count wraps: it stops at 2^64 - 1 and at 0.
#[derive(Clone, Copy, Debug, PartialEq, Eq)]
pub struct GlobalStats {
    /// Live entries in Append.
    pub live_append_entries: u64,
    /// Entries that were written to Rewrite. A reset leaves those that are live.
    pub rewrite_entries: u64,
    /// Those of them that aren't live any more. A reset makes this 0.
    pub deleted_rewrite_entries: u64,
}

impl GlobalStats {
    /// No entries.
    pub fn new() -> Self
        ensures { result ≡ no_entries }
    {
        GlobalStats {
            live_append_entries: 0,
            rewrite_entries: 0,
            deleted_rewrite_entries: 0,
        }
    }

    /// Adds `count` entries that were written to a queue.
    pub fn add(&mut self, queue: LogQueue, count: u64)
        ensures { self.new ≡ added queue count self.old }
    {
        match queue {
            LogQueue::Append => self.live_append_entries = self
                .live_append_entries
                .saturating_add(count),
            LogQueue::Rewrite => self.rewrite_entries = self.rewrite_entries.saturating_add(count),
        }
    }

    /// Takes note that `count` entries of a queue aren't live any more.
    pub fn delete(&mut self, queue: LogQueue, count: u64)
        ensures { self.new ≡ deleted queue count self.old }
    {
        match queue {
            LogQueue::Append => self.live_append_entries = self
                .live_append_entries
                .saturating_sub(count),
            LogQueue::Rewrite => {
                self.deleted_rewrite_entries = self.deleted_rewrite_entries.saturating_add(count);
            }
        }
    }

    /// The number of live entries in a queue.
    pub fn live_entries(&self, queue: LogQueue) -> u64
        ensures { result ≡ live queue self.now }
    {
        match queue {
            LogQueue::Append => self.live_append_entries,
            LogQueue::Rewrite => self
                .rewrite_entries
                .saturating_sub(self.deleted_rewrite_entries),
        }
    }

    /// The number of entries that were written to Rewrite, as the field of this name counts them.
    pub fn rewrite_entries(&self) -> u64
        ensures { result ≡ self.now.rewrite_entries }
    {
        self.rewrite_entries
    }

    /// The number of these that aren't live any more.
    pub fn deleted_rewrite_entries(&self) -> u64
        ensures { result ≡ self.now.deleted_rewrite_entries }
    {
        self.deleted_rewrite_entries
    }

    /// Rewrite was compacted: entries that aren't live are no longer counted.
    pub fn reset_rewrite_counters(&mut self)
        ensures { self.new ≡ record self.old {
          rewrite_entries = self.old.rewrite_entries - self.old.deleted_rewrite_entries;
          deleted_rewrite_entries = 0;
        } }
    {
        self.rewrite_entries = self
            .rewrite_entries
            .saturating_sub(self.deleted_rewrite_entries);
        self.deleted_rewrite_entries = 0;
    }
}
