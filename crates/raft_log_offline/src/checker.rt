//! A machine that takes the batches of a queue, and knows where indexes are missing.

ghost use Rattle.std.specs.Prelude.{◌≡◌, ℕ, [], None, OnOk, IfErr, IfOk, OnErr, List};
ghost use Rattle.raft_log_record_base.specs.declared.errors.Error.TheVariants.{Memory};
ghost use Rattle.raft_log_offline.specs.Kept.{FollowsAll, FollowsIn, KeepsRuns, IsOutOfMemory, TakesItem, TakesRuns, kept_of};

mod telling;

use crate::group_runs::GroupRuns;
use raft_log_record_base::{FileId, LogQueue, Result};
use raft_log_record_items::LogItem;
use raft_log_replay::{Factory, ReplayMachine};
use std::alloc::{AllocError, Global};
use std::collections::BTreeMap;
pub use telling::Finding;
pub(crate) use telling::join_findings;

/// Reads the batches of a queue, one after another. For each group it keeps the index at which its first run begins,
/// that at which its last one ends, and the first hole between runs. It declines a batch only for lack of memory, and
/// may then only be dropped.
#[derive(Drop)]
pub struct ConsistencyChecker {
    alloc: Global,
    groups: BTreeMap<u64, GroupRuns>,
}

impl ConsistencyChecker {
    /// A checker that has read nothing.
    pub fn new(alloc: Global) -> ConsistencyChecker
        ensures { (group : ℕ) → kept_of result group ≡ None }
    {
        ConsistencyChecker {
            alloc,
            groups: BTreeMap::new(alloc),
        }
    }

    /// Adds the runs of a group after those that are kept of it. If it fails, nothing changes.
    fn follow(&mut self, group: u64, later: GroupRuns) -> Result<(), AllocError>
        ensures { OnOk result (FollowsIn self.old self.new group later) }
    {
        if let Some(found) = self.groups.get_mut(&group) {
            *found = found.followed_by(later);
            return Ok(());
        }
        self.groups.insert(group, later)?;
        Ok(())
    }

    /// Adds the runs of a batch after those that are kept. If it fails, those of some of its items are added.
    fn take(&mut self, items: &[LogItem]) -> Result<(), AllocError>
        ensures { OnOk result (TakesRuns items.now self.old self.new) }
    {
        for item in items {
            self.take_item(item)?;
        }
        Ok(())
    }

    /// Adds the run of an item, if it has any, after what is kept of its group. If it fails, nothing changes.
    fn take_item(&mut self, item: &LogItem) -> Result<(), AllocError>
        ensures { OnOk result (TakesItem item.now self.old self.new) }
    {
        match GroupRuns::of_item(item) {
            Some(runs) => self.follow(item.raft_group_id, runs),
            None => Ok(()),
        }
    }

    /// Adds what another checker keeps, group by group. If it fails, that of some groups is added.
    fn follow_all(&mut self, later: ConsistencyChecker) -> Result<(), AllocError>
        ensures { OnOk result (FollowsAll self.old later self.new) }
    {
        for (group, runs) in later.groups {
            self.follow(group, runs)?;
        }
        Ok(())
    }
}

impl ReplayMachine for ConsistencyChecker {
    ghost reads = { λ queue batches checker. KeepsRuns queue batches checker };

    ghost declines = { λ queue batches error. IsOutOfMemory queue batches error };

    fn replay(&mut self, items: Vec<LogItem>, _file: FileId) -> Result<()> {
        self.take(items.as_slice())?;
        Ok(())
    }

    fn merge(&mut self, later: ConsistencyChecker, _queue: LogQueue) -> Result<()> {
        self.follow_all(later)?;
        Ok(())
    }
}

/// Makes checkers that have read nothing.
#[derive(Drop)]
pub struct ConsistencyCheckerFactory {
    alloc: Global,
}

impl ConsistencyCheckerFactory {
    /// A factory whose checkers take their memory from `alloc`.
    pub fn new(alloc: Global) -> ConsistencyCheckerFactory {
        ConsistencyCheckerFactory { alloc }
    }
}

impl Factory<ConsistencyChecker> for ConsistencyCheckerFactory {
    fn new_target(&self) -> Result<ConsistencyChecker> {
        Ok(ConsistencyChecker::new(self.alloc))
    }
}
