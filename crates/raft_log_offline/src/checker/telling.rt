//! What checkers find: the groups that lack indexes.

ghost use Rattle.std.specs.Prelude.{OnOk, IfOk};
ghost use Rattle.raft_log_offline.specs.Findings.{Lists, NotesFinding, TellsOver, found_among, told_by, told_over};

use super::ConsistencyChecker;
use std::alloc::{AllocError, Global};
use std::collections::BTreeMap;

/// A group, and the last index of its first run after which indexes are missing before the next run.
pub type Finding = (u64, u64);

impl ConsistencyChecker {
    /// The findings, sorted by group.
    pub fn finish(self) -> Result<Vec<Finding>, AllocError>
        ensures { IfOk result (λ findings. Lists (told_by self) findings.items) }
    {
        let alloc = self.alloc;
        let mut found = BTreeMap::new(alloc);
        self.tell_over(&mut found)?;
        list(alloc, found)
    }

    /// Puts the findings into a map, in place of those of the same groups. If it fails, some are there.
    fn tell_over(self, found: &mut BTreeMap<u64, u64>) -> Result<(), AllocError>
        ensures { OnOk result (TellsOver (told_by self) found.old found.new) }
    {
        for (group, runs) in self.groups {
            note(found, group, runs.hole_after)?;
        }
        Ok(())
    }
}

/// Puts the finding of a group, if it has one, into a map, in place of its earlier one. If it fails, nothing changes.
fn note(found: &mut BTreeMap<u64, u64>, group: u64, end: Option<u64>) -> Result<(), AllocError>
    ensures { OnOk result (NotesFinding group end found.old found.new) }
{
    if let Some(end) = end {
        found.insert(group, end)?;
    }
    Ok(())
}

/// The findings of both queues, sorted by group: for a group with two, the one in Rewrite.
pub(crate) fn join_findings(
    alloc: Global,
    append: ConsistencyChecker,
    rewrite: ConsistencyChecker,
) -> Result<Vec<Finding>, AllocError>
    ensures { IfOk result (λ findings. Lists (told_over (told_by rewrite) (told_by append)) findings.items) }
{
    let mut found = BTreeMap::new(alloc);
    append.tell_over(&mut found)?;
    rewrite.tell_over(&mut found)?;
    list(alloc, found)
}

/// The entries of a map, in the order of their groups.
fn list(alloc: Global, found: BTreeMap<u64, u64>) -> Result<Vec<Finding>, AllocError>
    ensures { IfOk result (λ findings. Lists (found_among found) findings.items) }
{
    let mut findings = Vec::new(alloc);
    for finding in found {
        findings.push(finding)?;
    }
    Ok(findings)
}
