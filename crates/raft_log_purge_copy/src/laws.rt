//! Why files of Append may be deleted after groups were rewritten, and why the reason of a part is
//! one of the whole purge.

ghost use Rattle.raft_log_purge_copy.specs.Groups.{RewrittenGroupsArePast};
ghost use Rattle.raft_log_purge_copy.specs.Reasons.{LaterReasonsAreReasons};

/// If all groups are rewritten up to a file, and no tombstone is owed, Append may begin after that file. The premise is
/// that no entry of a group is in an earlier file than the group's first one in its queue.
pub fn rewritten_groups_are_past()
    ensures { RewrittenGroupsArePast }
{}

/// A reason for which a later part of a purge fails is one of the whole purge: no earlier step takes a cause away.
pub fn later_reasons_are_reasons()
    ensures { LaterReasonsAreReasons }
{}
