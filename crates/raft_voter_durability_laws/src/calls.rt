//! The other calls of an engine: purges, closes, forks and opens.

ghost use Rattle.raft_voter_durability_laws.specs.Laws.{EnginesLeaveLogs, FreshLogsHaveFreshVoters, OpensFindVoters, PurgesKeepVoters, VotersAreLeft};

/// A purge changes no voter, whether it succeeds or fails. If it leaves the engine failed, the log's files store
/// exactly these voters.
pub fn purges_keep_voters()
    ensures { PurgesKeepVoters }
{}

/// If an engine is dropped, its log's files can be opened as they are, with the same contents and pending batches.
pub fn engines_leave_logs()
    ensures { EnginesLeaveLogs }
{}

/// After an engine was closed or dropped, its log's files store the same voters. If a round was cut off and the log is
/// then forked, the source's files still store possible voters.
pub fn voters_are_left()
    ensures { VotersAreLeft }
{}

/// An empty log stores fresh voters. If a first open succeeds, the engine keeps them; if it fails, a later open finds
/// them.
pub fn fresh_logs_have_fresh_voters()
    ensures { FreshLogsHaveFreshVoters }
{}

/// An open after a round was cut off finds voters that took its requests below one place, except those at refused
/// places. If it fails, a later open finds such voters too. The open may be in place, after a crash, or of a fork.
pub fn opens_find_voters()
    ensures { OpensFindVoters }
{}
