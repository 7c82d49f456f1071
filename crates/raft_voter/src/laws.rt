//! Laws over whole runs that follow from the definitions alone. Each is the contract of an empty function.
ghost use Rattle.raft_voter.specs.Laws.{BaseIsCommitted, EntriesAreTheLog, MatchedIsAcknowledged, RangeIsKept, CommitNeverFalls, GroupIsolation, MatchedAppend, MatchedEntriesStand, OneVotePerTerm, RepeatIsIdempotent, RoundsJoin, RoundsPart, StorableIsKept, StoredVotersAreRestored, TermsNeverFall};

/// Rounds from one world to a second, and later rounds from there to a third, together lead from the first to the
/// third. Their cuts are joined in the same order.
pub fn rounds_join()
    ensures { RoundsJoin }
{}

/// Rounds that lead from one world to another can be split anywhere, each part with the cuts of its own rounds.
pub fn rounds_part()
    ensures { RoundsPart }
{}

/// No group grants its vote to two candidates in one term, unless it took a request to retire between them (Raft paper,
/// election safety).
pub fn one_vote_per_term()
    ensures { OneVotePerTerm }
{}

/// A group's term never falls, unless it took a request to retire.
pub fn terms_never_fall()
    ensures { TermsNeverFall }
{}

/// A group's commit never falls, unless it took a request to retire.
pub fn commit_never_falls()
    ensures { CommitNeverFalls }
{}

/// If a group's base is at most its commit, it stays so. A fresh voter's is.
pub fn base_is_committed()
    ensures { BaseIsCommitted }
{}

/// The reply to a request depends only on the requests that its own group took before it, whatever other groups do.
pub fn group_isolation()
    ensures { GroupIsolation }
{}

/// The log after a matched Append, index by index (Raft paper, AppendEntries receiver, steps 3 and 4).
pub fn matched_append()
    ensures { MatchedAppend }
{}

/// An entry that a matched Append brought stays until a later Append brings another term at or below it. A compaction,
/// an Install or a Retire may remove it too.
pub fn matched_entries_stand()
    ensures { MatchedEntriesStand }
{}

/// If a Vote, Append, Compact or Install is repeated at once, it gets the same reply and changes nothing.
pub fn repeat_is_idempotent()
    ensures { RepeatIsIdempotent }
{}

/// After an Append whose reply is `Matched`, the voter has an entry at each index above the base and up to the matched
/// one. It stays until a later Append brings another term at or below it. A compaction, an Install or a Retire may
/// remove it too.
pub fn matched_is_acknowledged()
    ensures { MatchedIsAcknowledged }
{}

/// The entries that a Read returns are the voter's, one for each index that it asked for.
pub fn entries_are_the_log()
    ensures { EntriesAreTheLog }
{}

/// A fresh voter is in range, and requests keep a voter in range.
pub fn range_is_kept()
    ensures { RangeIsKept }
{}

/// A fresh voter can be stored, and requests keep a voter so that it can be stored.
pub fn storable_is_kept()
    ensures { StorableIsKept }
{}

/// For a voter that can be stored, `read_state` and `read_entry` read what `state_bytes` and `entry_bytes` wrote,
/// unless memory runs out. `Voter::restore` makes that same voter from it.
pub fn stored_voters_are_restored()
    ensures { StoredVotersAreRestored }
{}
