//! What follows from a store keeping its voters.

ghost use Rattle.raft_voter_log.specs.Entries.{ReadEntriesAreTheVoters};
ghost use Rattle.raft_voter_log.specs.Kept.{ArmsKeepVoters, KeptVotersAreTold, StatesAreVoters, VotersHaveNoOwnKey};

/// If a store's log stores voters, the store lists just these. So a call that keeps them doesn't change the list; a
/// purge keeps them, unless it leaves the store failed.
pub fn kept_voters_are_told()
    ensures { KeptVotersAreTold }
{}

/// No group of a store's log has one of the log's own keys, so no purge fails for one.
pub fn voters_have_no_own_key()
    ensures { VotersHaveNoOwnKey }
{}

/// Arming a fault that makes no place unreadable changes no voter.
pub fn arms_keep_voters()
    ensures { ArmsKeepVoters }
{}

/// A store reads no file for `status`, `first_index`, `last_index` and `term`: it returns what its outlines have. These
/// are the values of the voters that it serves.
pub fn states_are_voters()
    ensures { StatesAreVoters }
{}

/// If a store's log stores voters, the entries that a store reads of a group are the first that its voter has between
/// the asked indexes, as many as the limit allows.
pub fn read_entries_are_the_voters()
    ensures { ReadEntriesAreTheVoters }
{}
