//! Rounds of requests.

ghost use Rattle.raft_voter_durability_laws.specs.Laws.{LeftBehindRounds, PassedVotersTookFirst, RoundsEnd, RoundsGoOn, ToldRoundsAreAnswered};

/// A round begins without replies. Each request that is served adds its reply, and each one that is turned down adds
/// `Refused`.
pub fn rounds_go_on()
    ensures { RoundsGoOn }
{}

/// A round ends with its replies after its sync, or without a sync if nothing was written. It is given up if the engine
/// fails at a request, and cut off if the sync fails.
pub fn rounds_end()
    ensures { RoundsEnd }
{}

/// The refused places of a round are those with the reply `Refused`. If each request has a reply, they determine all
/// replies and the requests taken.
pub fn told_rounds_are_answered()
    ensures { ToldRoundsAreAnswered }
{}

/// The voters after a cut-off round took its requests below one place, except those at refused places.
pub fn passed_voters_took_first()
    ensures { PassedVotersTookFirst }
{}

/// After a round was cut off, the log's files store voters that took its requests below one place, except those at
/// refused places. Files that store the voters of one world are a case of this, with a round without requests.
pub fn left_behind_rounds()
    ensures { LeftBehindRounds }
{}
