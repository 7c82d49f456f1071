//! Laws about receipts, and about journals of successive openings. Each is the contract of an empty function.
ghost use Rattle.raft_voter_rounds.specs.Proving.{ReceiptsAgree, RepliesAreVoters};
ghost use Rattle.raft_voter_shared.specs.Openings.{OpeningsAreExplained, OpeningsGoOn, OpeningsLead};

use raft_voter::{RoundService, StoreFiles};

/// Two receipts of one place in the history have the same requests and replies.
pub fn receipts_agree()
    ensures { ReceiptsAgree }
{}

/// The replies of a receipt are those of the voters after the rounds before it.
pub fn replies_are_voters()
    ensures { RepliesAreVoters }
{}

/// Suppose each journal of successive openings is a legal history of the voters that the one before left. Then together
/// they are rounds that lead from the first voters to the last. The cuts are 0, except for the rounds in which an
/// opening's store failed. They are cut as one round, at the place that the next open shows.
pub fn openings_lead()
    ensures { OpeningsLead }
{}

/// Voters that never fail explain the joined journals of openings, if the first opening found fresh voters.
pub fn openings_are_explained()
    ensures { OpeningsAreExplained }
{}

/// A store that is closed, crashes and is opened again serves voters that are possible after what it left before,
/// unless there was a CRC collision.
pub fn openings_go_on<R, S: RoundService<R>, F: StoreFiles<R, S>>()
    ensures { OpeningsGoOn S.service F.files }
{}
