//! Stores of voters, and voters in memory that serve the same rounds.

ghost use Rattle.raft_voter_world.specs.LawsAlike.{AnswersAsModel, AnswersTakenAsModel};

use raft_voter::RoundService;
use raft_voter_plain::PlainVoters;

/// Suppose that a store served rounds, and that voters in memory, which began as the same, serve them too. If the store
/// rejected exactly the requests out of range, the replies are the same. If they serve just the requests that the store
/// took, they give the store's replies to these. This holds for any store, including one on a log.
pub fn stores_answer_as_plain<R, S: RoundService<R>>()
    ensures rounds { AnswersAsModel ⟦<PlainVoters as RoundService<R>>⟧.service S.service }
    ensures taken { AnswersTakenAsModel ⟦<PlainVoters as RoundService<R>>⟧.service S.service }
{}
