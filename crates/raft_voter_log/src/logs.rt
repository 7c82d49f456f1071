//! Stores of voters on a log, and voters in memory that serve the same rounds.

ghost use Rattle.raft_voter_world.specs.LawsAlike.{AnswersAsModel, AnswersTakenAsModel};

use log::Log;
use raft_log_engine::PipeLog;
use raft_voter::RoundService;
use raft_voter_plain::PlainVoters;
use raft_voter_store::LogVoterStore;

/// The law of `stores_answer_as_plain` for a store on a log, over any file system, with any listener.
pub fn logs_answer_as_plain<R: Log, P: PipeLog>()
    ensures rounds { AnswersAsModel
        ⟦<PlainVoters as RoundService<R>>⟧.service ⟦<LogVoterStore<P> as RoundService<R>>⟧.service }
    ensures taken { AnswersTakenAsModel
        ⟦<PlainVoters as RoundService<R>>⟧.service ⟦<LogVoterStore<P> as RoundService<R>>⟧.service }
{}
