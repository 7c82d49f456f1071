//! The store as a service of rounds.
ghost use Rattle.std.specs.Prelude.{◌≤◌, length, IfErr, IfOk, OnOk};
ghost use Rattle.raft_log_engine.specs.raft_log_engine_core.specs.Reads.{shows_of};
ghost use Rattle.raft_voter.specs.Service.{AnswersRound, CutsOff, FailsAs, IsAlive, refused_from};
ghost use Rattle.raft_voter_outline.specs.Kept.{outlines_in};
ghost use Rattle.raft_voter_store.specs.Service.{voter_service};

use super::LogVoterStore;
use log::Log;
use raft_log_engine::PipeLog;
use raft_voter::{RoundFault, RoundService};
use raft_voter_messages::{Items, Reply, Request};

impl<R: Log, P: PipeLog> RoundService<R> for LogVoterStore<P> {
    ghost service = { voter_service (λ store. shows_of P.shown store.engine) (λ store. outlines_in store.outlines) };

    fn serve(&mut self, rt: &R, requests: &[(u64, Request)]) -> Result<Items<Reply>, RoundFault> {
        LogVoterStore::serve(self, rt, requests)
    }
}
