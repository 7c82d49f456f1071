//! The trait of a service that serves rounds of requests.
ghost use Rattle.std.specs.Prelude.{◌≡◌, ◌≤◌, [], length, IfOk, IfErr, OnOk};
ghost use Rattle.raft_voter.specs.Service.{AnswersRound, CutsOff, FailsAs, IsAlive, refused_from};

use crate::{Items, Memory, Reply, Request};
use std::alloc::{AllocError, Global};
use thiserror::Error;

/// The most requests of a round.
pub const MAX_ROUND_REQUESTS: usize = 4096;

/// Why a round was cut off, or an open failed. For a round, `TooLong`, `Failed` and `Memory` are checked in this order,
/// before any request is taken.
#[derive(Clone, Copy, Debug, PartialEq, Eq, Error)]
pub enum Cause {
    /// A file call failed. Some of the first requests may have been taken, and the service has failed.
    #[error("the file system failed")]
    FileSystem,
    /// Memory ran out. No request was taken.
    #[error("out of memory")]
    Memory,
    /// The service failed before and must be opened again. No request was taken.
    #[error("the service failed before")]
    Failed,
    /// There are more than 4,096 requests. No request was taken.
    #[error("more than 4096 requests")]
    TooLong,
}

/// A round that was cut off: it returns no replies.
#[derive(Debug, Drop, Error)]
#[error("round cut off: {cause}")]
pub struct RoundFault {
    /// The refused places, in rising order: their requests weren't taken. Empty unless the cause is `FileSystem`.
    pub refused: Items<usize>,
    /// The cause.
    pub cause: Cause,
}

impl RoundFault {
    /// Returns a fault without refused places.
    pub fn new(alloc: Global, cause: Cause) -> RoundFault
        ensures { result ≡ record { refused = []; cause = cause } }
    {
        let refused = Items::new(alloc);
        RoundFault { refused, cause }
    }
}

impl From<Memory> for Cause {
    ghost use Rattle.raft_voter.specs.declared.service.Cause.TheVariants.{Memory as OutOfMemory};

    ghost from_gives = { λ _ cause. cause ≡ OutOfMemory };

    fn from(_refused: Memory) -> Cause {
        Cause::Memory
    }
}

impl From<AllocError> for Cause {
    ghost use Rattle.raft_voter.specs.declared.service.Cause.TheVariants.{Memory as OutOfMemory};

    ghost from_gives = { λ _ cause. cause ≡ OutOfMemory };

    fn from(_refused: AllocError) -> Cause {
        Cause::Memory
    }
}

/// Serves rounds of requests to the voters of many groups, and keeps the voters so that they survive a crash. Its calls
/// take the runtime, in the type that the store needs.
pub trait RoundService<R> {
    ghost use Rattle.raft_voter.specs.Service.{Service};

    /// Which voters it serves, and whether it failed. Which voters are found once it is closed, or after a crash. Which
    /// requests it may refuse, and that a file call failed below it.
    ghost service: { Service Self };

    /// The voters take the requests in order, except those at refused places. The call returns replies only after all
    /// changes of the voters are durable, so a crash leaves the voters that gave them. A round may have at most 4,096
    /// requests.
    ///
    /// An `Err` returns no reply, and its cause says whether any request was taken. If it is `FileSystem`, a file call
    /// failed in the round. The service has failed then. The voters took the requests below some place, except those at
    /// refused places, and the next open finds only such voters. For any other cause the voters are unchanged.
    fn serve(&mut self, rt: &R, requests: &[(u64, Request)]) -> Result<Items<Reply>, RoundFault>
        ensures ok { IfOk result (λ told. AnswersRound service requests.now told self.old self.new) }
        ensures refused { IfOk result (λ told.
            service.may_refuse self.old self.new requests.now (refused_from 0 told)) }
        ensures short { OnOk result (length requests.now ≤ 4096) }
        ensures lives { OnOk result (IsAlive (service.is_failed self.old) (service.is_failed self.new)) }

        ensures err { IfErr result (λ fault.
            CutsOff service fault.cause fault.refused requests.now self.old self.new) }
        ensures errors { IfErr result (λ fault. FailsAs fault.cause (length requests.now)
            (service.is_failed self.old) (service.is_failed self.new)) };
}
