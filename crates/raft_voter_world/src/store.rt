//! The trait of an open store of voters, whose disk can stop.
ghost use Rattle.std.specs.Prelude.{◌≡◌, IfErr, IfOk, OnOk};
ghost use Rattle.raft_voter.specs.Service.{IsAlive, IsFromOutside};
ghost use Rattle.raft_voter_world.specs.Stores.{KeepsVoters, RefusesPurge, StaysAsItWas, TellsVoters};

use crate::faults::{Fault, Purge};
use raft_voter::{Cause, Memory, RoundService, Voter};
use std::alloc::Global;

/// A store that serves rounds, can be purged, and returns its voters. Calls below it can be made to fail.
pub trait VoterStorage<R>: RoundService<R> {
    ghost use Rattle.raft_voter_world.specs.Stores.{Upkeep};

    /// Whether the disk below the store has stopped. What purges do that succeed, and that fail. What armed faults do.
    ghost upkeep: { Upkeep Self };

    /// Whether the store has failed: then it serves nothing until it is opened again.
    fn is_failed(&self) -> bool
        ensures { result ≡ Self.service.is_failed self.now };

    /// Whether the disk below the store has stopped.
    fn has_stopped(&self) -> bool
        ensures { result ≡ upkeep.has_stopped self.now };

    /// Returns the voters that the store serves, each with its group. The first one listed for a group counts, and a
    /// group that isn't listed has a fresh voter. Nothing is promised of the list if the store has failed.
    ///
    /// Fails with `Memory` or `FileSystem`. Whether it succeeds or fails, the store serves the same voters afterwards.
    fn voters(&mut self, rt: &R, alloc: Global) -> Result<Vec<(u64, Voter)>, Cause>
        ensures ok { IfOk result (λ voters. TellsVoters Self.service self.old voters.items) }
        ensures stays { StaysAsItWas Self.service self.old self.new }
        ensures stopped { upkeep.has_stopped self.new ≡ upkeep.has_stopped self.old }
        ensures errors { IfErr result IsFromOutside };

    /// Purges the files. The store serves the same voters afterwards, unless it has failed. Whether the purge succeeds
    /// or fails, the store leaves the voters that it left before.
    ///
    /// Fails with `Failed` if the store had failed before, with `Memory`, or with `FileSystem`: only then the store may
    /// fail.
    fn purge(&mut self, rt: &R, purge: Purge) -> Result<(), Cause>
        ensures purges { OnOk result (upkeep.purges purge self.old self.new) }
        ensures refuses { IfErr result (λ cause. upkeep.refuses purge cause self.old self.new) }
        ensures keeps { KeepsVoters Self.service self.old self.new }
        ensures lives { OnOk result (IsAlive (Self.service.is_failed self.old) (Self.service.is_failed self.new)) }
        ensures errors { IfErr result (λ cause. RefusesPurge cause
            (Self.service.is_failed self.old) (Self.service.is_failed self.new)) };

    /// Arms a fault: a later call that changes files fails. Whether arming succeeds or fails, the store serves and
    /// leaves the same voters.
    fn arm(&mut self, fault: &Fault) -> Result<(), Memory>
        ensures arms { OnOk result (upkeep.arms fault.now self.old self.new) }
        ensures stays { StaysAsItWas Self.service self.old self.new }
        ensures stopped { upkeep.has_stopped self.new ≡ upkeep.has_stopped self.old };
}
