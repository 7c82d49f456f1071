//! The trait of a disk that keeps the voters of a store while it isn't open.
ghost use Rattle.std.specs.Prelude.{◌≡◌, false, IfErr, IfOk, None, OnOk, Some};
ghost use Rattle.std.specs.Thread.{IsSync};
ghost use Rattle.raft_voter.specs.Service.{IsFromOutside};
ghost use Rattle.raft_voter_world.specs.Stores.{FindsVoters, LeavesInFiles, LeavesStanding, LeavesUnder, StaysInFiles};

use crate::event::Left;
use crate::faults::Fault;
use crate::store::VoterStorage;
use raft_voter::{Cause, FilesRefused, Memory};
use std::alloc::Global;
use std::thread::Threads;

/// Files that keep the voters of a store while it isn't open. They can be opened and copied, and a close returns them.
/// Calls that change them can be made to fail. `crashed` returns what a crash of the machine leaves of them.
pub trait VoterDisk<R, S: VoterStorage<R>>: Sized {
    ghost use Rattle.raft_voter_world.specs.Stores.{Disk};

    /// Which voters the next open may find, and when files have no CRC collision. What calls and crashes do to the
    /// files.
    ghost disk: { Disk S Self };

    /// Opens the store with this many workers, at least one; these may be threads of the runtime. The store hasn't
    /// failed. It serves voters that the files leave, if these have no CRC collision.
    ///
    /// Fails with `Memory`, or with `FileSystem` if a file call fails or the files can't be read. The error returns the
    /// files, which may be opened again. They leave the same voters, if they have no CRC collision.
    fn open<T: Threads + Sync>(
        self,
        rt: &T,
        alloc: Global,
        workers: u64,
    ) -> Result<S, FilesRefused<Self>>
        requires { IsSync T.row }
        ensures opens { IfOk result (disk.opens self workers) }
        ensures finds { IfOk result (FindsVoters S.service disk self) }
        ensures alive { IfOk result (λ store. S.service.is_failed store ≡ false) }
        ensures err { IfErr result (λ refused. disk.refuses self workers refused.cause refused.files) }
        ensures stands { IfErr result (λ refused. LeavesStanding S.service disk self self refused.files) }
        ensures errors { IfErr result (λ refused. IsFromOutside refused.cause) };

    /// Closes the store, whether it has failed or not. Returns its files, which leave the voters that the store left.
    fn close(store: S, rt: &R) -> Self
        ensures closes { disk.closes store result }
        ensures stands { LeavesInFiles S.service disk store result };

    /// Returns what a crash of the machine leaves of these files; the disk runs. What is left leaves the same voters,
    /// if it has no CRC collision. Fails only with `Memory`.
    fn crashed(&self, left: &Left) -> Result<Self, Memory>
        ensures crashes { IfOk result (disk.crashes self.now left.now) }
        ensures stands { IfOk result (λ files. LeavesStanding S.service disk self.now files files) }
        ensures runs { IfOk result (λ files. disk.has_stopped files ≡ false) };

    /// Returns what a crash of the machine leaves of the files of an open store; the disk runs. What is left leaves the
    /// voters that the store left, if it has no CRC collision. Fails only with `Memory`.
    fn crashed_under(store: &S, left: &Left) -> Result<Self, Memory>
        ensures crashes { IfOk result (disk.crashes_under store.now left.now) }
        ensures stands { IfOk result (LeavesUnder S.service disk store.now) }
        ensures runs { IfOk result (λ files. disk.has_stopped files ≡ false) };

    /// Copies the files into a directory. Whether it succeeds or fails, the files keep the voters. Fails with `Memory`
    /// if memory runs out, and else with `FileSystem`.
    fn fork(&mut self, rt: &R, alloc: Global, target: &str) -> Result<(), Cause>
        ensures forks { OnOk result (disk.forks target.now None self.old self.new) }
        ensures refuses { IfErr result (λ cause. disk.forks target.now (Some cause) self.old self.new) }
        ensures errors { IfErr result IsFromOutside }
        ensures stands { StaysInFiles S.service disk self.old self.new };

    /// Arms a fault: a later call that changes files fails, also one of a store that is opened on them. Whether arming
    /// succeeds or fails, the files keep the voters.
    fn arm(&mut self, fault: &Fault) -> Result<(), Memory>
        ensures arms { OnOk result (disk.arms fault.now self.old self.new) }
        ensures stands { StaysInFiles S.service disk self.old self.new }
        ensures stopped { disk.has_stopped self.new ≡ disk.has_stopped self.old };

    /// Whether the disk has stopped.
    fn has_stopped(&self) -> bool
        ensures { result ≡ disk.has_stopped self.now };
}
