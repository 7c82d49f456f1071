//! The files that keep the voters of a store while it isn't open.
ghost use Rattle.std.specs.Prelude.{◌≡◌, false, IfErr, IfOk, OnErr};
ghost use Rattle.raft_voter.specs.Service.{FindsVoters, IsFromOutside, LeavesInFiles, LeavesStanding};

use crate::{Cause, Memory, RoundService};
use std::alloc::Global;

/// The error of an open that failed: the cause, and the files.
#[derive(Drop)]
pub struct FilesRefused<F> {
    /// The cause.
    pub cause: Cause,
    /// The files, returned to the caller.
    pub files: F,
}

/// Files that keep the voters of a store while it isn't open. They can be opened, a close returns them, and a crash of
/// the machine leaves what was synced.
pub trait StoreFiles<R, S: RoundService<R>>: Sized {
    ghost use Rattle.raft_voter.specs.Service.{Files};

    /// Which voters the next open finds, and when that is certain. What opens, closes and crashes do to the files, and
    /// for which causes an open may fail.
    ghost files: { Files S Self };

    /// Opens the store. Without a CRC collision it serves the voters that the files kept, or voters that are possible
    /// after their cut-off round. A store that was just opened hasn't failed.
    ///
    /// Fails only with `Memory` or `FileSystem`. The error returns the files, which may be opened again.
    fn open(self, rt: &R, alloc: Global) -> Result<S, FilesRefused<Self>>
        ensures opens { IfOk result (λ store. files.opens self store) }
        ensures finds { IfOk result (FindsVoters S.service files self) }
        ensures alive { IfOk result (λ store. S.service.is_failed store ≡ false) }
        ensures err { IfErr result (λ refused. files.refuses self refused.cause refused.files) }
        ensures stands { IfErr result (λ refused. LeavesStanding files self self refused.files) }
        ensures errors { IfErr result (λ refused. IsFromOutside refused.cause) };

    /// Closes the store, whether it has failed or not. An open of the files finds only voters that the store leaves.
    fn close(store: S, rt: &R) -> Self
        ensures closes { files.closes store result }
        ensures stands { LeavesInFiles S.service files store result };

    /// Returns what a crash of the machine leaves. Fails only for lack of memory.
    fn after_crash(self) -> Result<Self, Memory>
        ensures crashes { IfOk result (files.crashes self) }
        ensures stands { IfOk result (λ left. LeavesStanding files left self left) }
        ensures err { OnErr result (files.refuses_crash self) };
}
