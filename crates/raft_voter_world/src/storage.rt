//! A store that is open, or the files of one that isn't.
ghost use Rattle.std.specs.Prelude.{◌≡◌, IfOk, OnOk};
ghost use Rattle.raft_voter_world.specs.History.{Crashes, has_stopped, IsClosedAs, Keeps};
ghost use Rattle.raft_voter_world.specs.History.Change.{arms};
ghost use Rattle.raft_voter_world.specs.Storages.{CopiesIfClosed, IsServed, PurgesIfOpen};

use crate::disk::VoterDisk;
use crate::event::Left;
use crate::faults::{Fault, Purge};
use crate::serving::{Served, answered, cut_off};
use crate::store::VoterStorage;
use raft_voter::{Cause, Items, Memory, Request};
use std::alloc::Global;

/// A store that is open, or the files of one that isn't.
#[derive(Drop)]
pub enum Storage<S, F> {
    /// No store is open.
    Closed(F),
    /// A store is open.
    Open(S),
}

impl<S: Drop, F: Drop> Storage<S, F> {
    /// Whether the disk has stopped.
    pub fn has_stopped<R>(&self) -> bool
    where
        S: VoterStorage<R>,
        F: VoterDisk<R, S>,
        ensures { result ≡ has_stopped S.upkeep F.disk self.now }
    {
        match self {
            Storage::Closed(files) => files.has_stopped(),
            Storage::Open(store) => store.has_stopped(),
        }
    }

    /// Returns the files. Closes the store first if it is open.
    pub fn into_files<R>(self, rt: &R) -> F
    where
        S: VoterStorage<R>,
        F: VoterDisk<R, S>,
        ensures { IsClosedAs S.service F.disk self result }
    {
        match self {
            Storage::Closed(files) => files,
            Storage::Open(store) => F::close(store, rt),
        }
    }

    /// Returns what a crash of the machine leaves of the files. Fails only with `Memory`.
    pub fn crashed<R>(&self, left: &Left) -> Result<F, Memory>
    where
        S: VoterStorage<R>,
        F: VoterDisk<R, S>,
        ensures { IfOk result (Crashes S.service F.disk self.now left.now) }
    {
        match self {
            Storage::Closed(files) => files.crashed(left),
            Storage::Open(store) => F::crashed_under(store, left),
        }
    }

    /// Serves a round. It is cut off if no store is open. Returns its requests, refused places and outcome.
    pub fn serve<R>(
        &mut self,
        rt: &R,
        alloc: Global,
        requests: Items<(u64, Request)>,
    ) -> Result<Served, Memory>
    where
        S: VoterStorage<R>,
        F: VoterDisk<R, S>,
        ensures { IfOk result (λ served. IsServed S.service requests self.old served self.new) }
    {
        let Storage::Open(store) = self else {
            return Ok(Served::TookNone(cut_off(requests, Items::new(alloc))));
        };
        match store.serve(rt, requests.as_slice()) {
            Ok(replies) => Ok(Served::Answered(answered(alloc, requests, replies)?)),
            Err(fault) => match fault.cause {
                Cause::FileSystem => Ok(Served::TookSome(cut_off(requests, fault.refused))),
                _ => Ok(Served::TookNone(cut_off(requests, fault.refused))),
            },
        }
    }

    /// Purges an open store. Whether the purge succeeds or fails, the voters are kept. If no store is open, nothing
    /// changes.
    pub fn purge<R>(&mut self, rt: &R, purge: Purge)
    where
        S: VoterStorage<R>,
        F: VoterDisk<R, S>,
        ensures { PurgesIfOpen S.service S.upkeep F.disk purge self.old self.new }
    {
        let Storage::Open(store) = self else {
            return;
        };
        match store.purge(rt, purge) {
            Ok(()) => {}
            Err(_) => {}
        }
    }

    /// Arms a fault: a later call that changes files fails.
    pub fn arm<R>(&mut self, fault: &Fault) -> Result<(), Memory>
    where
        S: VoterStorage<R>,
        F: VoterDisk<R, S>,
        ensures { OnOk result (Keeps S.service S.upkeep F.disk (arms fault.now) self.old self.new) }
    {
        match self {
            Storage::Closed(files) => files.arm(fault),
            Storage::Open(store) => store.arm(fault),
        }
    }

    /// Copies the files into a directory if no store is open. Whether the copy succeeds or fails, the files keep the
    /// voters. If a store is open, nothing changes.
    pub fn fork<R>(&mut self, rt: &R, alloc: Global, target: &str)
    where
        S: VoterStorage<R>,
        F: VoterDisk<R, S>,
        ensures { CopiesIfClosed S.service S.upkeep F.disk target.now self.old self.new }
    {
        let Storage::Closed(files) = self else {
            return;
        };
        match files.fork(rt, alloc, target) {
            Ok(()) => {}
            Err(_) => {}
        }
    }
}
