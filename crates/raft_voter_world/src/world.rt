//! A store of voters and its disk, to which events happen one after another.
ghost use Rattle.std.specs.Prelude.{◌≡◌, ℕ, [], IfOk};
ghost use Rattle.raft_voter.specs.Rounds.{fresh_world};
ghost use Rattle.raft_voter.specs.Service.{uncut};
ghost use Rattle.raft_voter_world.specs.Notes.{all_cuts, all_rounds, cut_of};
ghost use Rattle.raft_voter_world.specs.Steps.{event_of, Falling, IsReady, IsStep};

mod running;

use crate::disk::VoterDisk;
use crate::event::{Event, Left};
use crate::faults::{Fault, Purge};
use crate::notes::Notes;
use crate::opening::{Opened, open_files};
use crate::serving::Served;
use crate::storage::Storage;
use crate::store::VoterStorage;
use raft_voter::{Items, Memory, Request};
pub use running::run_world;
use std::alloc::Global;
use std::string::String;
use std::thread::Threads;

/// A store of voters and its disk: the storage, the notes of the run so far, and what a stop leaves at the call that
/// was armed last.
///
/// Each event has a method, and `place` is the event's number in the run. If the disk has stopped after an event, a
/// crash follows at once. A method fails only with `Memory`, and the world is gone then.
#[derive(Drop)]
pub struct World<S, F> {
    alloc: Global,
    storage: Storage<S, F>,
    notes: Notes,
    left: Left,
}

impl<S: Drop, F: Drop> World<S, F> {
    /// Returns a world with these files, with nothing noted and nothing armed.
    pub fn new(alloc: Global, files: F) -> World<S, F>
        ensures storage { result.storage ≡ Storage.Closed files }
        ensures world { cut_of result.notes ≡ uncut fresh_world }
        ensures rounds { all_rounds result.notes ≡ [] }
        ensures cuts { (place : ℕ) → all_cuts result.notes place ≡ [] }
        ensures lost { result.notes.lost.items ≡ [] }
        ensures left { result.left ≡ Left.Last }
    {
        World {
            alloc,
            storage: Storage::Closed(files),
            notes: Notes::new(alloc),
            left: Left::Last,
        }
    }

    /// If the disk has stopped, a crash follows.
    fn fallen<R>(self) -> Result<World<S, F>, Memory>
    where
        S: VoterStorage<R>,
        F: VoterDisk<R, S>,
        ensures { (event : ℕ) → IfOk result (Falling S.service S.upkeep F.disk event self) }
    {
        if !self.storage.has_stopped() {
            return Ok(self);
        }
        let files = self.storage.crashed(&self.left)?;
        let World {
            alloc,
            storage: _storage,
            notes,
            left,
        } = self;
        Ok(World {
            alloc,
            storage: Storage::Closed(files),
            notes,
            left,
        })
    }

    /// Submits these requests together. The store serves them; if no store is open, the round is cut off. Requires that
    /// no round is unsettled if a store is open and hasn't failed.
    pub fn round<R>(
        mut self,
        rt: &R,
        place: usize,
        requests: Items<(u64, Request)>,
    ) -> Result<World<S, F>, Memory>
    where
        S: VoterStorage<R>,
        F: VoterDisk<R, S>,
        requires { IsReady S.service self }
        ensures { IfOk result (IsStep S.service S.upkeep F.disk place (Event.Round requests) self) }
    {
        match self.storage.serve(rt, self.alloc, requests)? {
            Served::Answered(round) => self.notes.answered(round)?,
            Served::TookSome(round) => self.notes.cut_off(round),
            Served::TookNone(round) => self.notes.idle(round)?,
        }
        self.fallen()
    }

    /// Purges the store if one is open. A purge that fails isn't reported.
    pub fn purge<R>(mut self, rt: &R, place: usize, purge: Purge) -> Result<World<S, F>, Memory>
    where
        S: VoterStorage<R>,
        F: VoterDisk<R, S>,
        ensures { IfOk result (IsStep S.service S.upkeep F.disk place (event_of purge) self) }
    {
        self.storage.purge(rt, purge);
        self.fallen()
    }

    /// Crashes the machine. Of the unsynced changes, only what `left` says remains. No store is open then.
    pub fn crash<R>(self, place: usize, left: Left) -> Result<World<S, F>, Memory>
    where
        S: VoterStorage<R>,
        F: VoterDisk<R, S>,
        ensures { IfOk result (IsStep S.service S.upkeep F.disk place (Event.Crash left) self) }
    {
        let files = self.storage.crashed(&left)?;
        let World {
            alloc,
            storage: _storage,
            notes,
            left: armed,
        } = self;
        Ok(World {
            alloc,
            storage: Storage::Closed(files),
            notes,
            left: armed,
        })
    }

    /// Arms a failure: the call number `calls` that changes files, counted from here, fails. 0 arms nothing.
    pub fn refuse<R>(mut self, place: usize, calls: u64) -> Result<World<S, F>, Memory>
    where
        S: VoterStorage<R>,
        F: VoterDisk<R, S>,
        ensures { IfOk result (IsStep S.service S.upkeep F.disk place (Event.Refuse calls) self) }
    {
        if calls == 0 {
            return self.fallen();
        }
        self.storage.arm(&Fault::Refuse { calls })?;
        self.fallen()
    }

    /// Closes the store, if one is open.
    pub fn close<R>(self, rt: &R, place: usize) -> Result<World<S, F>, Memory>
    where
        S: VoterStorage<R>,
        F: VoterDisk<R, S>,
        ensures { IfOk result (IsStep S.service S.upkeep F.disk place Event.Close self) }
    {
        let World {
            alloc,
            storage,
            notes,
            left,
        } = self;
        let files = storage.into_files(rt);
        let closed = World {
            alloc,
            storage: Storage::Closed(files),
            notes,
            left,
        };
        closed.fallen()
    }

    /// Opens the store with this many workers; one that is open is closed first. Notes the voters that it shows. If
    /// they can't be read, closes the store again. If the open fails, no store is open. If the disk had stopped, opens
    /// nothing.
    pub fn open<R: Threads + Sync>(
        self,
        rt: &R,
        place: usize,
        workers: u64,
    ) -> Result<World<S, F>, Memory>
    where
        S: VoterStorage<R>,
        F: VoterDisk<R, S>,
        ensures { IfOk result (IsStep S.service S.upkeep F.disk place (Event.Open workers) self) }
    {
        let World {
            alloc,
            storage,
            mut notes,
            left,
        } = self;
        let files = storage.into_files(rt);
        let storage = match open_files::<R, S, F>(rt, alloc, files, workers, &left)? {
            Opened::Shown(store, shown) => {
                notes.show(place, shown)?;
                Storage::Open(store)
            }
            Opened::Closed(files) => Storage::Closed(files),
        };
        let opened = World {
            alloc,
            storage,
            notes,
            left,
        };
        opened.fallen()
    }

    /// Copies the files into a directory if no store is open. A copy that fails isn't reported, but the moments of the
    /// contract have its cause.
    pub fn fork<R>(mut self, rt: &R, place: usize, target: String) -> Result<World<S, F>, Memory>
    where
        S: VoterStorage<R>,
        F: VoterDisk<R, S>,
        ensures { IfOk result (IsStep S.service S.upkeep F.disk place (Event.Fork target) self) }
    {
        self.storage.fork(rt, self.alloc, target.as_str());
        self.fallen()
    }

    /// Arms a stop: the disk stops at the call number `calls` that changes files, counted from here. The crash then
    /// leaves what `left` says. 0 arms nothing.
    pub fn stop_at<R>(mut self, place: usize, calls: u64, left: Left) -> Result<World<S, F>, Memory>
    where
        S: VoterStorage<R>,
        F: VoterDisk<R, S>,
        ensures { IfOk result (IsStep S.service S.upkeep F.disk place (Event.CrashAt calls left) self) }
    {
        if calls == 0 {
            return self.fallen();
        }
        self.storage.arm(&Fault::Stop { calls })?;
        self.left = left;
        self.fallen()
    }
}
