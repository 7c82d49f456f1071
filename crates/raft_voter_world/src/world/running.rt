//! Plays events in a world one after another, and reports on them at the end.
ghost use Rattle.std.specs.Prelude.{IfOk};
ghost use Rattle.raft_voter_world.specs.Run.{IsRun};
ghost use Rattle.raft_voter_world.specs.Played.{Ended, HasPlayed, Stands};
ghost use Rattle.raft_voter_world.specs.Steps.{IsReady, IsStep};

use super::World;
use crate::disk::VoterDisk;
use crate::event::{Event, Left};
use crate::faults::Purge;
use crate::report::WorldReport;
use crate::store::VoterStorage;
use raft_voter::Memory;
use std::alloc::Global;
use std::collections::VecDeque;
use std::thread::Threads;

/// Plays events one after another, starting with these files. Closes a store that is still open after the last event.
/// Returns the report: the rounds with their outcomes, the cuts of those that were cut off, the files, and the events
/// that lost voters.
///
/// Fails only with `Memory`; there is no report then.
pub fn run_world<R: Threads + Sync, S: VoterStorage<R> + Drop, F: VoterDisk<R, S> + Drop>(
    rt: &R,
    alloc: Global,
    files: F,
    events: VecDeque<Event>,
) -> Result<WorldReport<F>, Memory>
    ensures { IfOk result (IsRun S.service S.upkeep F.disk files events.items) }
{
    let world: World<S, F> = World::new(alloc, files);
    let played = world.play(rt, events)?;
    played.finish(rt)
}

/// Returns these files or, if the disk has stopped, what a crash leaves of them.
fn standing<R, S: VoterStorage<R>, F: VoterDisk<R, S> + Drop>(
    files: F,
    left: &Left,
) -> Result<F, Memory>
    ensures { IfOk result (Stands S.service F.disk files left.now) }
{
    if !files.has_stopped() {
        return Ok(files);
    }
    files.crashed(left)
}

impl<S: Drop, F: Drop> World<S, F> {
    /// Plays one event; `place` is its number among all, counted from 0. If the disk has stopped after it, a crash
    /// follows at once. Requires that no round is unsettled if a store is open and hasn't failed.
    pub fn step<R: Threads + Sync>(
        self,
        rt: &R,
        place: usize,
        event: Event,
    ) -> Result<World<S, F>, Memory>
    where
        S: VoterStorage<R>,
        F: VoterDisk<R, S>,
        requires { IsReady S.service self }
        ensures { IfOk result (IsStep S.service S.upkeep F.disk place event self) }
    {
        match event {
            Event::Round { requests } => self.round(rt, place, requests),
            Event::Maintain => self.purge(rt, place, Purge::Expired),
            Event::RewriteAppend => self.purge(rt, place, Purge::RewriteAppend),
            Event::RewriteRewrite => self.purge(rt, place, Purge::RewriteRewrite),
            Event::Open { workers } => self.open(rt, place, workers),
            Event::Close => self.close(rt, place),
            Event::Crash { left } => self.crash(place, left),
            Event::CrashAt { calls, left } => self.stop_at(place, calls, left),
            Event::Refuse { calls } => self.refuse(place, calls),
            Event::Fork { target } => self.fork(rt, place, target),
        }
    }

    /// Plays events one after another.
    fn play<R: Threads + Sync>(
        self,
        rt: &R,
        mut events: VecDeque<Event>,
    ) -> Result<World<S, F>, Memory>
    where
        S: VoterStorage<R>,
        F: VoterDisk<R, S>,
        requires { IsReady S.service self }
        ensures { IfOk result (HasPlayed S.service S.upkeep F.disk self events.items) }
    {
        let mut world = self;
        let mut place = 0;
        while let Some(event) = events.pop_front() {
            world = world.step(rt, place, event)?;
            place += 1;
        }
        Ok(world)
    }

    /// Closes a store that is open, settles the run with 0 as the cut of the unsettled round, and returns its report.
    fn finish<R>(self, rt: &R) -> Result<WorldReport<F>, Memory>
    where
        S: VoterStorage<R>,
        F: VoterDisk<R, S>,
        ensures { IfOk result (Ended S.service S.upkeep F.disk self) }
    {
        let World {
            alloc: _alloc,
            storage,
            mut notes,
            left,
        } = self;
        let files = standing::<R, S, F>(storage.into_files(rt), &left)?;
        notes.settle(0)?;
        Ok(notes.into_report(files))
    }
}
