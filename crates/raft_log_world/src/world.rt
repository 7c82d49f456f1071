//! A log to which events happen one after another, and how each ended.
ghost use Rattle.std.specs.Prelude.{◌≡◌, [], IfOk};
ghost use Rattle.raft_log_world.specs.Run.{IsLogRun};
ghost use Rattle.raft_log_world.specs.Steps.{HasPlayed, IsStep};

use crate::event::{Answer, Event};
use crate::files::LogFiles;
use crate::report::LogReport;
use crate::storage::{Played, Storage};
use std::alloc::{AllocError, Global};
use std::collections::VecDeque;
use std::thread::Threads;

/// Plays events one after another, starting from these files. Returns the report: how each event ended, and the engine
/// or the files after the last one.
///
/// Fails with `AllocError` if there is no memory for the report, or for what a crash leaves. Then there is no report,
/// and the log is dropped.
pub fn run_log<R: Threads + Sync, S: Drop, B: Drop, C: Drop, F: LogFiles<R, S, B, C> + Drop>(
    rt: &R,
    alloc: Global,
    files: F,
    events: VecDeque<Event<B, C>>,
) -> Result<LogReport<S, F>, AllocError>
    ensures { IfOk result (IsLogRun F.log files events.items) }
{
    let world: World<S, F> = World::new(alloc, files);
    let World {
        alloc: _alloc,
        storage,
        answers,
    } = world.play(rt, events)?;
    Ok(LogReport { answers, storage })
}

/// A log to which events happen, and how each of them ended.
#[derive(Drop)]
pub struct World<S, F> {
    alloc: Global,
    storage: Storage<S, F>,
    answers: Vec<Answer>,
}

impl<S: Drop, F: Drop> World<S, F> {
    /// Returns a world with these files, to which nothing has happened.
    pub fn new(alloc: Global, files: F) -> World<S, F>
        ensures storage { result.storage ≡ Storage.Closed files }
        ensures answers { result.answers.items ≡ [] }
    {
        World {
            alloc,
            storage: Storage::Closed(files),
            answers: Vec::new(alloc),
        }
    }

    /// Plays one event, and records how it ended. Fails as `run_log` does.
    pub fn step<R: Threads + Sync, B: Drop, C: Drop>(
        self,
        rt: &R,
        event: Event<B, C>,
    ) -> Result<World<S, F>, AllocError>
    where
        F: LogFiles<R, S, B, C>,
        ensures { IfOk result (IsStep F.log self event) }
    {
        let World {
            alloc,
            storage,
            mut answers,
        } = self;
        let Played { answer, storage } = storage.play(rt, alloc, event)?;
        answers.push(answer)?;
        Ok(World {
            alloc,
            storage,
            answers,
        })
    }

    /// Plays events one after another.
    fn play<R: Threads + Sync, B: Drop, C: Drop>(
        self,
        rt: &R,
        mut events: VecDeque<Event<B, C>>,
    ) -> Result<World<S, F>, AllocError>
    where
        F: LogFiles<R, S, B, C>,
        ensures { IfOk result (HasPlayed F.log self events.items) }
    {
        let mut world = self;
        while let Some(event) = events.pop_front() {
            world = world.step(rt, event)?;
        }
        Ok(world)
    }
}
