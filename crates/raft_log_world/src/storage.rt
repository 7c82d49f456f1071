//! An engine that has the log open, or the files of a log that isn't open.
ghost use Rattle.std.specs.Prelude.{IfOk};
ghost use Rattle.raft_log_world.specs.Logs.{Follows};

use crate::event::{Answer, Call, Event, Fault};
use crate::files::LogFiles;
use std::alloc::{AllocError, Global};
use std::thread::Threads;

/// An engine that has the log open, or the files of a log that isn't open.
#[derive(Drop)]
pub enum Storage<S, F> {
    /// No engine has the log open.
    Closed(F),
    /// An engine has the log open.
    Open(S),
}

/// How an event ended, and the log after it.
#[derive(Drop)]
pub struct Played<S, F> {
    /// How it ended.
    pub answer: Answer,
    /// The log after it.
    pub storage: Storage<S, F>,
}

/// Calls the engine. Returns how the call ended.
fn call_engine<R, S, B: Drop, C, F: LogFiles<R, S, B, C>>(
    rt: &R,
    alloc: Global,
    engine: &mut S,
    call: Call<B>,
) -> Answer
    ensures { Follows F.log (Storage.Open engine.old) (Event.Serve call) result (Storage.Open engine.new) }
{
    match call {
        Call::Write { batch, sync } => F::write(engine, rt, batch, sync),
        Call::Sync => F::sync(engine, rt),
        Call::Get { group, key } => F::get(engine, group, key),
        Call::GetEntry { group, index } => F::get_entry(engine, group, index),
        Call::FirstIndex { group } => F::first_index(engine, group),
        Call::LastIndex { group } => F::last_index(engine, group),
        Call::Fetch {
            group,
            begin,
            end,
            max,
        } => F::fetch(engine, alloc, group, begin, end, max),
        Call::Scan { group, start, end } => F::scan(engine, alloc, group, start, end),
        Call::Compact { group, index } => F::compact(engine, rt, group, index),
        Call::Purge(kind) => F::purge(engine, rt, kind),
    }
}

impl<S: Drop, F: Drop> Storage<S, F> {
    /// Plays one event. Fails only if there is no memory for what a crash leaves; then the log is dropped.
    pub fn play<R: Threads + Sync, B: Drop, C: Drop>(
        self,
        rt: &R,
        alloc: Global,
        event: Event<B, C>,
    ) -> Result<Played<S, F>, AllocError>
    where
        F: LogFiles<R, S, B, C>,
        ensures { IfOk result (λ played. Follows F.log self event played.answer played.storage) }
    {
        match event {
            Event::Open { workers } => Ok(self.open::<R, B, C>(rt, alloc, workers)),
            Event::Serve(call) => Ok(self.serve::<R, B, C>(rt, alloc, call)),
            Event::Close => Ok(self.close::<R, B, C>(rt)),
            Event::Fork { target } => Ok(self.fork::<R, B, C>(rt, alloc, target)),
            Event::Arm { fault } => Ok(self.arm::<R, B, C>(&fault)),
            Event::Crash { left } => self.crash::<R, B, C>(&left),
        }
    }

    /// Opens the log with this many workers, if no engine has it open.
    fn open<R: Threads + Sync, B: Drop, C: Drop>(
        self,
        rt: &R,
        alloc: Global,
        workers: u64,
    ) -> Played<S, F>
    where
        F: LogFiles<R, S, B, C>,
        ensures { Follows F.log self (Event.Open workers) result.answer result.storage }
    {
        match self {
            Storage::Closed(files) => match files.open(rt, alloc, workers) {
                Ok(engine) => Played {
                    answer: Answer::Done,
                    storage: Storage::Open(engine),
                },
                Err(files) => Played {
                    answer: Answer::Refused,
                    storage: Storage::Closed(files),
                },
            },
            Storage::Open(engine) => Played {
                answer: Answer::Idle,
                storage: Storage::Open(engine),
            },
        }
    }

    /// Calls the engine, if one has the log open.
    fn serve<R, B: Drop, C: Drop>(self, rt: &R, alloc: Global, call: Call<B>) -> Played<S, F>
    where
        F: LogFiles<R, S, B, C>,
        ensures { Follows F.log self (Event.Serve call) result.answer result.storage }
    {
        match self {
            Storage::Closed(files) => Played {
                answer: Answer::Idle,
                storage: Storage::Closed(files),
            },
            Storage::Open(mut engine) => {
                let answer = call_engine::<R, S, B, C, F>(rt, alloc, &mut engine, call);
                Played {
                    answer,
                    storage: Storage::Open(engine),
                }
            }
        }
    }

    /// Closes the log, if an engine has it open.
    fn close<R, B: Drop, C: Drop>(self, rt: &R) -> Played<S, F>
    where
        F: LogFiles<R, S, B, C>,
        ensures { Follows F.log self Event.Close result.answer result.storage }
    {
        match self {
            Storage::Closed(files) => Played {
                answer: Answer::Idle,
                storage: Storage::Closed(files),
            },
            Storage::Open(engine) => {
                let (answer, files) = F::close(engine, rt);
                Played {
                    answer,
                    storage: Storage::Closed(files),
                }
            }
        }
    }

    /// Copies the files into a directory, if no engine has the log open. If that succeeds, the log is the copy.
    fn fork<R, B: Drop, C: Drop>(self, rt: &R, alloc: Global, target: String) -> Played<S, F>
    where
        F: LogFiles<R, S, B, C>,
        ensures { Follows F.log self (Event.Fork target) result.answer result.storage }
    {
        match self {
            Storage::Closed(files) => {
                let (answer, files) = files.fork(rt, alloc, target);
                Played {
                    answer,
                    storage: Storage::Closed(files),
                }
            }
            Storage::Open(engine) => Played {
                answer: Answer::Idle,
                storage: Storage::Open(engine),
            },
        }
    }

    /// Arms a fault of the files.
    fn arm<R, B: Drop, C: Drop>(self, fault: &Fault) -> Played<S, F>
    where
        F: LogFiles<R, S, B, C>,
        ensures { Follows F.log self (Event.Arm fault.now) result.answer result.storage }
    {
        match self {
            Storage::Closed(mut files) => {
                let answer = files.arm(fault);
                Played {
                    answer,
                    storage: Storage::Closed(files),
                }
            }
            Storage::Open(mut engine) => {
                let answer = F::arm_under(&mut engine, fault);
                Played {
                    answer,
                    storage: Storage::Open(engine),
                }
            }
        }
    }

    /// Stops the machine: only what the crash leaves remains, and no engine has the log open.
    fn crash<R, B: Drop, C: Drop>(self, left: &C) -> Result<Played<S, F>, AllocError>
    where
        F: LogFiles<R, S, B, C>,
        ensures { IfOk result (λ played.
            Follows F.log self (Event.Crash left.now) played.answer played.storage) }
    {
        let files = match self {
            Storage::Closed(files) => files.crash(left)?,
            Storage::Open(engine) => F::crash_under(engine, left)?,
        };
        Ok(Played {
            answer: Answer::Done,
            storage: Storage::Closed(files),
        })
    }
}
