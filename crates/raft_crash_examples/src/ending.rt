//! Ends an engine: by a crash, or by closing its log.

ghost use Rattle.std.specs.Prelude.{IfOk};
ghost use Rattle.raft_log_engine.specs.raft_log_engine_core.specs.Reads.{shows_of};
ghost use Rattle.raft_log_engine.specs.raft_log_fs.specs.Image.{IsImage};
ghost use Rattle.raft_crash_examples.specs.Ending.{Ends};

use log::Log;
use raft_log_engine::{
    Engine, EnginePipes, FileSystem, MemoryFileSystem, PipeLog, Remainder, Result,
};

/// What a crash leaves of a file system: any image of its disk. The caller chooses which one.
pub trait Crash<F: FileSystem> {
    ghost use Rattle.std.specs.Prelude.{IfOk};
    ghost use Rattle.raft_log_engine.specs.raft_log_fs.specs.Image.{IsImage};

    /// The file system that a restart finds after a crash at this moment. Fails only for lack of memory.
    fn leave(&self, files: &F) -> Result<F>
        ensures { IfOk result (λ left. IsImage (F.disk files.now) (F.disk left)) };
}

impl Crash<MemoryFileSystem> for Remainder {
    fn leave(&self, files: &MemoryFileSystem) -> Result<MemoryFileSystem> {
        Ok(files.remainder(self)?)
    }
}

/// How an engine ends.
#[derive(Drop)]
pub enum Ending<C> {
    /// A crash.
    Crash(C),
    /// The log is closed.
    Close,
}

/// Crashes an engine, and returns what the crash leaves of its file system.
pub fn lose_power<F: FileSystem + Sync + Drop, C: Crash<F>>(
    engine: Engine<F>,
    what: &C,
) -> Result<F>
    ensures { IfOk result (λ left.
        IsImage (shows_of ⟦<EnginePipes<F> as PipeLog>⟧.shown engine).pipes.disk (F.disk left)) }
{
    what.leave(engine.file_system())
}

/// Ends an engine, and returns the file system that the next open finds.
pub fn end<L: Log, F: FileSystem + Sync + Drop, C: Crash<F>>(
    rt: &L,
    engine: Engine<F>,
    ending: &Ending<C>,
) -> Result<F>
    ensures { IfOk result (λ files. Ends ending.now (shows_of ⟦<EnginePipes<F> as PipeLog>⟧.shown engine)
        (F.disk files)) }
{
    match ending {
        Ending::Crash(what) => lose_power(engine, what),
        Ending::Close => Ok(engine.close(rt).files),
    }
}
