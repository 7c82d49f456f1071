//! Opens an engine.

ghost use Rattle.std.specs.Prelude.{◌≡◌, false, None, IfErr, IfOk};
ghost use Rattle.raft_log_record_base.specs.declared.errors.Error.TheVariants as errors;
ghost use Rattle.raft_log_open.specs.Opening.{FailsToOpenDirectory, OpensDirectory};
ghost use Rattle.raft_log_engine_core.specs.Purging.{CountsBrought, IsPurgedBy};

use super::LogEngine;
use log::Log;
use raft_log_dual_pipes::{DualPipes, OpenRefused, PipeLog};
use raft_log_file_listeners::{EventListener, Nobody, PurgeHook, ToldPipes};
use raft_log_file_settings::Config;
use raft_log_fs::FileSystem;
use raft_log_open::{OpenedLog, open_directory, open_directory_in_turn};
use raft_log_purge_policy::Thresholds;
use raft_log_replay::ReplayThreads;
use std::alloc::Global;
use std::thread::Threads;

/// The pipes of an opened engine: those of the log's two queues, a listener of their files, and the engine's own hook,
/// which hears each event after the listener.
pub type EnginePipes<F, E = Nobody> = ToldPipes<ToldPipes<DualPipes<F>, E>, PurgeHook>;

/// An engine as it is opened over a file system: a [`LogEngine`] whose pipes call a listener and its own hook.
pub type Engine<F, E = Nobody> = LogEngine<EnginePipes<F, E>>;

impl<F: FileSystem + Sync> LogEngine<ToldPipes<ToldPipes<DualPipes<F>, Nobody>, PurgeHook>> {
    /// Opens the log of these settings over a file system, which the engine owns from then on. It creates directories
    /// that don't exist, and begins a log if there are no files. Files with an alignment, as another program may write
    /// them, are first written anew without padding. The only listener is the engine's own hook.
    ///
    /// What it finds is proved in `raft_log_recovery_laws`: all that was synced or closed, unless leftover bytes pass a
    /// CRC by accident.
    ///
    /// If it fails, the file system is returned with the error, and the log may be opened again. Nothing is truncated
    /// unless all files could be read.
    ///
    /// # Errors
    /// - `Io(Other)` if the file system has stopped. This is checked first, so that a stop never shows as `Memory`.
    /// - `Other` if the settings have a fault, or a file has the path of a directory.
    /// - `Io` if a file can't be read, truncated, created or synced. A failed read never counts as damage.
    /// - `Corruption` for damage that the recovery mode doesn't tolerate; it names queue, file and offset.
    /// - `Corruption` for a misnamed file, or for a record that another program wrote.
    /// - `Hole` or `Corruption` for records that can't follow each other.
    /// - `NumberRange` if the file numbers are used up.
    /// - `Memory`.
    pub fn open_with_file_system<R: Threads + Log + Sync>(
        rt: &R,
        alloc: Global,
        config: Config,
        file_system: F,
    ) -> Result<Self, OpenRefused<F>>
        ensures ok { IfOk result (λ engine. OpensDirectory F.disk F.tells_space config file_system
            (⟦<ToldPipes<ToldPipes<DualPipes<F>, Nobody>, PurgeHook> as PipeLog>⟧.shown engine.pipes)
            engine.tables) }
        ensures none { IfOk result (λ engine. engine.cache.place ≡ None) }
        ensures purges { IfOk result (λ engine. IsPurgedBy config engine.thresholds engine.counts.rounds) }
        ensures brought { IfOk result (λ engine. CountsBrought config (F.disk file_system) engine.counts) }
        ensures err { IfErr result (λ refused. FailsToOpenDirectory F.disk F.tells_space config refused.error
            file_system refused.file_system) }
        ensures memory { IfErr result (λ refused. refused.error ≡ errors.Memory
            → (F.disk file_system).stopped ≡ false) }
    {
        Self::open_with(rt, alloc, config, file_system, Nobody)
    }
}

impl<F: FileSystem + Sync, E: EventListener> LogEngine<
    ToldPipes<ToldPipes<DualPipes<F>, E>, PurgeHook>,
> {
    ghost use Rattle.raft_log_dual_pipes.specs.Pipes.{main_directory};

    /// Opens the log as `open_with_file_system` does, with a listener. The listener, and after it the engine's own
    /// hook, hear what happens to the log's files, beginning with the files of both queues. A listener can pin files,
    /// and changes nothing else. `Listeners` makes one listener of several.
    ///
    /// Fails as `open_with_file_system` does, and drops the listener.
    pub fn open_with<R: Threads + Log + Sync>(
        rt: &R,
        alloc: Global,
        config: Config,
        file_system: F,
        listener: E,
    ) -> Result<Self, OpenRefused<F>>
        ensures ok { IfOk result (λ engine. OpensDirectory F.disk F.tells_space config file_system
            (⟦<ToldPipes<ToldPipes<DualPipes<F>, E>, PurgeHook> as PipeLog>⟧.shown engine.pipes)
            engine.tables) }
        ensures none { IfOk result (λ engine. engine.cache.place ≡ None) }
        ensures purges { IfOk result (λ engine. IsPurgedBy config engine.thresholds engine.counts.rounds) }
        ensures brought { IfOk result (λ engine. CountsBrought config (F.disk file_system) engine.counts) }
        ensures err { IfErr result (λ refused. FailsToOpenDirectory F.disk F.tells_space config refused.error
            file_system refused.file_system) }
        ensures memory { IfErr result (λ refused. refused.error ≡ errors.Memory
            → (F.disk file_system).stopped ≡ false) }
    {
        Self::open_by(
            rt,
            alloc,
            ReplayThreads::Rayon,
            config,
            file_system,
            listener,
        )
    }

    /// Opens the log as `open_with` does, but reads it with scoped threads: one for each chunk of both queues, however
    /// many processors there are. Fails as `open_with` does.
    pub fn open_scoped<R: Threads + Log + Sync>(
        rt: &R,
        alloc: Global,
        config: Config,
        file_system: F,
        listener: E,
    ) -> Result<Self, OpenRefused<F>>
        ensures ok { IfOk result (λ engine. OpensDirectory F.disk F.tells_space config file_system
            (⟦<ToldPipes<ToldPipes<DualPipes<F>, E>, PurgeHook> as PipeLog>⟧.shown engine.pipes)
            engine.tables) }
        ensures none { IfOk result (λ engine. engine.cache.place ≡ None) }
        ensures purges { IfOk result (λ engine. IsPurgedBy config engine.thresholds engine.counts.rounds) }
        ensures brought { IfOk result (λ engine. CountsBrought config (F.disk file_system) engine.counts) }
        ensures err { IfErr result (λ refused. FailsToOpenDirectory F.disk F.tells_space config refused.error
            file_system refused.file_system) }
        ensures memory { IfErr result (λ refused. refused.error ≡ errors.Memory
            → (F.disk file_system).stopped ≡ false) }
    {
        Self::open_by(
            rt,
            alloc,
            ReplayThreads::Scoped,
            config,
            file_system,
            listener,
        )
    }

    /// Opens the log as `open_with` does, and reads it with these threads. Fails as `open_with` does.
    pub fn open_by<R: Threads + Log + Sync>(
        rt: &R,
        alloc: Global,
        threads: ReplayThreads,
        config: Config,
        file_system: F,
        listener: E,
    ) -> Result<Self, OpenRefused<F>>
        ensures ok { IfOk result (λ engine. OpensDirectory F.disk F.tells_space config file_system
            (⟦<ToldPipes<ToldPipes<DualPipes<F>, E>, PurgeHook> as PipeLog>⟧.shown engine.pipes)
            engine.tables) }
        ensures none { IfOk result (λ engine. engine.cache.place ≡ None) }
        ensures purges { IfOk result (λ engine. IsPurgedBy config engine.thresholds engine.counts.rounds) }
        ensures brought { IfOk result (λ engine. CountsBrought config (F.disk file_system) engine.counts) }
        ensures err { IfErr result (λ refused. FailsToOpenDirectory F.disk F.tells_space config refused.error
            file_system refused.file_system) }
        ensures memory { IfErr result (λ refused. refused.error ≡ errors.Memory
            → (F.disk file_system).stopped ≡ false) }
    {
        let thresholds = Thresholds::of(&config);
        match open_directory(rt, alloc, threads, config, file_system) {
            Ok(
                OpenedLog {
                    pipes,
                    tables,
                    written,
                },
            ) => {
                let told = ToldPipes::new(pipes, listener);
                let hooked = ToldPipes::new(told, PurgeHook::new(alloc));
                Ok(LogEngine::new(alloc, thresholds, hooked, tables, written))
            }
            Err(refused) => Err(refused),
        }
    }

    /// Opens the log as `open_with` does, but reads it on the caller's thread. It needs no threads, so a library that a
    /// C program calls can open a log. Fails as `open_with` does.
    pub fn open_in_turn<R: Log>(
        rt: &R,
        alloc: Global,
        config: Config,
        file_system: F,
        listener: E,
    ) -> Result<Self, OpenRefused<F>>
        ensures ok { IfOk result (λ engine. OpensDirectory F.disk F.tells_space config file_system
            (⟦<ToldPipes<ToldPipes<DualPipes<F>, E>, PurgeHook> as PipeLog>⟧.shown engine.pipes)
            engine.tables) }
        ensures none { IfOk result (λ engine. engine.cache.place ≡ None) }
        ensures purges { IfOk result (λ engine. IsPurgedBy config engine.thresholds engine.counts.rounds) }
        ensures brought { IfOk result (λ engine. CountsBrought config (F.disk file_system) engine.counts) }
        ensures err { IfErr result (λ refused. FailsToOpenDirectory F.disk F.tells_space config refused.error
            file_system refused.file_system) }
        ensures memory { IfErr result (λ refused. refused.error ≡ errors.Memory
            → (F.disk file_system).stopped ≡ false) }
    {
        let thresholds = Thresholds::of(&config);
        match open_directory_in_turn(rt, alloc, config, file_system) {
            Ok(
                OpenedLog {
                    pipes,
                    tables,
                    written,
                },
            ) => {
                let told = ToldPipes::new(pipes, listener);
                let hooked = ToldPipes::new(told, PurgeHook::new(alloc));
                Ok(LogEngine::new(alloc, thresholds, hooked, tables, written))
            }
            Err(refused) => Err(refused),
        }
    }

    /// The main directory: the first one of Append's files.
    pub fn path(&self) -> &str
        ensures { result.now ≡ main_directory
            (⟦<ToldPipes<ToldPipes<DualPipes<F>, E>, PurgeHook> as PipeLog>⟧.shown self.now.pipes) }
    {
        self.pipes.pipes().pipes().path()
    }
}

impl<F: FileSystem + Sync> LogEngine<DualPipes<F>> {
    /// Opens the log as `Engine::open_with_file_system` does, over its pipes alone. There is no listener and no hook,
    /// so nothing pins files (`nobody_holds_back` in `raft_log_dual_pipes`).
    ///
    /// Fails as `Engine::open_with_file_system` does.
    pub fn open_alone<R: Threads + Log + Sync>(
        rt: &R,
        alloc: Global,
        config: Config,
        file_system: F,
    ) -> Result<Self, OpenRefused<F>>
        ensures ok { IfOk result (λ engine. OpensDirectory F.disk F.tells_space config file_system
            (⟦<DualPipes<F> as PipeLog>⟧.shown engine.pipes) engine.tables) }
        ensures none { IfOk result (λ engine. engine.cache.place ≡ None) }
        ensures purges { IfOk result (λ engine. IsPurgedBy config engine.thresholds engine.counts.rounds) }
        ensures brought { IfOk result (λ engine. CountsBrought config (F.disk file_system) engine.counts) }
        ensures err { IfErr result (λ refused. FailsToOpenDirectory F.disk F.tells_space config refused.error
            file_system refused.file_system) }
        ensures memory { IfErr result (λ refused. refused.error ≡ errors.Memory
            → (F.disk file_system).stopped ≡ false) }
    {
        let thresholds = Thresholds::of(&config);
        match open_directory(rt, alloc, ReplayThreads::Rayon, config, file_system) {
            Ok(
                OpenedLog {
                    pipes,
                    tables,
                    written,
                },
            ) => Ok(LogEngine::new(alloc, thresholds, pipes, tables, written)),
            Err(refused) => Err(refused),
        }
    }
}
