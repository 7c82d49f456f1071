//! Purges a log: opens it, deletes the files that hold nothing live, and closes it.
ghost use Rattle.std.specs.Prelude.{IfErr, IfOk, OnOk};
ghost use Rattle.raft_log_record_base.specs.declared.pipe_log.LogQueue.TheVariants.{Append};
ghost use Rattle.raft_log_engine.specs.raft_log_dual_pipes.specs.HoldingBack.{PipesHoldBack};
ghost use Rattle.raft_log_engine.specs.raft_log_engine_core.specs.ModelCalls.{FollowsModel, ModelPurges};
ghost use Rattle.raft_log_engine.specs.raft_log_engine_core.specs.Reads.{shows_of};
ghost use Rattle.raft_log_operator.specs.Purging.{FailsByForce, FailsToPurgeAndClose, FailsToPurgeClosedLog, FailsToPurgeEngine, FailsToPurgePlace};
ghost use Rattle.raft_log_operator.specs.Purging.{KeepsContents, PurgesAndCloses, PurgesByForce, PurgesClosedLog, PurgesEngine, PurgesPlace};

use crate::fault::CommandFault;
use crate::settings::purge_settings;
use crate::sizes::LogSize;
use log::Log;
use raft_log_command_line::Place;
use raft_log_engine::{Closed, Error, FileSystem, LogEngine, PipeLog};
use std::alloc::Global;
use std::io::Write;
use std::thread::Threads;

/// The file system after a purge, and the purge's result.
#[derive(Drop)]
pub struct Purged<F> {
    /// The file system, whether the purge succeeded or failed.
    pub files: F,
    /// Whether it succeeded, or why it failed.
    pub result: Result<(), CommandFault>,
}

/// The file system after a log was purged, and the groups that should be compacted, or why the purge failed.
#[derive(Drop)]
struct PurgedLog<F> {
    files: F,
    result: Result<Vec<u64>, Error>,
}

/// Purges the log in these directories: opens it with the settings of `purge_settings`, purges its expired files, and
/// closes it. With `force` it also rewrites all of Append, and deletes each file of both queues that holds nothing
/// live. The log keeps its contents, whether the purge succeeds or fails.
///
/// Writes the files of both queues before and after it, whether it succeeded or failed. Then, after a success, it
/// writes the groups that keep old files until they are compacted. The open truncates files as any open does, and
/// deletes those that are kept for recycling.
///
/// Fails:
/// - with `File` if a directory isn't listed or a file isn't opened, or with `Log` if there is no file of the log. Both
///   are checked before anything changes.
/// - with `Log` if the open, the purge or the close fails, and with its error. The engine is closed in any case.
/// - with `Output` if writing the output fails, or with `File` if the files weren't counted again. Then the log was
///   purged.
pub fn purge<R: Threads + Log + Sync, F: FileSystem + Sync + Drop, W: Write>(
    rt: &R,
    alloc: Global,
    files: F,
    place: &Place,
    force: bool,
    out: &mut W,
) -> Purged<F>
    ensures ok { OnOk result.result
        (PurgesPlace F.disk F.tells_space place.now force files result.files) }
    ensures err { IfErr result.result (λ fault.
        FailsToPurgePlace F.disk F.tells_space place.now force fault files result.files) }
{
    let before = match measure(alloc, &files, place) {
        Ok(before) => before,
        Err(fault) => return Purged {
            files,
            result: Err(fault),
        },
    };
    let PurgedLog { files, result } = purge_log(rt, alloc, files, place, force);
    let written = write_sizes(alloc, &files, place, &before, out);
    match result {
        Ok(groups) => Purged {
            files,
            result: write_groups(written, groups.as_slice(), out),
        },
        Err(error) => Purged {
            files,
            result: Err(CommandFault::Log(error)),
        },
    }
}

/// Opens a log, purges it, and closes it.
fn purge_log<R: Threads + Log + Sync, F: FileSystem + Sync + Drop>(
    rt: &R,
    alloc: Global,
    files: F,
    place: &Place,
    force: bool,
) -> PurgedLog<F>
    ensures ok { IfOk result.result (λ groups.
        PurgesClosedLog F.disk F.tells_space place.now force groups.items files result.files) }
    ensures err { IfErr result.result (λ error.
        FailsToPurgeClosedLog F.disk F.tells_space place.now force error files result.files) }
{
    let config = match purge_settings(alloc, place) {
        Ok(config) => config,
        Err(_) => return PurgedLog {
            files,
            result: Err(Error::Memory),
        },
    };
    match LogEngine::open_alone(rt, alloc, config, files) {
        Ok(engine) => purge_and_close(rt, engine, force),
        Err(refused) => PurgedLog {
            files: refused.file_system,
            result: Err(refused.error),
        },
    }
}

/// Purges an engine's log, and closes it, whether the purge succeeded or failed.
fn purge_and_close<R: Log, P: PipeLog>(
    rt: &R,
    mut engine: LogEngine<P>,
    force: bool,
) -> PurgedLog<P::Files>
    ensures ok { IfOk result.result (λ groups. PurgesAndCloses (PipesHoldBack P.shown P.holds_back Append)
        engine.thresholds force groups.items (shows_of P.shown engine) (P.disk_of result.files)) }
    ensures err { IfErr result.result (λ error.
        FailsToPurgeAndClose (PipesHoldBack P.shown P.holds_back Append)
        engine.thresholds force error (shows_of P.shown engine) (P.disk_of result.files)) }
    ensures keeps { KeepsContents (shows_of P.shown engine) (P.disk_of result.files) }
{
    let purged = purge_engine(rt, &mut engine, force);
    let Closed { files, result } = engine.close(rt);
    match purged {
        Ok(groups) => match result {
            Ok(()) => PurgedLog {
                files,
                result: Ok(groups),
            },
            Err(error) => PurgedLog {
                files,
                result: Err(error),
            },
        },
        Err(error) => PurgedLog {
            files,
            result: Err(error),
        },
    }
}

/// Purges an engine's expired files, and then by force if that is requested. Returns the groups that should be
/// compacted.
fn purge_engine<R: Log, P: PipeLog>(
    rt: &R,
    engine: &mut LogEngine<P>,
    force: bool,
) -> Result<Vec<u64>, Error>
    ensures ok { IfOk result (λ groups. PurgesEngine (PipesHoldBack P.shown P.holds_back Append)
        engine.old.thresholds force groups.items (shows_of P.shown engine.old) (shows_of P.shown engine.new)) }
    ensures err { IfErr result (λ error. FailsToPurgeEngine (PipesHoldBack P.shown P.holds_back Append)
        engine.old.thresholds force error (shows_of P.shown engine.old) (shows_of P.shown engine.new)) }
    ensures model { FollowsModel ModelPurges result (shows_of P.shown engine.old) (shows_of P.shown engine.new) }
{
    let groups = match engine.purge_expired_files(rt) {
        Ok(groups) => groups,
        Err(error) => return Err(error),
    };
    if !force {
        return Ok(groups);
    }
    match purge_by_force(rt, engine) {
        Ok(()) => Ok(groups),
        Err(error) => Err(error),
    }
}

/// Rewrites all of Append, and deletes the files of both queues that hold nothing live.
fn purge_by_force<R: Log, P: PipeLog>(rt: &R, engine: &mut LogEngine<P>) -> Result<(), Error>
    ensures ok { OnOk result (PurgesByForce (shows_of P.shown engine.old) (shows_of P.shown engine.new)) }
    ensures err { IfErr result (λ error.
        FailsByForce error (shows_of P.shown engine.old) (shows_of P.shown engine.new)) }
    ensures model { FollowsModel ModelPurges result (shows_of P.shown engine.old) (shows_of P.shown engine.new) }
{
    match engine.must_rewrite_append_queue(rt, None, None) {
        Ok(()) => engine.must_purge_all_stale(rt),
        Err(error) => Err(error),
    }
}

/// The files of both queues of a log. Fails as `LogSize::measure` does, or with `Log` if there are none.
fn measure<F: FileSystem>(
    alloc: Global,
    files: &F,
    place: &Place,
) -> Result<LogSize, CommandFault> {
    let size = LogSize::measure(alloc, files, place)?;
    if size.is_empty() {
        let directory = place.directory.as_str();
        let text = format!(in alloc; "no log file in {directory}")?;
        return Err(CommandFault::Log(Error::InvalidArgument(text)));
    }
    Ok(size)
}

/// Writes the files that a log had before a purge, and those that it has now.
fn write_sizes<F: FileSystem, W: Write>(
    alloc: Global,
    files: &F,
    place: &Place,
    before: &LogSize,
    out: &mut W,
) -> Result<(), CommandFault> {
    before.write("before", out)?;
    let after = LogSize::measure(alloc, files, place)?;
    after.write("after", out)?;
    Ok(())
}

/// Writes a line for each group that keeps old files, unless writing failed before. Then returns that failure.
fn write_groups<W: Write>(
    written: Result<(), CommandFault>,
    groups: &[u64],
    out: &mut W,
) -> Result<(), CommandFault> {
    written?;
    for group in groups {
        writeln!(out, "group {group}: keeps old files until it is compacted")?;
    }
    Ok(())
}
