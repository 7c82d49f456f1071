//! A session whose log is kept in a real directory.
ghost use Rattle.std.specs.Prelude.{IfOk, IfSome, OnErr, false, string_bytes};
ghost use Rattle.raft_log_fs_memory.specs.Memory.{disk_of};
ghost use Rattle.raft_voter_program.specs.Leaving.{WritesLeaving};
ghost use Rattle.raft_voter_program.specs.Run.{EndsEarly, WritesSession};
ghost use Rattle.raft_voter_program.specs.Keeping.{AreFilesIn, AreKept, EndsKept, IsToldOrUnkept};
ghost use Rattle.raft_voter_program.specs.Setup.{log_setup};

use crate::run_leaving;
use crate::setup::LogSetup;
use log::{Log, error};
use raft_log_directory_copies::{CopyFault, StoredFile, gather, write_directory};
use raft_log_engine::{FileSystem, MemoryFileSystem};
use raft_voter::RoundService;
use raft_voter_log::{LogFiles, LogVoters};
use raft_voter_world::{VoterDisk, VoterStorage};
use std::alloc::Global;
use std::fs::File;
use std::io;
use std::io::{ErrorKind, Read, Write};
use std::rt::Files;
use std::thread::Threads;

/// The status if keeping the files failed.
const UNKEPT: u8 = 3;

/// Runs a session as `run` does. If a verdict was written, it writes the files that the log has at the end into a real
/// directory, which must exist: those of the settings' `dir`, then those of their `spill-dir`. If two files have one
/// name, the second one stays. Returns the status of `run`, or 3 if keeping the files fails, which is logged.
///
/// Fails only as `run` does, and then keeps no files.
pub fn save<R: Threads + Log + Sync + Files<File = File> + AllocGlobal, I: Read, W: Write>(
    rt: &R,
    alloc: Global,
    directory: &str,
    reader: &mut I,
    writer: &mut W,
) -> io::Result<u8>
    ensures ok { IfOk result (λ status. IfSome (I.remaining reader.old) (λ input.
        EndsKept (WritesLeaving ⟦<LogVoters as RoundService<R>>⟧.service ⟦<LogVoters as VoterStorage<R>>⟧.upkeep
        ⟦<LogFiles as VoterDisk<R, LogVoters>>⟧.disk log_setup) input
        (W.contents writer.old) (W.contents writer.new) status)) }
    ensures err { OnErr result (IfSome (I.remaining reader.old) (λ input.
        EndsEarly (WritesSession ⟦<LogVoters as RoundService<R>>⟧.service ⟦<LogVoters as VoterStorage<R>>⟧.upkeep
        ⟦<LogFiles as VoterDisk<R, LogVoters>>⟧.disk log_setup) false input
        (W.contents writer.old) (W.contents writer.new))) }
{
    let ended = run_leaving::<R, LogVoters, LogFiles, LogSetup, I, W>(
        rt,
        alloc,
        &LogSetup {},
        reader,
        writer,
    )?;
    Ok(kept(rt, alloc, directory, ended.status, &ended.files))
}

/// Keeps the files that a run left, if any. Returns the status of the run, or 3.
fn kept<R: Log + Files<File = File> + AllocGlobal>(
    rt: &R,
    alloc: Global,
    directory: &str,
    told: u8,
    left: &Option<LogFiles>,
) -> u8
    ensures { IsToldOrUnkept left.now told result }
{
    let Some(left) = left else {
        return told;
    };
    match keep(rt, alloc, left, directory) {
        Ok(()) => told,
        Err(fault) => {
            error!(rt; "{fault}");
            UNKEPT
        }
    }
}

/// Writes the files of a log into a real directory that exists.
fn keep<R: Files<File = File> + AllocGlobal>(
    rt: &R,
    alloc: Global,
    log: &LogFiles,
    directory: &str,
) -> Result<(), CopyFault> {
    let files = kept_files(alloc, log)?;
    write_directory(rt, files.as_slice(), directory)
}

/// The files of a log in memory: those of its main directory, then those of its second one, if it has one. A directory
/// that doesn't exist, for example because no store was opened, has none. Fails with `FileSystem` if a directory isn't
/// listed or a file isn't read, or with `Memory`.
pub fn kept_files(alloc: Global, log: &LogFiles) -> Result<Vec<StoredFile>, CopyFault>
    ensures { IfOk result (λ files. AreKept log.now files.items) }
{
    let mut files = files_in(alloc, &log.files, log.config.dir.as_str())?;
    if let Some(second) = &log.config.spill_dir {
        let mut spilled = files_in(alloc, &log.files, second.as_str())?;
        files.append(&mut spilled)?;
    }
    Ok(files)
}

/// The files of a directory; none if it doesn't exist.
fn files_in(
    alloc: Global,
    files: &MemoryFileSystem,
    directory: &str,
) -> Result<Vec<StoredFile>, CopyFault>
    ensures { IfOk result (λ found. AreFilesIn (disk_of files.now) directory.now found.items) }
{
    match files.list(directory) {
        Err(ErrorKind::NotFound) if !files.has_stopped() => Ok(Vec::new(alloc)),
        _ => gather(alloc, files, directory),
    }
}
