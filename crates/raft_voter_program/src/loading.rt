//! The voters of a log in a real directory.
ghost use Rattle.std.specs.Prelude.{IfOk, OnErr};
ghost use Rattle.raft_voter_program.specs.Loading.{IsLoaded, Loads, LoadsEarly};

use crate::list_voters;
use crate::setup::{USUAL_DIRECTORY, usual_config};
use log::{Log, error};
use raft_log_directory_copies::{CopyFault, load_directory};
use raft_log_engine::MemoryFileSystem;
use raft_voter::RoundService;
use raft_voter_log::{LogFiles, LogVoters};
use raft_voter_world::VoterDisk;
use std::alloc::Global;
use std::fs::File;
use std::io;
use std::io::{ErrorKind, Write};
use std::rt::Files;
use std::thread::Threads;

/// Copies the files of a real directory into a file system in memory, and opens a store on them with the default
/// settings. Writes a line for each of its voters, in rising order of the groups, and returns status 0. If the open
/// fails, it writes that, and returns status 4. It changes nothing in the real directory.
///
/// Fails if reading the directory fails, which is logged; then nothing was written. It also fails if memory runs out,
/// or if a read of the store or the writer fails. Then nothing was written, or a prefix of what may be written, but not
/// all.
pub fn load<R: Threads + Log + Sync + Files<File = File> + AllocGlobal + Clone + Drop, W: Write>(
    rt: &R,
    alloc: Global,
    directory: &str,
    writer: &mut W,
) -> io::Result<u8>
    ensures ok { IfOk result (Loads ⟦<LogVoters as RoundService<R>>⟧.service
        ⟦<LogFiles as VoterDisk<R, LogVoters>>⟧.disk (W.contents writer.old) (W.contents writer.new)) }
    ensures err { OnErr result (LoadsEarly ⟦<LogVoters as RoundService<R>>⟧.service
        ⟦<LogFiles as VoterDisk<R, LogVoters>>⟧.disk (W.contents writer.old) (W.contents writer.new)) }
{
    let files = loaded_files(rt, alloc, directory)?;
    let workers = files.config.recovery_threads as u64;
    list_voters::<R, LogVoters, LogFiles, W>(rt, alloc, files, workers, writer)
}

/// The files of a real directory, in a file system in memory, as a log with the default settings. If reading them
/// fails, that is logged.
fn loaded_files<R: Log + Files<File = File> + AllocGlobal + Clone + Drop>(
    rt: &R,
    alloc: Global,
    directory: &str,
) -> io::Result<LogFiles>
    ensures { IfOk result IsLoaded }
{
    let config = usual_config(alloc)?;
    let mut files = MemoryFileSystem::new(alloc);
    match load_directory(rt, directory, &mut files, USUAL_DIRECTORY) {
        Ok(()) => Ok(LogFiles { config, files }),
        Err(fault) => {
            error!(rt; "{fault}");
            Err(error_of(&fault))
        }
    }
}

/// Why loading files failed, as an error of reading.
fn error_of(fault: &CopyFault) -> io::Error {
    match fault {
        CopyFault::System { error, .. } => error.kind().into(),
        CopyFault::FileSystem { kind, .. } => (*kind).into(),
        CopyFault::Occupied { .. } => ErrorKind::AlreadyExists.into(),
        CopyFault::Memory => ErrorKind::OutOfMemory.into(),
    }
}
