//! Purges a log in real directories.
use crate::asking::{DONE, REFUSED};
use crate::pipe::Pipe;
use crate::refusal::Refusal;
use log::Log;
use raft_log_fs::FileSystem;
use raft_log_fs_os::{DirectoryFileSystem, FileDevice, open_directories};
use raft_log_operator::{Place, Purged, purge};
use std::fs::File;
use std::io;
use std::io::{BufWriter, Write};
use std::rt::Files;
use std::thread::Threads;

/// Opens the directories of a log for a purge. Their paths may end in slashes. Returns the file system, and the place
/// without these slashes. Prints a failure to standard error, and fails with the status.
pub fn open_to_purge<R: Files<File = File> + Threads + Eprint + AllocGlobal + Clone + Sync + Drop>(
    rt: &R,
    place: &Place,
) -> Result<(DirectoryFileSystem<FileDevice<R>>, Place), u8> {
    match open(rt, place) {
        Ok(opened) => Ok(opened),
        Err(refusal) => Err(refused(rt, place, &refusal)),
    }
}

fn open<R: Files<File = File> + Threads + Eprint + AllocGlobal + Clone + Sync + Drop>(
    rt: &R,
    place: &Place,
) -> Result<(DirectoryFileSystem<FileDevice<R>>, Place), Refusal> {
    let place = place.trimmed(rt.alloc())?;
    let spill = match &place.spill_directory {
        Some(spill) => Some(spill.as_str()),
        None => None,
    };
    let files = open_directories(rt, place.directory.as_str(), spill)?;
    Ok((files, place))
}

/// Purges the log in an opened file system, by force if requested, and returns the status. Prints a failure to standard
/// error. If standard output is a pipe that its reader closes, the purge drops the rest of its output.
pub fn serve_purge<
    R: Threads + Log + Sync + Print + Eprint + AllocGlobal,
    F: FileSystem + Sync + Drop,
>(rt: &R, files: F, place: &Place, force: bool) -> u8 {
    match attempt(rt, files, place, force) {
        Ok(()) => DONE,
        Err(refusal) => refused(rt, place, &refusal),
    }
}

/// Purges a log, and writes what it prints to standard output, whether it succeeds or fails.
fn attempt<R: Threads + Log + Sync + Print + AllocGlobal, F: FileSystem + Sync + Drop>(
    rt: &R,
    files: F,
    place: &Place,
    force: bool,
) -> Result<(), Refusal> {
    let pipe = Pipe::new(io::writer(rt), true);
    let mut out = BufWriter::new(rt.alloc(), pipe)?;
    let Purged {
        files: _files,
        result,
    } = purge(rt, rt.alloc(), files, place, force, &mut out);
    let flushed = out.flush();
    result?;
    flushed?;
    Ok(())
}

/// Prints to standard error that a purge failed, and why. Returns the status.
fn refused<R: Eprint>(rt: &R, place: &Place, refusal: &Refusal) -> u8 {
    let directory = place.directory.as_str();
    let _told = eprintln!(rt; "raft_log_ctl: purge of {directory} failed: {refusal}").is_ok();
    REFUSED
}
