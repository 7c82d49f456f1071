//! Runs a task on a log in real directories.
use crate::asking::{DONE, FAULTY, REFUSED};
use crate::one_file::read_one_file;
use crate::pipe::Pipe;
use crate::refusal::Refusal;
use log::Log;
use raft_log_fs::FileSystem;
use raft_log_fs_memory::MemoryFileSystem;
use raft_log_fs_os::{
    DirectoryFault, DirectoryFileSystem, FileDevice, open_directories, open_directories_for_reading,
};
use raft_log_operator::{Outcome, Place, Task, dump, run};
use std::fs::File;
use std::io;
use std::io::{BufWriter, Write};
use std::rt::Files;
use std::thread::Threads;

/// Runs a task on the log in these directories, and returns the status. Prints a failure to standard error, unless it
/// is that the reader of standard output closed it; then the status is 0. `quiet` starts the threads, and takes what is
/// logged.
pub fn serve<
    R: Files<File = File> + Threads + Print + Eprint + AllocGlobal + Clone + Sync + Drop,
    Q: Threads + Log + Sync,
>(rt: &R, quiet: &Q, place: &Place, task: &Task) -> u8 {
    match attempt(rt, quiet, place, task) {
        Ok(Outcome::Sound) => DONE,
        Ok(Outcome::Faulty) => FAULTY,
        Err(refusal) => {
            if refusal.is_closed_pipe() {
                return DONE;
            }
            tell(rt, place, task, &refusal);
            REFUSED
        }
    }
}

/// Runs a task on the log in these directories, whose paths may end in slashes.
fn attempt<
    R: Files<File = File> + Threads + Print + Eprint + AllocGlobal + Clone + Sync + Drop,
    Q: Threads + Log + Sync,
>(rt: &R, quiet: &Q, place: &Place, task: &Task) -> Result<Outcome, Refusal> {
    let task = task.trimmed(rt.alloc())?;
    let place = place.trimmed(rt.alloc())?;
    attempt_in(rt, quiet, &place, &task)
}

/// Opens the directories of a log, or reads the one file of a dump, and runs a task.
fn attempt_in<
    R: Files<File = File> + Threads + Print + Eprint + AllocGlobal + Clone + Sync + Drop,
    Q: Threads + Log + Sync,
>(rt: &R, quiet: &Q, place: &Place, task: &Task) -> Result<Outcome, Refusal> {
    match open(rt, place, task) {
        Ok(mut files) => run_to_output(rt, quiet, &mut files, place, task),
        Err(fault) => match task {
            Task::Dump(group) if is_file(&fault, place.directory.as_str()) => {
                dump_one_file(rt, place, *group)
            }
            _ => Err(Refusal::Directory(fault)),
        },
    }
}

/// Dumps the one file at the main path. A closed pipe ends the dump, as in `run_to_output`.
fn dump_one_file<R: Files<File = File> + Print + AllocGlobal>(
    rt: &R,
    place: &Place,
    group: Option<u64>,
) -> Result<Outcome, Refusal> {
    let mut files = MemoryFileSystem::new(rt.alloc());
    let file = read_one_file(rt, place, &mut files)?;
    let pipe = Pipe::new(io::writer(rt), false);
    let mut out = BufWriter::new(rt.alloc(), pipe)?;
    let outcome = dump(rt.alloc(), &files, &file, group, &mut out)?;
    out.flush()?;
    Ok(outcome)
}

/// Runs a task, and writes what it prints to standard output. If that is a pipe that its reader closes, a dump fails at
/// once, since it may be long. Any other task continues, so that its status is right.
fn run_to_output<R: Print + AllocGlobal, Q: Threads + Log + Sync, F: FileSystem>(
    rt: &R,
    quiet: &Q,
    files: &mut F,
    place: &Place,
    task: &Task,
) -> Result<Outcome, Refusal> {
    let pipe = Pipe::new(io::writer(rt), !is_dump(task));
    let mut out = BufWriter::new(rt.alloc(), pipe)?;
    let outcome = run(quiet, rt.alloc(), files, place, task, &mut out)?;
    out.flush()?;
    Ok(outcome)
}

/// Whether a task is a dump.
fn is_dump(task: &Task) -> bool {
    matches!(task, Task::Dump(_))
}

/// Opens the directories of a log: for writing if the task is `unpad`, else for reading.
fn open<R: Files<File = File> + Threads + Eprint + AllocGlobal + Clone + Sync + Drop>(
    rt: &R,
    place: &Place,
    task: &Task,
) -> Result<DirectoryFileSystem<FileDevice<R>>, DirectoryFault> {
    let directory = place.directory.as_str();
    let spill = match &place.spill_directory {
        Some(spill) => Some(spill.as_str()),
        None => None,
    };
    if matches!(task, Task::Unpad) {
        return open_directories(rt, directory, spill);
    }
    open_directories_for_reading(rt, directory, spill)
}

/// Whether opening a path failed because it isn't a directory.
fn is_file(fault: &DirectoryFault, asked: &str) -> bool {
    match fault {
        DirectoryFault::NoDirectory(path) => path.as_str() == asked,
        _ => false,
    }
}

/// Prints to standard error which task failed, and why.
fn tell<R: Eprint>(rt: &R, place: &Place, task: &Task, refusal: &Refusal) {
    let directory = place.directory.as_str();
    let word = task.word();
    let told = match task {
        Task::Fork(target) => eprintln!(rt;
            "raft_log_ctl: {word} of {directory} into {target} failed: {refusal}"
        ),
        _ => eprintln!(rt; "raft_log_ctl: {word} of {directory} failed: {refusal}"),
    };
    let _told = told.is_ok();
}
