//! Examples of programs on a log: a key that is saved and read, lines that are kept, and a Raft node's storage.
//! `raft_log_examples --help` prints the usage.
//!
//! The status is 0 if the example was played, 1 if something failed, and 2 for wrong arguments. Standard error says
//! what failed.
#![tactic(auto)]

mod appending;
mod asking;
mod keeping;
mod playing;
mod saving;
mod storage;
mod stored;

use asking::{Asked, Example, USAGE};
use keeping::keep_lines;
use log::Log;
use playing::live_twice;
use raft_log_engine::{Config, FileSystem, MemoryFileSystem};
use raft_log_engine_os::open_files;
use raft_log_fs_os::{DirectoryFault, DirectoryFileSystem, FileDevice};
use saving::save_and_print;
use std::fs::File;
use std::io;
use std::io::{Eprint, Input, Print};
use std::process::ExitCode;
use std::rt::Files;
use std::thread::Threads;

/// The directory of a log in memory.
const IN_MEMORY: &str = "log";

/// The status if something failed.
const FAILED: u8 = 1;

/// The status for wrong arguments.
const WRONG_ARGUMENTS: u8 = 2;

/// Plays an example on a log in a directory, over these files. If all are played, the lines are kept there, and the
/// other examples have logs of their own, in memory.
fn play<R: Threads + Log + Sync + Input + Print + AllocGlobal, F: FileSystem + Sync + Drop>(
    rt: &R,
    example: Example,
    directory: &str,
    files: F,
) -> anyhow::Result<()> {
    match example {
        Example::TenLines => save_and_print(rt, directory, files),
        Example::AppendLines => keep_lines(rt, directory, files),
        Example::NodeStorage => live_twice(rt, directory, files),
        Example::All => {
            save_and_print(rt, IN_MEMORY, MemoryFileSystem::new(rt.alloc()))?;
            keep_lines(rt, directory, files)?;
            live_twice(rt, IN_MEMORY, MemoryFileSystem::new(rt.alloc()))
        }
    }
}

/// Plays an example on a log in memory.
fn play_in_memory<R: Threads + Log + Sync + Input + Print + AllocGlobal>(
    rt: &R,
    example: Example,
) -> anyhow::Result<()> {
    play(rt, example, IN_MEMORY, MemoryFileSystem::new(rt.alloc()))
}

/// Creates the directory if it doesn't exist, and returns the file system over it.
fn files<R: Files<File = File> + Threads + Eprint + AllocGlobal + Clone + Sync + Drop>(
    rt: &R,
    directory: &str,
) -> Result<DirectoryFileSystem<FileDevice<R>>, DirectoryFault> {
    let mut config = Config::default(rt.alloc());
    config.dir = String::from_str(rt.alloc(), directory)?;
    open_files(rt, &config)
}

/// The exit after an example; prints why it failed.
fn exit<R: Eprint>(rt: &R, played: anyhow::Result<()>) -> ExitCode {
    match played {
        Ok(()) => ExitCode::SUCCESS,
        Err(error) => {
            let _told = eprintln!(rt; "{error}").is_ok();
            ExitCode::from(FAILED)
        }
    }
}

/// The exit after the usage, which may not have been printed.
fn exit_after(usage: io::Result<()>, status: u8) -> ExitCode {
    match usage {
        Ok(()) => ExitCode::from(status),
        Err(_) => ExitCode::from(FAILED),
    }
}

// An open lends its file system to threads. `proofs/main/Answers.antt` proves that one over real directories may be
// lent.
fn main(rt: HostRuntime) -> ExitCode {
    let (example, directory) = match Asked::read(&rt) {
        Ok(Asked::InMemory(example)) => return exit(&rt, play_in_memory(&rt, example)),
        Ok(Asked::In(example, directory)) => (example, directory),
        Ok(Asked::Help) => return exit_after(rt.print(USAGE), 0),
        Ok(Asked::Others) => return exit_after(rt.eprint(USAGE), WRONG_ARGUMENTS),
        Err(short) => return exit(&rt, Err(short.into())),
    };
    match files(&rt, directory.as_str()) {
        Ok(files) => exit(&rt, play(&rt, example, directory.as_str(), files)),
        Err(fault) => exit(&rt, Err(fault.into())),
    }
}
