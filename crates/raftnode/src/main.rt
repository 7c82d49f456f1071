//! A node of Raft voters over a directory. It reads rounds of requests from standard input, as lines of the session
//! language. It writes a round's replies to standard output once all that the round changed is durable. `raftnode
//! --help` prints the usage.
//!
//! The status is 0 if the input ended and the log is closed, 1 if the log or something else failed, and 2 for wrong
//! arguments. Standard error says what failed.
#![tactic(auto)]

mod asking;
mod refusal;
mod settings;

use asking::{Asked, USAGE};
use log::Log;
use raft_log_engine::{Config, FileSystem};
use raft_log_engine_os::open_files;
use raft_voter_node::run;
use refusal::Refusal;
use settings::settings;
use std::io;
use std::io::{BufReader, Eprint, Input, Print};
use std::process::ExitCode;
use std::thread::Threads;
use std::time::Clock;

/// The status if the log or something else failed.
const REFUSED: u8 = 1;

/// The status for wrong arguments.
const WRONG_ARGUMENTS: u8 = 2;

/// Runs the node over these files.
fn serve<
    R: Threads + Log + Sync + Clock + Input + Print + AllocGlobal,
    F: FileSystem + Sync + Drop,
>(rt: &R, config: Config, files: F) -> anyhow::Result<()> {
    let mut input = BufReader::new(rt.alloc(), rt.reader())?;
    run(
        rt,
        rt.alloc(),
        config,
        files,
        &mut input,
        &mut io::writer(rt),
    )?;
    Ok(())
}

/// The exit with this status, or with 1 if the text before it wasn't written.
fn exit_after(text: io::Result<()>, status: u8) -> ExitCode {
    match text {
        Ok(()) => ExitCode::from(status),
        Err(_) => ExitCode::from(REFUSED),
    }
}

/// The exit after a failure, which is printed to standard error.
fn refused<R: Eprint>(rt: &R, refusal: &Refusal) -> ExitCode {
    exit_after(eprintln!(rt; "raftnode: {refusal}"), REFUSED)
}

// An open lends its file system to threads. `proofs/main/Answers.antt` proves that one over real directories may be
// lent.
fn main(rt: HostRuntime) -> ExitCode {
    let (directory, file) = match Asked::read(&rt) {
        Ok(Asked::Node(directory, file)) => (directory, file),
        Ok(Asked::Help) => return exit_after(rt.print(USAGE), 0),
        Ok(Asked::Others) => return exit_after(rt.eprint(USAGE), WRONG_ARGUMENTS),
        Err(short) => return refused(&rt, &short.into()),
    };
    let config = match settings(&rt, directory, file) {
        Ok(config) => config,
        Err(refusal) => return refused(&rt, &refusal),
    };
    let files = match open_files(&rt, &config) {
        Ok(files) => files,
        Err(fault) => return refused(&rt, &fault.into()),
    };
    match serve(&rt, config, files) {
        Ok(()) => ExitCode::SUCCESS,
        Err(error) => refused(&rt, &error.into()),
    }
}
