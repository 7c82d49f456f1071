//! Draws a session: reads it from standard input, runs it as `raftvoters` does, and writes a picture of the run, as
//! SVG, to standard output. `raftvoters_timeline --help` prints the usage.
//!
//! The status is 0 if the picture was written, or for `--help`. Else standard error says why, and the status is:
//! - 1 for settings that are rejected;
//! - 2 for an unreadable line or for other arguments;
//! - 3 if memory, reading or writing failed.
#![tactic(auto)]

use log::Log;
use raft_voter_program::raft_voter_log::{LogFiles, LogVoters};
use raft_voter_program::{Arguments, LogSetup, NoFiles, StoreSetup, write_whole};
use raft_voter_session::{Session, SessionFault, read_session};
use raft_voter_timeline::draw_run;
use std::env::Env;
use std::io;
use std::io::{ErrorKind, Input, Print, Read};
use std::process::ExitCode;
use std::thread::Threads;

/// The program's usage.
const USAGE: &str = "usage: raftvoters_timeline < SESSION > PICTURE.svg

  --help   prints this text and does nothing else

Reads a session from standard input (docs/SESSIONS.md), runs it over a log in memory as raftvoters does,
and writes a picture of the run as SVG to standard output. No other file is read or written. Standard error
gets what the log warns of, and why there is no picture.

status: 0 the picture was written
        1 the settings were refused
        2 a line is unreadable, or wrong arguments
        3 memory, reading or writing was refused
";

/// The most bytes that are read: one more than a session may have, so that a longer one is recognized.
const MOST_READ_BYTES: u64 = 268_435_457;

/// The status if settings are rejected.
const SETTINGS_REFUSED: u8 = 1;

/// The status for an unreadable line, and for wrong arguments.
const UNREADABLE: u8 = 2;

/// The status if memory, reading or writing failed.
const FAULT: u8 = 3;

/// The program except for its exit: returns the status with which it ends. Fails with an `Err` if memory, reading or
/// writing fails.
fn run(
    rt: &(impl Env + Input + Print + Eprint + Threads + Log + Sync + AllocGlobal),
) -> io::Result<u8> {
    match Arguments::read(rt)? {
        Arguments::Nothing => draw_input(rt),
        Arguments::Help => {
            rt.print(USAGE)?;
            Ok(0)
        }
        _ => {
            rt.eprint(USAGE)?;
            Ok(UNREADABLE)
        }
    }
}

/// Writes the picture of the session on standard input, and returns the status for it.
fn draw_input<R: Input + Print + Eprint + Threads + Log + Sync + AllocGlobal>(
    rt: &R,
) -> io::Result<u8> {
    let mut session = Vec::new(rt.alloc());
    rt.reader().take(MOST_READ_BYTES).read_to_end(&mut session)?;
    match read_session(rt.alloc(), session.as_slice()) {
        Ok(session) => draw(rt, session),
        Err(SessionFault::Unreadable(line)) => {
            rt.eprintln(SessionFault::Unreadable(line))?;
            Ok(UNREADABLE)
        }
        Err(SessionFault::Memory) => Err(io::Error::from(ErrorKind::OutOfMemory)),
    }
}

/// Writes the picture of a session on a log in memory, and returns the status for it.
fn draw<R: Print + Eprint + Threads + Log + Sync + AllocGlobal>(
    rt: &R,
    session: Session,
) -> io::Result<u8> {
    let Session { settings, events } = session;
    let files = match files_of(rt, &settings) {
        Ok(files) => files,
        Err(NoFiles::Settings) => {
            rt.eprintln("settings refused")?;
            return Ok(SETTINGS_REFUSED);
        }
        Err(NoFiles::Memory) => return Err(io::Error::from(ErrorKind::OutOfMemory)),
    };
    let Ok(picture) = draw_run::<R, LogVoters, LogFiles>(rt, rt.alloc(), files, events) else {
        return Err(io::Error::from(ErrorKind::OutOfMemory));
    };
    write_whole(&mut io::writer(rt), picture.as_bytes())?;
    Ok(0)
}

/// The files at the start of a session with these settings.
fn files_of<R: Log + AllocGlobal>(rt: &R, settings: &Option<String>) -> Result<LogFiles, NoFiles> {
    StoreSetup::<R, LogVoters, LogFiles>::files(&LogSetup {}, rt, rt.alloc(), settings)
}

/// The status with which the program ends. If memory, reading or writing failed, it prints why to standard error, if it
/// can.
fn exit_status(rt: &impl Eprint, ended: io::Result<u8>) -> u8 {
    match ended {
        Ok(status) => status,
        Err(fault) => {
            let _told = rt.eprintln(fault);
            FAULT
        }
    }
}

fn main(rt: HostRuntime) -> ExitCode {
    ExitCode::from(exit_status(&rt, run(&rt)))
}
