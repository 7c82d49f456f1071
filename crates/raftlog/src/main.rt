//! Plays sessions on a log and judges the answers. Its file system in memory fails, stops and crashes as they say.
//!
//! It reads sessions from standard input; a line `---` parts two of them. For each it writes a line for the answer to
//! each event. Then it writes `verdict yes` if the model log of `raft_log_world` explains the answers, otherwise
//! `verdict no`. For a text that is no session, or that has rejected settings or a rejected batch, it writes what is
//! wrong.
//!
//! The status is 0 if each text is a session with the verdict yes, and otherwise 1. It is 3 if memory ran out, or if
//! reading or writing failed. The log's own messages are discarded.
#![tactic(auto)]

mod batches;
mod events;
mod playing;
mod texts;

use log::sink::Discard;
use log::{LevelFilter, Log, Logged};
use std::io;
use std::io::{Input, Print, Read, Write};
use std::process::ExitCode;
use std::thread::Threads;
use texts::answer_all;

/// The status if a verdict is no, or a text has none.
const REFUSED: u8 = 1;

/// The status if memory ran out, or reading or writing failed.
const FAULT: u8 = 3;

/// Plays the sessions of standard input, and returns the status.
fn play_all<R: Input + Print + Threads + Log + Sync + AllocGlobal>(rt: &R) -> io::Result<u8> {
    let alloc = rt.alloc();
    let quiet = Logged::new(rt, LevelFilter::Off, Discard);
    let mut input = Vec::new(alloc);
    rt.reader().read_to_end(&mut input)?;
    let (told, good) = answer_all(&quiet, alloc, input.as_slice())?;
    let mut writer = io::writer(rt);
    writer.write_all(told.as_bytes())?;
    if good { Ok(0) } else { Ok(REFUSED) }
}

fn main(rt: HostRuntime) -> ExitCode {
    match play_all(&rt) {
        Ok(status) => ExitCode::from(status),
        Err(_) => ExitCode::from(FAULT),
    }
}
