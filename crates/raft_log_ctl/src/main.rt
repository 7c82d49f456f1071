//! What an operator does with a log in a real directory: `raft_log_ctl --help` prints the usage.
//!
//! The status is:
//! - 0 if the task was done;
//! - 1 if it was done and found a hole, a gap or a damaged file, or `stat` couldn't open an engine;
//! - 2 for wrong arguments;
//! - 3 if the task failed; standard error says why.
//!
//! If standard output is a pipe that its reader closes, a dump ends with status 0. Any other task drops the rest of its
//! output, and ends with its usual status.
#![tactic(auto)]

mod asking;
mod one_file;
mod pipe;
mod purging;
mod refusal;
mod serving;

use asking::{Asked, read_arguments};
use log::{LevelFilter, Logged};
use purging::{open_to_purge, serve_purge};
use serving::serve;
use std::process::ExitCode;

// The open of a purge lends its file system to threads. One over real directories is therefore passed on here, where
// the runtime isn't a parameter.
fn main(rt: HostRuntime) -> ExitCode {
    let status = match read_arguments(&rt) {
        Asked::Done(status) => status,
        Asked::Task(place, task) => {
            // Warnings, for example that a file is truncated, are about a copy in memory.
            let quiet = Logged::new(&rt, LevelFilter::Error, &rt);
            serve(&rt, &quiet, &place, &task)
        }
        Asked::Purge(place, force) => match open_to_purge(&rt, &place) {
            Ok((files, place)) => serve_purge(&rt, files, &place, force),
            Err(status) => status,
        },
    };
    ExitCode::from(status)
}
