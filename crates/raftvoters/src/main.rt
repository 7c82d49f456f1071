//! Serves a session of Raft requests and writes the replies, with a verdict on them.
//!
//! It reads the session from standard input, and writes its transcript to standard output. With `--save DIR` it then
//! writes the files of its log into a directory. With `--load DIR` it reads no session, and lists the voters whose log
//! is there. `--help` prints the usage.
//!
//! The status is:
//! - 0 if the verdict is yes, or the voters or the usage were written;
//! - 1 if the verdict is no, or the settings are rejected;
//! - 2 for an unreadable line or for other arguments;
//! - 3 if memory ran out, or if reading, writing or keeping the files failed;
//! - 4 if opening a loaded log failed.
#![tactic(auto)]

use raft_voter_program::start;
use std::process::ExitCode;

fn main(rt: HostRuntime) -> ExitCode {
    ExitCode::from(start(&rt))
}
