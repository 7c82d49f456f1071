//! What the arguments request.
use crate::pipe::is_closed;
use raft_log_operator::{Command, Place, Task, USAGE, Unread};
use std::env::Env;
use std::{env, io};

/// The status if the task was done.
pub const DONE: u8 = 0;

/// The status if the task was done and returned `Faulty`.
pub const FAULTY: u8 = 1;

/// The status for wrong arguments.
pub const WRONG_ARGUMENTS: u8 = 2;

/// The status if the task failed.
pub const REFUSED: u8 = 3;

/// What the arguments leave to do.
pub enum Asked {
    /// Nothing: the program ends with this status.
    Done(u8),
    /// A task on the log in these directories.
    Task(Place, Task),
    /// A purge of the log in these directories. The flag is whether by force.
    Purge(Place, bool),
}

/// Reads the arguments. Prints the usage if it is requested, or to standard error if the arguments are wrong.
pub fn read_arguments<R: Env + Print + Eprint + AllocGlobal>(rt: &R) -> Asked {
    match parsed(rt) {
        Ok(Command::On(place, task)) => Asked::Task(place, task),
        Ok(Command::Purge(place, force)) => Asked::Purge(place, force),
        Ok(Command::Help) => Asked::Done(told(rt.print(USAGE), DONE)),
        Err(Unread::Usage) => Asked::Done(told(rt.eprint(USAGE), WRONG_ARGUMENTS)),
        Err(Unread::Group(word)) => {
            let unread = Unread::Group(word);
            let _told = eprintln!(rt; "raft_log_ctl: {unread}").is_ok();
            Asked::Done(WRONG_ARGUMENTS)
        }
        Err(Unread::Memory) => {
            let _told = eprintln!(rt; "raft_log_ctl: out of memory").is_ok();
            Asked::Done(REFUSED)
        }
    }
}

/// The command in the arguments. Fails as `Command::parse` does, and with `Usage` if an argument isn't UTF-8.
fn parsed<R: Env + AllocGlobal>(rt: &R) -> Result<Command, Unread> {
    match env::args(rt) {
        Ok(arguments) => {
            let words = arguments.skip(1).collect::<Vec<String>>(rt.alloc())?;
            Command::parse(rt.alloc(), words.as_slice())
        }
        Err(error) if error.kind() == io::ErrorKind::OutOfMemory => Err(Unread::Memory),
        Err(_) => Err(Unread::Usage),
    }
}

/// The status after printing a text, which may have failed. A closed pipe is no failure.
fn told(text: io::Result<()>, status: u8) -> u8 {
    match text {
        Ok(()) => status,
        Err(error) => if is_closed(&error) { status } else { REFUSED },
    }
}
