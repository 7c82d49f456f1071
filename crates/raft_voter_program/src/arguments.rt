//! What the arguments request of the program.
ghost use Rattle.std.specs.Prelude.{IfOk, map, string_bytes};
ghost use Rattle.raft_voter_program.specs.Asking.{Asks};

use crate::has_arguments;
use std::alloc::AllocError;
use std::env;
use std::env::Env;
use std::io::ErrorKind;

/// The program's usage.
pub const USAGE: &str = "usage: raftvoters [--save DIR | --load DIR]

  (none)       runs the session on standard input over a log in memory, and writes its transcript and a
               verdict to standard output
  --save DIR   the same; then writes the files of the log into the directory DIR, which has to exist
  --load DIR   reads no session: opens a copy in memory of the log in the directory DIR, and writes a line
               for each voter; DIR is only read
  --help       prints this text and does nothing else

DIR is the argument as it is, also if it begins with -. docs/SESSIONS.md has the lines of sessions and
transcripts. Standard error gets what the log warns of, and why DIR could not be read or written.

status: 0 the verdict is yes, or the voters were written
        1 the verdict is no, or the settings were refused
        2 a line is unreadable, or wrong arguments
        3 memory, reading or writing was refused
        4 the log in DIR could not be opened
";

/// What the arguments request of the program.
#[derive(Debug, Drop)]
pub enum Arguments {
    /// To run a session: there are no arguments.
    Nothing,
    /// To print the usage.
    Help,
    /// To list the voters whose log is in this directory.
    Load(String),
    /// To run a session, and to keep its log in this directory.
    Save(String),
    /// Arguments that the program rejects.
    Others,
}

impl Arguments {
    /// What the arguments after the program's name request; `Others` if one isn't UTF-8. Fails only for lack of memory.
    pub fn read(rt: &(impl Env + AllocGlobal)) -> Result<Arguments, AllocError> {
        if !has_arguments(rt) {
            return Ok(Arguments::Nothing);
        }
        match env::args(rt) {
            Ok(words) => {
                let words: Vec<String> = words.skip(1).collect(rt.alloc())?;
                Arguments::of(words.as_slice())
            }
            Err(error) => match error.kind() {
                ErrorKind::OutOfMemory => Err(AllocError),
                _ => Ok(Arguments::Others),
            },
        }
    }

    /// What these words request. The directory is the word, unchanged. Fails only for lack of memory.
    pub fn of(words: &[String]) -> Result<Arguments, AllocError>
        ensures { IfOk result (Asks (map string_bytes words.now)) }
    {
        match words {
            [] => Ok(Arguments::Nothing),
            [option] => match option.as_str() {
                "--help" => Ok(Arguments::Help),
                _ => Ok(Arguments::Others),
            },
            [option, directory] => match option.as_str() {
                "--load" => Ok(Arguments::Load(directory.clone()?)),
                "--save" => Ok(Arguments::Save(directory.clone()?)),
                _ => Ok(Arguments::Others),
            },
            _ => Ok(Arguments::Others),
        }
    }
}
