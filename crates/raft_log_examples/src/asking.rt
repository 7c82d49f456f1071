//! What the arguments request.
use std::alloc::AllocError;
use std::env;
use std::env::Env;
use std::io::ErrorKind;

/// The program's usage.
pub const USAGE: &str = "usage: raft_log_examples EXAMPLE [DIR]

  ten-lines      saves a key's value, and reads it back
  append-lines   prints the lines that the log has, keeps each line of standard input in it, and confirms each after
                 no crash can lose it
  node-storage   what a Raft node stores: appends, a conflict, a compaction, a purge, and a second open
  all            all three; the lines are kept in DIR, and the others have logs of their own in memory
  --help         prints this text

DIR is the directory of the log, created if it does not exist. Without it the log is in memory.

status: 0 done; 1 something failed, as standard error says; 2 wrong arguments
";

/// An example.
#[derive(Clone, Copy, Debug, PartialEq, Eq)]
pub enum Example {
    /// A key is saved, and read.
    TenLines,
    /// Lines of standard input are kept.
    AppendLines,
    /// A Raft node's storage.
    NodeStorage,
    /// All of these.
    All,
}

/// What the arguments request.
#[derive(Debug, Drop, PartialEq, Eq)]
pub enum Asked {
    /// The usage.
    Help,
    /// An example on a log in memory.
    InMemory(Example),
    /// An example on the log in this directory.
    In(Example, String),
    /// Arguments that the program rejects.
    Others,
}

impl Asked {
    /// What the arguments after the program's name request. One that isn't UTF-8 is wrong. Fails only for lack of
    /// memory.
    pub fn read<R: Env + AllocGlobal>(rt: &R) -> Result<Asked, AllocError> {
        match env::args(rt) {
            Ok(words) => {
                let words: Vec<String> = words.skip(1).collect(rt.alloc())?;
                Asked::of(words.as_slice())
            }
            Err(error) => match error.kind() {
                ErrorKind::OutOfMemory => Err(AllocError),
                _ => Ok(Asked::Others),
            },
        }
    }

    /// What these words request. Fails only for lack of memory.
    fn of(words: &[String]) -> Result<Asked, AllocError> {
        let Some((word, rest)) = words.split_first() else {
            return Ok(Asked::Others);
        };
        let Some(example) = named(word.as_str()) else {
            let is_help = word.as_str() == "--help" && rest.is_empty();
            return Ok(if is_help { Asked::Help } else { Asked::Others });
        };
        match rest {
            [] => Ok(Asked::InMemory(example)),
            [directory] => Ok(Asked::In(example, directory.clone()?)),
            _ => Ok(Asked::Others),
        }
    }
}

/// The example with this name.
fn named(name: &str) -> Option<Example> {
    match name {
        "ten-lines" => Some(Example::TenLines),
        "append-lines" => Some(Example::AppendLines),
        "node-storage" => Some(Example::NodeStorage),
        "all" => Some(Example::All),
        _ => None,
    }
}
