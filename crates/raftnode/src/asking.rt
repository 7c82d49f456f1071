//! What the arguments request.
ghost use Rattle.std.specs.Prelude.{◌≡◌, IfOk, map, string_bytes};
ghost use Rattle.raftnode.specs.Asking.{Asks, is_option};

use std::alloc::AllocError;
use std::env;
use std::env::Env;
use std::io::ErrorKind;

/// The program's usage.
pub const USAGE: &str = "usage: raftnode DIR [SETTINGS]

  DIR        the directory of the log, created if it does not exist; one raftnode at a time can use it
  SETTINGS   a TOML file of settings (docs/SETTINGS.md), of which dir is ignored; without it, the defaults
  --help     prints this text and does nothing else

A path that begins with - is written ./-PATH. SETTINGS is only read. Log files are written in DIR, and in
the settings' spill-dir, which is created too.

Standard input has the requests, as lines of docs/SESSIONS.md: round .. end, purge, rewrite-append,
rewrite-rewrite. Standard output gets a line for each voter in the log, then 'ready', then what came of
each request: a round is 'answered' once all that it changed is durable, else 'cut'. On a full disk a
request may be answered 'Refused', and raftnode goes on. Standard error gets errors, what the log warns
of, and each key of SETTINGS that is not used.

status: 0 the input ended, and the log is closed
        1 the log, SETTINGS, a directory, the input or the output failed, as standard error says; every
          answered round is durable, and it is safe to start raftnode again on the same directory
        2 wrong arguments
";

/// What the arguments request.
#[derive(Debug, Drop, PartialEq, Eq)]
pub enum Asked {
    /// The usage.
    Help,
    /// A node over the log in this directory, with the settings of this file, or the default ones.
    Node(String, Option<String>),
    /// Arguments that the program rejects.
    Others,
}

impl Asked {
    /// What the arguments after the program's name request. If one isn't UTF-8, returns `Others`. Fails only for lack
    /// of memory.
    pub fn read<R: Env + AllocGlobal>(rt: &R) -> Result<Asked, AllocError> {
        match env::args(rt) {
            Ok(words) => {
                let words: Vec<String> = words.skip(1).collect(rt.alloc())?;
                Asked::of(words.as_slice())
            }
            Err(error) => match error.kind() {
                ErrorKind::OutOfMemory => Err(AllocError),
                _ => Ok(Asked::Others),
            },
        }
    }

    /// What these words request. A path is one word, unchanged. Fails only for lack of memory.
    pub fn of(words: &[String]) -> Result<Asked, AllocError>
        ensures { IfOk result (Asks (map string_bytes words.now)) }
    {
        match words {
            [word] => match word.as_str() {
                "--help" => Ok(Asked::Help),
                _ if is_option(word) => Ok(Asked::Others),
                _ => Ok(Asked::Node(word.clone()?, None)),
            },
            [directory, settings] if !is_option(directory) && !is_option(settings) => {
                Ok(Asked::Node(directory.clone()?, Some(settings.clone()?)))
            }
            _ => Ok(Asked::Others),
        }
    }
}

/// Whether a word is an option, and not a path: it begins with a dash.
fn is_option(word: &String) -> bool
    ensures { result ≡ is_option (string_bytes word.now) }
{
    word.as_bytes().starts_with(b"-")
}
