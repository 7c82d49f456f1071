//! The program's commands, and how they are spelled.
ghost use Rattle.std.specs.Prelude.{◌≡◌, ◌≢◌, ◌↔◌, ℕ, Bool, IsTrue, IfOk, Option, String, decimal, map, string_bytes};
ghost use Rattle.std.specs.declared.alloc.Global.{Global};
ghost use Rattle.raft_log_command_line.specs.Words.{MisnamesGroup, NamesNoGroup, dump_words, fork_words, place_words, purge_words, spill_words};

use crate::place::{Place, trimmed};
use std::alloc::{AllocError, Global};
use thiserror::Error;

/// The program's usage.
pub const USAGE: &str = "usage: raft_log_ctl COMMAND

  dump PATH         each item of the log in the directory PATH, or of the one log file PATH
  dump PATH --group N
                    only the items of the group with the number N
  check DIR         what is wrong with the log in DIR: missing files, damaged files, and groups with a hole in
                    their entries; or 'no holes, no damage, no gaps'
  stat DIR          what the log in DIR holds, in numbers; missing and damaged files are listed first
  fork DIR TARGET   copies the log in DIR into TARGET, which may not be there, and tells each copy
  purge DIR         frees space: deletes files of the log in DIR that hold nothing live, moves what is live out of
                    other old files, and deletes these; prints the files of both queues before and after
  purge DIR --force
                    also moves what is live out of the newer files of the queue Append
  unpad DIR         writes each file of the log in DIR that has an alignment anew without it, and tells which,
                    or 'no padding'
  --help            this text

Of a log with a second directory that one is named last, by --spill-dir DIR2. A log that is in use
is refused. Only fork, purge and unpad change anything: fork makes TARGET, purge deletes files of the log
and makes others, unpad writes files of the log anew.

status: 0 done; 1 done, and a hole, a missing or a damaged file was found; 2 wrong arguments; 3 refused
";

/// What the program is to do.
#[derive(Debug, Drop, PartialEq, Eq)]
pub enum Command {
    /// Prints the usage.
    Help,
    /// Does a task on a log.
    On(Place, Task),
    /// Purges a log. The flag is whether by force.
    Purge(Place, bool),
}

/// A task on a log over a borrowed file system. A purge is none, since its engine owns the file system.
#[derive(Debug, Drop, PartialEq, Eq)]
pub enum Task {
    /// Lists the log's items, or those of one file: all of them, or those of the group with this number.
    Dump(Option<u64>),
    /// Checks the log for damage, gaps and holes.
    Check,
    /// Counts what the log holds.
    Stat,
    /// Copies the log into the directory with this path.
    Fork(String),
    /// Rewrites the log's padded files without padding.
    Unpad,
}

impl Task {
    /// This task without the slashes at the end of its path.
    pub fn trimmed(&self, alloc: Global) -> Result<Task, AllocError> {
        match self {
            Task::Dump(group) => Ok(Task::Dump(*group)),
            Task::Check => Ok(Task::Check),
            Task::Stat => Ok(Task::Stat),
            Task::Fork(target) => {
                let target = String::from_str(alloc, trimmed(target.as_str()))?;
                Ok(Task::Fork(target))
            }
            Task::Unpad => Ok(Task::Unpad),
        }
    }

    /// The word that requests it.
    pub fn word(&self) -> &'static str {
        match self {
            Task::Dump(_) => "dump",
            Task::Check => "check",
            Task::Stat => "stat",
            Task::Fork(_) => "fork",
            Task::Unpad => "unpad",
        }
    }
}

/// Why arguments are not a command.
#[derive(Debug, Drop, PartialEq, Eq, Error)]
pub enum Unread {
    /// No command is spelled so.
    #[error("no command is spelled so")]
    Usage,
    /// The word after `--group` isn't a group's number.
    #[error("--group: {0:?} is no number of a group")]
    Group(String),
    /// Out of memory.
    #[error("out of memory")]
    Memory,
}

impl From<AllocError> for Unread {
    ghost use Rattle.raft_log_command_line.specs.declared.command.Unread.TheVariants.{Memory};

    ghost from_gives = { λ _ e. e ≡ Memory };

    fn from(_error: AllocError) -> Unread {
        Unread::Memory
    }
}

impl Command {
    ghost use Rattle.raft_log_command_line.specs.Words.{MisnamesDumpedGroup, words_of};

    /// The command in these arguments, which follow the program's name. Fails with `Usage` if no command is spelled so,
    /// with `Group` if a dump's `--group` has a wrong number, or with `Memory`.
    pub fn parse(alloc: Global, arguments: &[String]) -> Result<Command, Unread>
        ensures ok { IfOk result (λ command. map string_bytes arguments.now ≡ words_of command) }
        ensures usage { result ≡ Err Unread.Usage →
            (command : Command) → map string_bytes arguments.now ≢ words_of command }
        ensures group { (word : String Global) → result ≡ Err (Unread.Group word) →
            MisnamesDumpedGroup (map string_bytes arguments.now) (string_bytes word) }
    {
        let Some((word, rest)) = arguments.split_first() else {
            return Err(Unread::Usage);
        };
        if is(word, "dump") {
            let (place, group) = parse_dump(alloc, rest)?;
            return Ok(Command::On(place, Task::Dump(group)));
        }
        if is(word, "check") {
            let place = parse_place(alloc, rest)?;
            return Ok(Command::On(place, Task::Check));
        }
        if is(word, "stat") {
            let place = parse_place(alloc, rest)?;
            return Ok(Command::On(place, Task::Stat));
        }
        if is(word, "fork") {
            let (place, target) = parse_fork(alloc, rest)?;
            return Ok(Command::On(place, Task::Fork(target)));
        }
        if is(word, "unpad") {
            let place = parse_place(alloc, rest)?;
            return Ok(Command::On(place, Task::Unpad));
        }
        if is(word, "purge") {
            let (place, force) = parse_purge(alloc, rest)?;
            return Ok(Command::Purge(place, force));
        }
        if is(word, "--help") && rest.is_empty() {
            return Ok(Command::Help);
        }
        Err(Unread::Usage)
    }
}

fn is(word: &String, text: &str) -> bool
    ensures { IsTrue result ↔ (string_bytes word.now ≡ text.now) }
{
    word.as_str() == text
}

/// The log to list in these words, and the group if they name one.
fn parse_dump(alloc: Global, words: &[String]) -> Result<(Place, Option<u64>), Unread>
    ensures ok { IfOk result (λ asked. map string_bytes words.now ≡ dump_words asked.0 asked.1) }
    ensures usage { result ≡ Err Unread.Usage →
        (place : Place) → (group : Option ℕ) → map string_bytes words.now ≢ dump_words place group }
    ensures group { (word : String Global) → result ≡ Err (Unread.Group word) →
        MisnamesGroup (map string_bytes words.now) (string_bytes word) }
{
    let Some((directory, behind)) = words.split_first() else {
        return Err(Unread::Usage);
    };
    match behind.split_first() {
        Some((option, rest)) if is(option, "--group") => {
            let Some((word, rest)) = rest.split_first() else {
                return Err(Unread::Usage);
            };
            let group = parse_group(alloc, word)?;
            let place = place_of(alloc, directory.as_str(), rest)?;
            Ok((place, Some(group)))
        }
        _ => {
            let place = place_of(alloc, directory.as_str(), behind)?;
            Ok((place, None))
        }
    }
}

/// The group with this number in decimal, without a sign or leading zeros.
fn parse_group(alloc: Global, word: &String) -> Result<u64, Unread>
    ensures ok { IfOk result (λ group. string_bytes word.now ≡ decimal group) }
    ensures usage { result ≢ Err Unread.Usage }
    ensures word { (reported : String Global) → result ≡ Err (Unread.Group reported) →
        string_bytes reported ≡ string_bytes word.now }
    ensures group { (reported : String Global) → result ≡ Err (Unread.Group reported) →
        NamesNoGroup (string_bytes word.now) }
{
    if let Ok(group) = word.as_str().parse::<u64>() {
        let spelled = format!(in alloc; "{group}")?;
        if is(word, spelled.as_str()) {
            return Ok(group);
        }
    }
    let word = String::from_str(alloc, word.as_str())?;
    Err(Unread::Group(word))
}

/// The log to copy and the target, in these words.
fn parse_fork(alloc: Global, words: &[String]) -> Result<(Place, String), Unread>
    ensures ok { IfOk result (λ asked. map string_bytes words.now ≡ fork_words asked.0 asked.1) }
    ensures usage { result ≡ Err Unread.Usage →
        (place : Place) → (target : String Global) → map string_bytes words.now ≢ fork_words place target }
    ensures group { (word : String Global) → result ≢ Err (Unread.Group word) }
{
    let Some((directory, behind)) = words.split_first() else {
        return Err(Unread::Usage);
    };
    let Some((target, rest)) = behind.split_first() else {
        return Err(Unread::Usage);
    };
    let place = place_of(alloc, directory.as_str(), rest)?;
    let target = String::from_str(alloc, target.as_str())?;
    Ok((place, target))
}

/// The log to purge in these words, and whether they ask for force.
fn parse_purge(alloc: Global, words: &[String]) -> Result<(Place, bool), Unread>
    ensures ok { IfOk result (λ asked. map string_bytes words.now ≡ purge_words asked.0 asked.1) }
    ensures usage { result ≡ Err Unread.Usage →
        (place : Place) → (force : Bool) → map string_bytes words.now ≢ purge_words place force }
    ensures group { (word : String Global) → result ≢ Err (Unread.Group word) }
{
    let Some((directory, behind)) = words.split_first() else {
        return Err(Unread::Usage);
    };
    match behind.split_first() {
        Some((option, rest)) if is(option, "--force") => {
            let place = place_of(alloc, directory.as_str(), rest)?;
            Ok((place, true))
        }
        _ => {
            let place = place_of(alloc, directory.as_str(), behind)?;
            Ok((place, false))
        }
    }
}

/// The log in these words.
fn parse_place(alloc: Global, words: &[String]) -> Result<Place, Unread>
    ensures ok { IfOk result (λ place. map string_bytes words.now ≡ place_words place) }
    ensures usage { result ≡ Err Unread.Usage →
        (place : Place) → map string_bytes words.now ≢ place_words place }
    ensures group { (word : String Global) → result ≢ Err (Unread.Group word) }
{
    match words.split_first() {
        Some((directory, rest)) => place_of(alloc, directory.as_str(), rest),
        None => Err(Unread::Usage),
    }
}

/// The log with this main directory, and with the second one that is in the rest of the words.
fn place_of(alloc: Global, directory: &str, rest: &[String]) -> Result<Place, Unread>
    ensures directory { IfOk result (λ place. string_bytes place.directory ≡ directory.now) }
    ensures ok { IfOk result (λ place. map string_bytes rest.now ≡ spill_words place.spill_directory) }
    ensures usage { result ≡ Err Unread.Usage →
        (spill : Option (String Global)) → map string_bytes rest.now ≢ spill_words spill }
    ensures group { (word : String Global) → result ≢ Err (Unread.Group word) }
{
    let spill_directory = parse_spill(alloc, rest)?;
    let directory = String::from_str(alloc, directory)?;
    Ok(Place {
        directory,
        spill_directory,
    })
}

/// The second directory in these words, if there is one.
fn parse_spill(alloc: Global, words: &[String]) -> Result<Option<String>, Unread>
    ensures ok { IfOk result (λ spill. map string_bytes words.now ≡ spill_words spill) }
    ensures usage { result ≡ Err Unread.Usage →
        (spill : Option (String Global)) → map string_bytes words.now ≢ spill_words spill }
    ensures group { (word : String Global) → result ≢ Err (Unread.Group word) }
{
    let Some((option, behind)) = words.split_first() else {
        return Ok(None);
    };
    let Some((directory, rest)) = behind.split_first() else {
        return Err(Unread::Usage);
    };
    if is(option, "--spill-dir") && rest.is_empty() {
        let directory = String::from_str(alloc, directory.as_str())?;
        return Ok(Some(directory));
    }
    Err(Unread::Usage)
}
