//! Copies a log into a directory.
ghost use Rattle.std.specs.Prelude.{IfErr, IfOk, OnOk, map};
ghost use Rattle.std.specs.String.{string_bytes};
ghost use Rattle.raft_log_offline.specs.Forks.{FailsToFork, Forks};
ghost use Rattle.raft_log_operator.specs.Tasks.{Copies, FailsToCopy, kept_settings};

use crate::fault::{CommandFault, Outcome};
use crate::settings::kept_settings;
use log::Log;
use raft_log_command_line::Place;
use raft_log_engine::{Error, FileSystem, fork};
use std::alloc::Global;
use std::io;
use std::io::Write;

/// Copies a log into a directory, which is created if it is missing, and writes each copy's path. Leaves the log as is.
///
/// Fails as `fork` does, with no output; what was copied stays. Fails with `Output` if writing the output fails, after
/// all files were copied.
pub fn fork_into<R: Log, F: FileSystem, W: Write>(
    rt: &R,
    alloc: Global,
    files: &mut F,
    place: &Place,
    target: &String,
    out: &mut W,
) -> Result<Outcome, CommandFault>
    ensures ok { OnOk result (Copies place.now target.now (F.disk files.old) (F.disk files.new)) }
    ensures err { IfErr result (λ fault.
        FailsToCopy place.now target.now fault (F.disk files.old) (F.disk files.new)) }
{
    let copied = match copy_log(rt, alloc, files, place, target.as_str()) {
        Ok(copied) => copied,
        Err(error) => return Err(CommandFault::Log(error)),
    };
    match write_paths(copied.as_slice(), out) {
        Ok(()) => Ok(Outcome::Sound),
        Err(error) => Err(CommandFault::Output(error)),
    }
}

/// Copies a log into a directory, and returns the paths of the copies.
fn copy_log<R: Log, F: FileSystem>(
    rt: &R,
    alloc: Global,
    files: &mut F,
    place: &Place,
    target: &str,
) -> Result<Vec<String>, Error>
    ensures ok { IfOk result (λ copied. Forks (kept_settings place.now) target.now
        (map string_bytes copied.items) (F.disk files.old) (F.disk files.new)) }
    ensures err { IfErr result (λ error. FailsToFork (kept_settings place.now) target.now error
        (F.disk files.old) (F.disk files.new)) }
{
    let config = match kept_settings(alloc, place) {
        Ok(config) => config,
        Err(_) => return Err(Error::Memory),
    };
    match fork(rt, alloc, &config, files, target) {
        Ok(details) => Ok(details.copied),
        Err(error) => Err(error),
    }
}

fn write_paths<W: Write>(paths: &[String], out: &mut W) -> io::Result<()> {
    for path in paths {
        writeln!(out, "{path}")?;
    }
    Ok(())
}
