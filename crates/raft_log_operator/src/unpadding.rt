//! Removes the padding from a log.
ghost use Rattle.std.specs.Prelude.{IfErr, IfOk, OnOk};
ghost use Rattle.raft_log_file_settings.specs.Settings.{directories_of};
ghost use Rattle.raft_log_open.specs.Unpadding.{FailsToUnpad, Unpads};
ghost use Rattle.raft_log_operator.specs.Tasks.{FailsToTakePadding, TakesPadding, kept_settings};

use crate::fault::{CommandFault, Outcome};
use crate::settings::kept_settings;
use crate::text::FileText;
use raft_log_command_line::Place;
use raft_log_engine::{Error, FileId, FileSystem};
use raft_log_open::unpad;
use std::alloc::Global;
use std::io;
use std::io::Write;

/// Rewrites the padded files of a log without padding, and writes a line for each, or that there was none.
///
/// Fails as `unpad` does, with no output; files may have been rewritten by then. Fails with `Output` if writing the
/// output fails, after all files were done.
pub fn unpad_log<F: FileSystem, W: Write>(
    alloc: Global,
    files: &mut F,
    place: &Place,
    out: &mut W,
) -> Result<Outcome, CommandFault>
    ensures ok { OnOk result (TakesPadding place.now (F.disk files.old) (F.disk files.new)) }
    ensures err { IfErr result (λ fault.
        FailsToTakePadding place.now fault (F.disk files.old) (F.disk files.new)) }
{
    let written = match take_padding(alloc, files, place) {
        Ok(written) => written,
        Err(error) => return Err(CommandFault::Log(error)),
    };
    match write_files(written.as_slice(), out) {
        Ok(()) => Ok(Outcome::Sound),
        Err(error) => Err(CommandFault::Output(error)),
    }
}

/// Removes the padding from a log, and returns which files were written anew.
fn take_padding<F: FileSystem>(
    alloc: Global,
    files: &mut F,
    place: &Place,
) -> Result<Vec<FileId>, Error>
    ensures ok { IfOk result (λ written. Unpads (directories_of (kept_settings place.now)) written.items
        (F.disk files.old) (F.disk files.new)) }
    ensures err { IfErr result (λ error. FailsToUnpad (directories_of (kept_settings place.now)) error
        (F.disk files.old) (F.disk files.new)) }
{
    let config = match kept_settings(alloc, place) {
        Ok(config) => config,
        Err(_) => return Err(Error::Memory),
    };
    match unpad(alloc, &config, files) {
        Ok(written) => Ok(written),
        Err(error) => Err(error),
    }
}

/// Writes a line for each file, or that there is none.
fn write_files<W: Write>(files: &[FileId], out: &mut W) -> io::Result<()> {
    if files.is_empty() {
        return writeln!(out, "no padding");
    }
    for file in files {
        let text = FileText(*file);
        writeln!(out, "{text}: written anew")?;
    }
    Ok(())
}
