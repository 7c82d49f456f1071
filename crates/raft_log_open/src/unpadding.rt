//! Removes the padding from a log that nobody has open.

ghost use Rattle.std.specs.Prelude.{◌≡◌, false, IfOk, IfErr, MatchBool, OnOk, map};
ghost use Rattle.std.specs.String.{string_bytes};
ghost use Rattle.raft_log_record_base.specs.declared.errors.Error.TheVariants.{Memory};
ghost use Rattle.raft_log_file_settings.specs.Settings.{directories_of, settings_of};
ghost use Rattle.raft_log_open.specs.Unpadding.{ClearsAll, ClearsOne, FailsToClearAll, FailsToClearOne, FailsToLookAt, FailsToUnpad, FailsToUnpadAll, FailsToUnpadOne, FindsAt, LeavesAlone, AreApart, IsApart, Unpads, UnpadsAll, WritesAnew};

use crate::content::unpadded;
use crate::placed_file::PlacedFile;
use crate::placing::{find_placed, temporary_in};
use crate::replacing::replace;
use raft_log_file_settings::Config;
use raft_log_fs::{FileSystem, Handle, Permission, Receipt};
use raft_log_record_base::{Error, FileId, Result};
use raft_log_recovery::paths::paths;
use raft_log_recovery_read::ListedFile;
use std::alloc::Global;
use std::io::ErrorKind;

/// Removes the padding from a log that nobody has open. Each file of either queue that has an alignment is written
/// anew; all others stay unchanged. Returns the files written anew: those of Rewrite first, each queue's by number.
///
/// A file written anew has a header without an alignment, then its records byte for byte without gaps. Damage is
/// kept: after the last good record the file's bytes are unchanged. An open finds the damage as before, and truncates
/// or rejects it by its settings. A last file without a whole record after its header stays; an open takes its header
/// for a torn one. If several files have one number, only the one in the last directory counts.
///
/// The new bytes are written to a file `unpadded` in the file's directory, synced, and renamed over the file. Each
/// file is thus unchanged or wholly new, whenever the call ends. The next call deletes a file `unpadded` that a crash
/// or a failure left.
///
/// Holds the bytes of one file in memory twice.
///
/// # Errors
/// - `Io(Other)` if the file system has stopped. This is checked first, so `Memory` is never returned then.
/// - `Io` if a directory of the log doesn't exist. Nothing changed.
/// - `Corruption` if a name in a directory begins with a number and has more before its end. Nothing changed.
/// - `Corruption` if a foreign record follows a file's last good one: whole, but with a compression that isn't read.
/// - `Io` if a file system call fails later, or `Memory`. Before either, earlier files may have been written anew.
pub fn unpad<F: FileSystem>(
    alloc: Global,
    source: &Config,
    file_system: &mut F,
) -> Result<Vec<FileId>>
    ensures ok { IfOk result (λ written. Unpads (directories_of (settings_of source.now)) written.items
        (F.disk file_system.old) (F.disk file_system.new)) }
    ensures err { IfErr result (λ error. FailsToUnpad (directories_of (settings_of source.now)) error
        (F.disk file_system.old) (F.disk file_system.new)) }
    ensures memory { IfErr result (λ error. error ≡ Memory → (F.disk file_system.old).stopped ≡ false) }
{
    if file_system.has_stopped() {
        return Err(Error::Io(ErrorKind::Other));
    }
    let directories = paths(alloc, source)?;
    let files = find_placed(alloc, file_system, directories.as_slice())?;
    clear_all(alloc, file_system, directories.as_slice())?;
    let written = unpad_files(alloc, file_system, files.as_slice())?;
    Ok(written)
}

/// Deletes the file that an earlier call left under the temporary path in each of these directories.
fn clear_all<F: FileSystem>(
    alloc: Global,
    file_system: &mut F,
    directories: &[String],
) -> Result<()>
    ensures ok { OnOk result (ClearsAll (map string_bytes directories.now)
        (F.disk file_system.old) (F.disk file_system.new)) }
    ensures err { IfErr result (λ error. FailsToClearAll (map string_bytes directories.now) error
        (F.disk file_system.old) (F.disk file_system.new)) }
{
    for directory in directories {
        clear(alloc, file_system, directory.as_str())?;
    }
    Ok(())
}

/// Deletes the file that an earlier call left under the temporary path in a directory, if there is one.
fn clear<F: FileSystem>(alloc: Global, file_system: &mut F, directory: &str) -> Result<()>
    ensures ok { OnOk result
        (ClearsOne directory.now (F.disk file_system.old) (F.disk file_system.new)) }
    ensures err { IfErr result (λ error.
        FailsToClearOne directory.now error (F.disk file_system.old) (F.disk file_system.new)) }
{
    let path = temporary_in(alloc, directory)?;
    if look_at(file_system, path.as_str())?.is_some() {
        file_system.delete(path.as_str())?;
    }
    Ok(())
}

/// Opens the file with this path for reading, if there is one.
fn look_at<F: FileSystem>(file_system: &F, path: &str) -> Result<Option<Handle>>
    ensures ok { IfOk result (FindsAt path.now (F.disk file_system.now)) }
    ensures err { IfErr result (FailsToLookAt path.now (F.disk file_system.now)) }
{
    match file_system.open(path, Permission::ReadOnly) {
        Ok(handle) => Ok(Some(handle)),
        Err(ErrorKind::NotFound) => Ok(None),
        Err(ErrorKind::OutOfMemory) => Err(Error::Memory),
        Err(kind) => Err(Error::Io(kind)),
    }
}

/// Writes those of these files anew that have padding, in order. Returns which.
fn unpad_files<F: FileSystem>(
    alloc: Global,
    file_system: &mut F,
    files: &[PlacedFile],
) -> Result<Vec<FileId>>
    requires { AreApart files.now }
    ensures ok { IfOk result (λ written. UnpadsAll files.now written.items
        (F.disk file_system.old) (F.disk file_system.new)) }
    ensures err { IfErr result (λ error. FailsToUnpadAll files.now error
        (F.disk file_system.old) (F.disk file_system.new)) }
{
    let mut written = Vec::new(alloc);
    for file in files {
        let is_written = unpad_file(alloc, file_system, file)?;
        if is_written {
            written.push(file.id)?;
        }
    }
    Ok(written)
}

/// Writes a file anew if it has padding. Returns whether it did.
fn unpad_file<F: FileSystem>(alloc: Global, file_system: &mut F, file: &PlacedFile) -> Result<bool>
    requires { IsApart file.now }
    ensures ok { IfOk result (λ written. MatchBool written
        (WritesAnew file.now (F.disk file_system.old) (F.disk file_system.new))
        (LeavesAlone file.now (F.disk file_system.old) (F.disk file_system.new))) }
    ensures err { IfErr result (λ error. FailsToUnpadOne file.now error
        (F.disk file_system.old) (F.disk file_system.new)) }
{
    let Some(handle) = look_at(file_system, file.path.as_str())? else {
        return Ok(false);
    };
    let listed = ListedFile {
        id: file.id,
        handle,
        is_last: file.is_last,
    };
    let mut receipts = Receipt::none();
    let Some(bytes) = unpadded(alloc, file_system, listed, &mut receipts)? else {
        return Ok(false);
    };
    replace(
        file_system,
        file.temporary.as_str(),
        file.path.as_str(),
        bytes.as_slice(),
    )?;
    Ok(true)
}
