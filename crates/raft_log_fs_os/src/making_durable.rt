//! Makes what was found in a log's directories durable before any caller sees it.
//!
//! Linux reports a failed sync once, and then marks the pages that it couldn't write as clean: a later sync of the file
//! succeeds without them. A log stops at a failed sync, so only the last file of either queue can have such pages.
//! Their bytes are written again, and then synced.
ghost use Rattle.std.specs.Prelude.{◌≡◌, ◌<◌, length, OnOk};
ghost use Rattle.raft_log_fs_state.specs.Storage.{IsStorageSound, contents_of};
ghost use Rattle.raft_log_fs_traced.specs.Device.{held_by, settled};
ghost use Rattle.raft_log_fs_traced.specs.WritingBack.{LeavesBytes};
ghost use Rattle.raft_log_fs_os.specs.Loading.{AllRest, IsWrittenBack, StaysSettled};

use super::fault::DirectoryFault;
use super::file_device::PIECE;
use super::log_names::{ListedFile, last_number};
use raft_log_fs_state::Storage;
use raft_log_fs_traced::{Device, write_back};
use raft_log_record_base::{FileId, LogQueue};
use std::alloc::Global;

/// Writes back the last file of either queue of a log, with the same bytes, and syncs it. If a device call fails,
/// returns its error, with the file's path.
pub(crate) fn write_back_last_files<D: Device>(
    alloc: Global,
    device: &mut D,
    storage: &Storage,
    listed: &[ListedFile],
) -> Result<(), DirectoryFault>
    requires whole { IsStorageSound storage.now }
    requires rest { AllRest storage.now }
    requires follows { held_by (D.trace device.old) ≡ settled (contents_of storage.now) }
    ensures same { LeavesBytes (D.trace device.old) (D.trace device.new) }
{
    let mut room = vec![in alloc; 0u8; PIECE]?;
    write_back_last_of(alloc, device, storage, listed, LogQueue::Append, &mut room)?;
    write_back_last_of(alloc, device, storage, listed, LogQueue::Rewrite, &mut room)
}

/// Writes back the last file of a queue. If both directories have a file with its number, writes back both.
fn write_back_last_of<D: Device>(
    alloc: Global,
    device: &mut D,
    storage: &Storage,
    listed: &[ListedFile],
    queue: LogQueue,
    room: &mut [u8],
) -> Result<(), DirectoryFault>
    requires room { 0 < length room.old }
    requires whole { IsStorageSound storage.now }
    requires rest { AllRest storage.now }
    requires follows { held_by (D.trace device.old) ≡ settled (contents_of storage.now) }
    ensures same { LeavesBytes (D.trace device.old) (D.trace device.new) }
{
    let Some(last) = last_number(listed, queue) else {
        return Ok(());
    };
    for file in listed {
        if file.id == Some(FileId::new(queue, last)) {
            write_back_file(alloc, device, storage, file.path.as_str(), room)?;
        }
    }
    Ok(())
}

/// Writes back the file at a path, if there is one. If a device call fails, returns its error, with the path.
fn write_back_file<D: Device>(
    alloc: Global,
    device: &mut D,
    storage: &Storage,
    path: &str,
    room: &mut [u8],
) -> Result<(), DirectoryFault>
    requires room { 0 < length room.old }
    requires whole { IsStorageSound storage.now }
    requires rest { AllRest storage.now }
    requires follows { held_by (D.trace device.old) ≡ settled (contents_of storage.now) }
    ensures ok { OnOk result (IsWrittenBack path.now (contents_of storage.now)
        (D.trace device.old) (D.trace device.new)) }
    ensures same { LeavesBytes (D.trace device.old) (D.trace device.new) }
{
    let Some(file) = storage.file(path) else {
        return Ok(());
    };
    match write_back(device, storage, file, room) {
        Ok(()) => Ok(()),
        Err(kind) => Err(DirectoryFault::of_files(alloc, path, kind.into())),
    }
}

/// Makes the names in a log's directories durable. If a device call fails, returns its error, with the directory.
pub(crate) fn sync_directories<D: Device>(
    alloc: Global,
    device: &mut D,
    directory: &str,
    spill_directory: Option<&str>,
) -> Result<(), DirectoryFault>
    ensures same { StaysSettled (D.trace device.old) (D.trace device.new) }
{
    sync_directory(alloc, device, directory)?;
    match spill_directory {
        Some(other) => sync_directory(alloc, device, other),
        None => Ok(()),
    }
}

/// Makes the names in a directory durable.
fn sync_directory<D: Device>(
    alloc: Global,
    device: &mut D,
    directory: &str,
) -> Result<(), DirectoryFault>
    ensures same { StaysSettled (D.trace device.old) (D.trace device.new) }
{
    match device.sync_directory(directory) {
        Ok(()) => Ok(()),
        Err(kind) => Err(DirectoryFault::of_files(alloc, directory, kind.into())),
    }
}
