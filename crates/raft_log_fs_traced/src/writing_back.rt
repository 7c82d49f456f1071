//! Writes a file back, so that its bytes reach the medium even if an earlier sync of them failed.
ghost use Rattle.std.specs.Prelude.{◌≡◌, ◌<◌, ◌≤◌, None, length, OnOk};
ghost use Rattle.raft_log_fs_state.specs.Held.{held_of};
ghost use Rattle.raft_log_fs_state.specs.Steps.{size_of};
ghost use Rattle.raft_log_fs_state.specs.Storage.{contents_of};
ghost use Rattle.raft_log_fs_traced.specs.Device.{held_by, settled};
ghost use Rattle.raft_log_fs_traced.specs.WritingBack.{LeavesBytes, RestsAt, WritesBack, WrotePieces};

use crate::device::Device;
use raft_log_fs_state::Storage;
use std::io::ErrorKind;

/// Writes the bytes of a file again, as many at a time as the room holds, which must not be empty, and then syncs them.
/// The file must exist, with all its bytes synced. The device must hold what the model does, and no directory may have
/// to be synced.
///
/// If a device call fails, this returns its error. Whether it succeeds or fails, later calls and a crash find the same
/// bytes as before.
pub fn write_back<D: Device>(
    device: &mut D,
    storage: &Storage,
    file: usize,
    room: &mut [u8],
) -> Result<(), ErrorKind>
    requires room { 0 < length room.old }
    requires there { held_of storage.now.files.items file ≡ None → ⊥ }
    requires rests { RestsAt file (contents_of storage.now) }
    requires follows { held_by (D.trace device.old) ≡ settled (contents_of storage.now) }
    ensures ok { OnOk result (WritesBack file (size_of ((contents_of storage.now).files file))
        (D.trace device.old) (D.trace device.new)) }
    ensures same { LeavesBytes (D.trace device.old) (D.trace device.new) }
{
    write_pieces(device, storage, file, room)?;
    device.sync(file)
}

/// Writes the bytes of a file again, without a sync.
fn write_pieces<D: Device>(
    device: &mut D,
    storage: &Storage,
    file: usize,
    room: &mut [u8],
) -> Result<(), ErrorKind>
    requires room { 0 < length room.old }
    requires there { held_of storage.now.files.items file ≡ None → ⊥ }
    requires follows { held_by (D.trace device.old) ≡ settled (contents_of storage.now) }
    ensures ok { OnOk result (WrotePieces file (size_of ((contents_of storage.now).files file))
        (D.trace device.old) (D.trace device.new)) }
    ensures same { LeavesBytes (D.trace device.old) (D.trace device.new) }
{
    let size = storage.size(file);
    let mut offset = 0;
    while offset < size {
        let count = storage.read(file, offset, room);
        device.write_back(file, offset, &room[..count])?;
        offset = offset.saturating_add(count);
    }
    Ok(())
}
