//! A file system over a device.
mod calls;
mod checks;
mod lengthening;
mod space;

ghost use Rattle.raft_log_fs.proofs.Public.{IsSound-prop};
ghost use Rattle.raft_log_fs.specs.Image.{IsSound};
ghost use Rattle.raft_log_fs_state.specs.Storage.{IsStorageSound, IsWhole-prop};
ghost use Rattle.raft_log_fs_traced.specs.Device.{held_by};
ghost use Rattle.raft_log_fs_traced.specs.Following.{Follows, Follows-prop};

use crate::device::Device;
use raft_log_fs::Kinds;
use raft_log_fs_state::Storage;
use std::collections::BTreeMap;

/// A file system over a device, whose files are also in memory, each byte once. A change is made in memory first, and
/// then on the device. Directories whose names changed are synced at once. Reads come from memory. If a device call
/// fails, the file system stops.
///
/// A file is made longer on the device first. If there is no room for that, the call fails, and the failure is counted.
/// The file keeps its bytes, and the file system doesn't stop.
#[derive(Drop)]
pub struct DirectoryFileSystem<D: Device> {
    storage: Storage,
    // How many bytes the files of a directory may have in all, for each directory that has a limit.
    spaces: BTreeMap<String, u64>,
    // For each directory in which a file found no space: how many bytes its files had then.
    full: BTreeMap<String, u64>,
    device: D,
    failures: u64,
    kinds: Kinds,
    stopped: bool,
    ghost whole: { IsStorageSound storage } by { IsWhole-prop storage },
    ghost follows: { Follows stopped storage (D.Device.trace device) } by { Follows-prop stopped storage (D.Device.trace device) },
    ghost sound: { IsSound (held_by (D.Device.trace device)).kept } by { IsSound-prop (held_by (D.Device.trace device)).kept },
}

impl<D: Device> DirectoryFileSystem<D> {
    ghost use Rattle.std.specs.Prelude.{◌≡◌, ℕ, List, None};
    ghost use Rattle.raft_log_fs_state.specs.Storage.{contents_of};
    ghost use Rattle.raft_log_fs_traced.specs.Space.{spaces_of, full_of};
    ghost use Rattle.raft_log_fs_traced.specs.Device.{settled};
    ghost use Rattle.raft_log_fs_traced.specs.Directory.{calls_of, disk_of};

    /// The file system over a device. The model must be sound and hold what the device does, and no directory may have
    /// to be synced.
    pub fn new(storage: Storage, device: D) -> DirectoryFileSystem<D>
        requires whole { IsStorageSound storage }
        requires follows { held_by (D.Device.trace device) ≡ settled (contents_of storage) }
        ensures same { disk_of D.Device result ≡ contents_of storage }
        ensures calls { calls_of D.Device result ≡ D.Device.trace device }
        ensures unset { (directory : List ℕ) → spaces_of D.Device result directory ≡ None }
        ensures found { (directory : List ℕ) → full_of D.Device result directory ≡ None }
    {
        let spaces = BTreeMap::new(storage.alloc);
        let full = BTreeMap::new(storage.alloc);
        DirectoryFileSystem {
            storage,
            spaces,
            full,
            device,
            failures: 0,
            kinds: Kinds::new(),
            stopped: false,
        }
    }
}
