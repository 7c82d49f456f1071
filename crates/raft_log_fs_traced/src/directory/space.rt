//! The space of directories: what is set for it, and what is learned when a file finds none.
ghost use Rattle.std.specs.Prelude.{IfSome};
ghost use Rattle.raft_log_fs.specs.Disk.{IsPathIn};

use super::DirectoryFileSystem;
use crate::device::Device;
use raft_log_fs_state::storage::child;
use std::alloc::AllocError;
use std::io::ErrorKind;

impl<D: Device> DirectoryFileSystem<D> {
    ghost use Rattle.std.specs.Prelude.{◌≡◌, ◌↔◌, ℕ, ◌-◌, IsTrue, Some, IfSome, OnOk, OnErr};
    ghost use Rattle.std.specs.String.{string_bytes};
    ghost use Rattle.std.specs.Map.{update};
    ghost use Rattle.std.specs.Str.{bytes_eq};
    ghost use Rattle.raft_log_fs_state.specs.Storage.{contents_of};
    ghost use Rattle.raft_log_fs_memory.specs.Space.{size_at, HasUsed, IsFree, LiesIn};
    ghost use Rattle.raft_log_fs_traced.specs.Directory.{calls_of, disk_of, FailsOnce};
    ghost use Rattle.raft_log_fs_traced.specs.Space.{spaces_of, full_of, TellsFree, NotesFull};

    /// Sets how many bytes the files of a directory may have in all, replacing an earlier number. `free_space` returns
    /// what is left of it; no call fails because of it. Fails only if memory runs out; then nothing changes.
    pub fn set_space(&mut self, directory: &str, bytes: u64) -> Result<(), AllocError>
        ensures same { disk_of D.Device self.new ≡ disk_of D.Device self.old }
        ensures calls { calls_of D.Device self.new ≡ calls_of D.Device self.old }
        ensures ok { OnOk result (spaces_of D.Device self.new
            ≡ update bytes_eq (spaces_of D.Device self.old) directory.now (Some bytes)) }
        ensures err { OnErr result (spaces_of D.Device self.new ≡ spaces_of D.Device self.old) }
    {
        let directory = String::from_str(self.storage.alloc, directory)?;
        match self.spaces.insert(directory, bytes) {
            Ok(_) => Ok(()),
            Err(_) => Err(AllocError),
        }
    }

    /// By how many bytes a directory's files may still grow: the lesser of two numbers. The one is what they leave of
    /// the space that is set for it. The other is what they leave of the bytes that they had when one of them found no
    /// space. If neither is known, it is 2^64 - 1.
    pub(super) fn free_in(&self, directory: &str) -> u64
        ensures { TellsFree D.Device self.now directory.now result }
    {
        self.free_of_set(directory)
            .min(self.free_of_found(directory))
    }

    /// What a directory's files leave of the space that is set for it; 2^64 - 1 if none is set.
    fn free_of_set(&self, directory: &str) -> u64
        ensures { IsFree (spaces_of D.Device self.now) directory.now (contents_of self.now.storage) result }
    {
        match self.spaces.get(directory) {
            Some(space) => self.space_left(directory, *space),
            None => u64::MAX,
        }
    }

    /// What a directory's files leave of the bytes that they had when one of them found no space; 2^64 - 1 if none did.
    fn free_of_found(&self, directory: &str) -> u64
        ensures { IsFree (full_of D.Device self.now) directory.now (contents_of self.now.storage) result }
    {
        match self.full.get(directory) {
            Some(space) => self.space_left(directory, *space),
            None => u64::MAX,
        }
    }

    /// Counts that a file found no space, and notes how many bytes its directory's files have.
    pub(super) fn count_lack(&mut self, file: usize) -> ErrorKind
        ensures once { FailsOnce ErrorKind.StorageFull result
            (disk_of D.Device self.old) (disk_of D.Device self.new) }
        ensures full { NotesFull D.Device file self.old self.new }
    {
        self.note_full(file);
        self.fail(ErrorKind::StorageFull)
    }

    /// Notes that a file found no space: from now on, its directory has as much as its files have. If memory runs out,
    /// nothing is noted.
    fn note_full(&mut self, file: usize)
        ensures same { disk_of D.Device self.new ≡ disk_of D.Device self.old }
        ensures set { spaces_of D.Device self.new ≡ spaces_of D.Device self.old }
        ensures model { contents_of self.new.storage ≡ contents_of self.old.storage }
        ensures full { NotesFull D.Device file self.old self.new }
    {
        let Some(directory) = self.directory_of(file) else {
            return;
        };
        let left = self.space_left(directory.as_str(), u64::MAX);
        let _noted = self.full.insert(directory, u64::MAX - left).is_ok();
    }

    /// The directory of a file; nothing if it has no name, or if memory runs out.
    fn directory_of(&self, file: usize) -> Option<String>
        ensures { IfSome result (λ directory.
            LiesIn file (string_bytes directory) (contents_of self.now.storage)) }
    {
        for (path, _) in self.storage.paths.iter() {
            if self.names(path, file) {
                let directory = directory_in(path)?;
                return String::from_str(self.storage.alloc, directory).ok();
            }
        }
        None
    }

    /// Whether a path names this file.
    fn names(&self, path: &str, file: usize) -> bool
        ensures { IsTrue result ↔ ((contents_of self.now.storage).names path.now ≡ Some file) }
    {
        match self.storage.file(path) {
            Some(other) => other == file,
            None => false,
        }
    }

    /// How many bytes a directory's files leave of its space.
    fn space_left(&self, directory: &str, space: u64) -> u64
        ensures { (used : ℕ) × HasUsed directory.now (contents_of self.now.storage) used
            × (result ≡ space - used) }
    {
        let mut left = space;
        for (path, node) in self.storage.paths.iter() {
            if let Some(_name) = child(directory, path, *node) {
                left = left.saturating_sub(self.size_at(path));
            }
        }
        left
    }

    /// The size of the file at a path in bytes; 0 if there is none.
    fn size_at(&self, path: &str) -> u64
        ensures { result ≡ size_at (contents_of self.now.storage) path.now }
    {
        match self.storage.file(path) {
            Some(id) => self.storage.size(id) as u64,
            None => 0,
        }
    }
}

/// The directory that a path is in, if the path has a slash.
fn directory_in(path: &str) -> Option<&str>
    ensures { IfSome result (λ directory. IsPathIn directory.now path.now) }
{
    let at = path.rfind('/')?;
    Some(&path[..at])
}
