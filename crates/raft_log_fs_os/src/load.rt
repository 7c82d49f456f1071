//! Loads the files in directories.
ghost use Rattle.std.specs.Prelude.{◌≡◌, ◌≤◌, None};
ghost use Rattle.raft_log_fs_state.specs.Held.{held_of};
ghost use Rattle.raft_log_fs_state.specs.Storage.{IsStorageSound, IsWhole-prop};
ghost use Rattle.raft_log_fs_os.specs.Loading.{AllRest, AllRest-prop, FillsFile};

use super::locked_directory::LockedDirectory;
use super::log_names::ListedFile;
use super::open_file::OpenFile;
use raft_log_fs_state::{Content, Storage, Stored};
use std::alloc::Global;
use std::collections::BTreeMap;
use std::fs::{File, OpenOptions};
use std::io;
use std::io::ErrorKind;
use std::os::unix::fs::FileExt;
use std::rt::Files;
use std::thread::{Threads, map_chunks};

/// How many bytes are read at a time: few enough that the buffer is still in the processor's cache when they arrive.
const PIECE: usize = 1 << 18;

/// The most threads that read files.
const READERS: usize = 32;

/// For what the files of directories are opened.
#[derive(Clone, Copy, Debug, PartialEq, Eq)]
pub(crate) enum Access {
    /// Reading and writing. Each file is synced before it is read.
    ReadWrite,
    /// Only reading. Nothing is changed, and nothing is synced.
    ReadOnly,
}

/// What is in directories: a model of it, its open files by the model's numbers, and the locked directories.
#[derive(Drop)]
pub(crate) struct Found {
    pub storage: Storage,
    pub files: BTreeMap<usize, OpenFile>,
    pub directories: Vec<LockedDirectory>,
    pub access: Access,
    ghost whole: { IsStorageSound storage } by { IsWhole-prop storage },
    ghost rest: { AllRest storage } by { AllRest-prop storage },
}

impl Found {
    /// An empty model, before directories are opened.
    pub fn new(alloc: Global, access: Access) -> Found {
        Found {
            storage: Storage::new(alloc),
            files: BTreeMap::new(alloc),
            directories: Vec::new(alloc),
            access,
        }
    }

    /// Locks a directory, and adds it without its files. Readers share the lock. Fails with `NotADirectory`, with
    /// `AlreadyExists` if the path was added before, or with `WouldBlock` if another open has the lock.
    pub fn add_directory<R: Files<File = File>>(
        &mut self,
        rt: &R,
        path: &str,
    ) -> io::Result<LockedDirectory> {
        let directory = File::open(rt, path)?;
        if !directory.metadata()?.is_dir() {
            return Err(ErrorKind::NotADirectory.into());
        }
        if self.storage.node(path).is_some() {
            return Err(ErrorKind::AlreadyExists.into());
        }
        let locked = LockedDirectory::lock(self.storage.alloc, directory, path, self.access)?;
        self.storage.add_directory(path)?;
        Ok(locked)
    }

    // Adds a file with its bytes, as synced ones. Fails if its directory doesn't exist.
    fn add_file(&mut self, path: &str, opened: File, content: Vec<u8>) -> io::Result<()> {
        if self.storage.node(path).is_some() {
            return Err(ErrorKind::AlreadyExists.into());
        }
        if !self.storage.has_directory(path) {
            return Err(ErrorKind::NotFound.into());
        }
        let named = String::from_str(self.storage.alloc, path)?;
        let file = self.storage.files.len();
        self.storage.add_file(path)?;
        fill(&mut self.storage, file, content);
        let opened = OpenFile {
            file: opened,
            path: named,
        };
        match self.files.insert(file, opened) {
            Ok(_) => Ok(()),
            Err(_) => Err(ErrorKind::OutOfMemory.into()),
        }
    }

    /// Opens the file at a path for reading, or for reading and writing, as the directories are opened.
    pub fn open<R: Files<File = File>>(&self, rt: &R, path: &str) -> io::Result<File> {
        OpenOptions::new()
            .read(true)
            .write(self.access == Access::ReadWrite)
            .open(rt, path)
    }

    /// Adds files with their bytes. If they may be written, each is synced first.
    pub fn load_files<R: Threads + Sync>(
        &mut self,
        rt: &R,
        listed: &[ListedFile],
        opened: Vec<File>,
    ) -> io::Result<()> {
        let contents = contents_of(rt, self.storage.alloc, self.access, &opened)?;
        for ((listed, file), content) in listed.iter().zip(opened).zip(contents) {
            self.add_file(listed.path.as_str(), file, content)?;
        }
        Ok(())
    }
}

/// The bytes of files, each read whole. If there are few files, each has its own thread, so that none waits while a
/// processor is idle. If there are more than `READERS`, a thread reads several.
fn contents_of<R: Threads + Sync>(
    rt: &R,
    alloc: Global,
    access: Access,
    opened: &[File],
) -> io::Result<Vec<Vec<u8>>> {
    let share = opened.len().div_ceil(READERS).max(1);
    let read = |_: usize, files: &[File]| -> io::Result<Vec<Vec<u8>>> {
        contents_in_turn(alloc, access, files)
    };
    let parts = map_chunks(rt, alloc, opened, share, &read)?;
    let mut contents = Vec::with_capacity(alloc, opened.len())?;
    for part in parts {
        contents.append(&mut part?)?;
    }
    Ok(contents)
}

/// The bytes of files, read one after another.
fn contents_in_turn(alloc: Global, access: Access, files: &[File]) -> io::Result<Vec<Vec<u8>>> {
    let mut contents = Vec::with_capacity(alloc, files.len())?;
    for file in files {
        contents.push(content_of(alloc, access, file)?)?;
    }
    Ok(contents)
}

/// Replaces the bytes of a file that exists, as synced ones.
fn fill(storage: &mut Storage, file: usize, content: Vec<u8>)
    requires there { (held_of storage.old.files.items file ≡ None) → ⊥ }
    requires whole { IsStorageSound storage.old }
    ensures filled { FillsFile file content.items storage.old storage.new }
    ensures whole { IsStorageSound storage.new }
{
    let changes = Vec::new(storage.alloc);
    storage.files[file] = Some(Stored {
        content: Content::from_vec(content),
        changes,
    });
}

/// The bytes of a file, read into a buffer of its size. A file that may be written is synced first.
fn content_of(alloc: Global, access: Access, opened: &File) -> io::Result<Vec<u8>> {
    if access == Access::ReadWrite {
        opened.sync_all()?;
    }
    let size = opened.metadata()?.len() as usize;
    let mut content = Vec::with_capacity(alloc, size)?;
    for start in (0..size).step_by(PIECE) {
        let end = size.min(start.saturating_add(PIECE));
        read_piece(opened, &mut content, start, end)?;
    }
    Ok(content)
}

/// Reads a file's bytes between two offsets into the same place of a buffer, which then ends there.
fn read_piece(opened: &File, content: &mut Vec<u8>, start: usize, end: usize) -> io::Result<()>
    requires { start ≤ end }
{
    content.resize(end, 0)?;
    opened.read_exact_at(&mut content[start..end], start as u64)
}
