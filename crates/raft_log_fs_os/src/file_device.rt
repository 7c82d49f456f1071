//! The operating system's files, as a device.
ghost use Rattle.raft_log_fs_state.specs.declared.storage.Storage.{Storage};

use super::growing::{grow, write_pieces};
use super::load::Access;
use super::locked_directory::LockedDirectory;
use super::open_file::{OpenFile, reported, unopened, warn_of_space};
use super::record::Record;
use super::reserve::{create_from_reserve, extend_from_reserve, fill_beside};
use raft_log_fs_state::Storage;
use raft_log_fs_traced::{Attempt, Device};
use std::alloc::Global;
use std::collections::BTreeMap;
use std::fs::File;
use std::io::ErrorKind;
use std::os::unix::fs::FileExt;
use std::rt::Files;
use std::snapshot::Snapshot;
use std::{fs, io};

const CREATED: u64 = 0;

const DELETED: u64 = 1;

const MADE_DIRECTORY: u64 = 2;

const SYNCED_DIRECTORY: u64 = 3;

const WRITTEN: u64 = 4;

const SHORTENED: u64 = 5;

const GROWN: u64 = 6;

const SYNCED: u64 = 7;

const WRITTEN_BACK: u64 = 8;

const UNDONE_WRITE: u64 = 9;

const UNDONE_GROWTH: u64 = 10;

/// The most bytes that one system call writes, and the size of the buffer of zeros for growing files. Some systems keep
/// a longer write as one long piece in memory. Each short write into that piece, and each sync after it, then takes
/// time in the whole piece.
pub(crate) const PIECE: usize = 1 << 16;

/// The operating system's files, as a device.
/// - Each file that has a name is open; the directories stay open and locked until the device is dropped.
/// - A method makes one change on the device; a write and a growth make it piece by piece. It then notes the call; only
///   clauses read the notes.
/// - A growth is also synced, and so is a write that makes the file longer by more than a piece.
/// - If a file that becomes longer finds no space, it is truncated to its old length. That is printed to standard error,
///   with the directory and the path: for each of the log's directories the first time, and the first time after a file
///   in it could be made longer.
/// - A header and a record of Rewrite that find no space are tried once more, in the space that the directory keeps in
///   reserve. So is the making of a file. A deletion in the directory fills the reserve again.
/// - A system call that fails is printed to standard error, with the path.
/// - A directory is only made if the log's own files are only read, for a copy: nobody locks it. If they are written,
///   this fails with `NotFound`.
#[derive(Drop)]
pub struct FileDevice<R> {
    rt: R,
    files: BTreeMap<usize, OpenFile>,
    directories: Vec<LockedDirectory>,
    zeros: Vec<u8>,
    // Whether directories may be made.
    makes_directories: bool,
    found: Snapshot<Storage>,
    record: Record,
}

impl<R: Files<File = File> + Eprint + AllocGlobal + Drop> FileDevice<R> {
    ghost use Rattle.raft_log_fs_os.specs.Tracing.{IsFresh};

    /// The device over these files, which are those of the loaded model, by their numbers. It keeps the locked
    /// directories, and the zeros for growing files. `access` says for what the files were opened.
    pub(crate) fn new(
        rt: R,
        files: BTreeMap<usize, OpenFile>,
        directories: Vec<LockedDirectory>,
        zeros: Vec<u8>,
        storage: &Storage,
        access: Access,
    ) -> FileDevice<R>
        ensures { IsFresh storage.now result }
    {
        FileDevice {
            rt,
            files,
            directories,
            zeros,
            makes_directories: access == Access::ReadOnly,
            found: Snapshot::of(storage),
            record: Record::new(),
        }
    }
}

impl<R: Files<File = File> + Eprint + AllocGlobal + Drop> Device for FileDevice<R> {
    ghost use Rattle.raft_log_fs_os.specs.Tracing.{trace_of};

    ghost trace = { trace_of };

    fn create(&mut self, path: &str, file: usize) -> Result<(), ErrorKind> {
        let Ok(named) = String::from_str(self.rt.alloc(), path) else {
            return Err(ErrorKind::OutOfMemory);
        };
        let made = create_from_reserve(&self.rt, &mut self.directories, path);
        let opened = OpenFile {
            file: reported(&self.rt, path, "create it", made)?,
            path: named,
        };
        let Ok(_) = self.files.insert(file, opened) else {
            return Err(ErrorKind::OutOfMemory);
        };
        self.record
            .note(&[CREATED, file as u64, 0], path.as_bytes());
        Ok(())
    }

    fn delete(&mut self, path: &str) -> Result<(), ErrorKind> {
        let deleted = fs::remove_file(&self.rt, path);
        reported(&self.rt, path, "delete it", deleted)?;
        fill_beside(&self.rt, &mut self.directories, path, &self.zeros);
        self.record.note(&[DELETED, 0, 0], path.as_bytes());
        Ok(())
    }

    fn rename(&mut self, from: &str, to: &str) -> Result<(), ErrorKind> {
        let renamed = fs::rename(&self.rt, from, to);
        reported(&self.rt, from, "rename it", renamed)?;
        rename_open(self.rt.alloc(), &mut self.files, from, to);
        self.record.note_rename(from.as_bytes(), to.as_bytes());
        Ok(())
    }

    fn create_dir(&mut self, path: &str) -> Result<(), ErrorKind> {
        if !self.makes_directories {
            return Err(unopened(&self.rt, path));
        }
        let made = fs::create_dir(&self.rt, path);
        reported(&self.rt, path, "create it", made)?;
        self.record.note(&[MADE_DIRECTORY, 0, 0], path.as_bytes());
        Ok(())
    }

    fn sync_directory(&mut self, path: &str) -> Result<(), ErrorKind> {
        let named = if path.is_empty() { "." } else { path };
        let synced = sync_named(&self.rt, self.directories.as_slice(), named);
        reported(&self.rt, named, "sync it", synced)?;
        self.record.note(&[SYNCED_DIRECTORY, 0, 0], path.as_bytes());
        Ok(())
    }

    fn write_at(&mut self, file: usize, offset: usize, bytes: &[u8]) -> Result<(), ErrorKind> {
        let Some(opened) = self.files.get(&file) else {
            return Err(ErrorKind::NotFound);
        };
        let written = write_pieces(&opened.file, offset, bytes);
        reported(&self.rt, opened.path.as_str(), "write", written)?;
        self.record
            .note(&[WRITTEN, file as u64, offset as u64], bytes);
        Ok(())
    }

    fn extend(&mut self, file: usize, offset: usize, bytes: &[u8]) -> Result<Attempt, ErrorKind> {
        let Some(opened) = self.files.get(&file) else {
            return Err(ErrorKind::NotFound);
        };
        let path = opened.path.as_str();
        let tried = extend_from_reserve(&self.rt, &mut self.directories, opened, offset, bytes);
        let attempt = reported(&self.rt, path, "write", tried)?;
        warn_of_space(&self.rt, &mut self.directories, path, attempt);
        let kind = match attempt {
            Attempt::Made => WRITTEN,
            Attempt::Undone => UNDONE_WRITE,
        };
        self.record.note(&[kind, file as u64, offset as u64], bytes);
        Ok(attempt)
    }

    fn truncate(&mut self, file: usize, size: usize) -> Result<(), ErrorKind> {
        let Some(opened) = self.files.get(&file) else {
            return Err(ErrorKind::NotFound);
        };
        let shortened = shorten(&opened.file, size as u64);
        reported(&self.rt, opened.path.as_str(), "truncate it", shortened)?;
        self.record
            .note(&[SHORTENED, file as u64, size as u64], &[]);
        Ok(())
    }

    fn grow(&mut self, file: usize, size: usize) -> Result<Attempt, ErrorKind> {
        let Some(opened) = self.files.get(&file) else {
            return Err(ErrorKind::NotFound);
        };
        let path = opened.path.as_str();
        let grown = grow(&opened.file, &self.zeros, size);
        let attempt = reported(&self.rt, path, "grow it", grown)?;
        warn_of_space(&self.rt, &mut self.directories, path, attempt);
        let kind = match attempt {
            Attempt::Made => GROWN,
            Attempt::Undone => UNDONE_GROWTH,
        };
        self.record.note(&[kind, file as u64, size as u64], &[]);
        Ok(attempt)
    }

    fn write_back(&mut self, file: usize, offset: usize, bytes: &[u8]) -> Result<(), ErrorKind> {
        let Some(opened) = self.files.get(&file) else {
            return Err(ErrorKind::NotFound);
        };
        let written = write_pieces(&opened.file, offset, bytes);
        reported(&self.rt, opened.path.as_str(), "write", written)?;
        self.record
            .note(&[WRITTEN_BACK, file as u64, offset as u64], bytes);
        Ok(())
    }

    fn sync(&mut self, file: usize) -> Result<(), ErrorKind> {
        let Some(opened) = self.files.get(&file) else {
            return Err(ErrorKind::NotFound);
        };
        let synced = opened.file.sync_data();
        reported(&self.rt, opened.path.as_str(), "sync it", synced)?;
        self.record.note(&[SYNCED, file as u64, 0], &[]);
        Ok(())
    }

    fn close(&mut self, file: usize) {
        let _closed = self.files.remove(&file);
    }
}

/// Syncs a directory: through the handle that locks it, or through a new one if it is none of the log's, such as the
/// target of a copy. A rotation therefore needs no free descriptor for this.
fn sync_named<R: Files<File = File>>(
    rt: &R,
    directories: &[LockedDirectory],
    path: &str,
) -> io::Result<()> {
    match directories.iter().find(|locked| locked.is_at(path)) {
        Some(locked) => locked.sync(),
        None => File::open(rt, path)?.sync_all(),
    }
}

/// Truncates a file to a length. A file that isn't longer is unchanged.
fn shorten(opened: &File, size: u64) -> io::Result<()> {
    if size < opened.metadata()?.len() {
        opened.set_len(size)?;
    }
    Ok(())
}

/// Notes the new path of an open file. If memory runs out, it keeps the old one, which only messages show.
fn rename_open(alloc: Global, files: &mut BTreeMap<usize, OpenFile>, from: &str, to: &str) {
    for (_, opened) in files.iter_mut() {
        if opened.path.as_str() == from {
            if let Ok(path) = String::from_str(alloc, to) {
                opened.path = path;
            }
        }
    }
}
