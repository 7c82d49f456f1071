//! How a pipe begins its files.

ghost use Rattle.std.specs.Prelude.{◌≡◌, ◌-◌, cond, false, IfOk, IfErr, IsTrue};
ghost use Rattle.std.specs.Str.{bytes_eq};
ghost use Rattle.raft_log_file_pipe.specs.Placing.{IsChosen, IsFull, TellsFreed, TellsRoom};
ghost use Rattle.raft_log_record_base.specs.declared.errors.Error.TheVariants.{Memory};
ghost use Rattle.raft_log_file_format.specs.Header.{header_bytes};
ghost use Rattle.raft_log_file_pipe.specs.Headers.{IsAlignmentRefusal};
ghost use Rattle.raft_log_active_file.specs.Layout.{IsUnaligned};

use crate::headers::encode_header;
use raft_log_active_file::{DEFAULT_PATH_ID, PathId, PipeFormat};
use raft_log_file_format::LogFileFormat;
use raft_log_fs::FileSystem;
use raft_log_record_base::{Error, Result};
use std::alloc::Global;
use std::io::ErrorKind;

/// How files are begun: their format, their header, and their target size.
#[derive(Drop, Debug)]
pub struct NewFiles {
    /// The format.
    pub format: LogFileFormat,
    header: Vec<u8>,
    /// A file of this size in bytes, or longer, gets no more records.
    pub target_size: usize,
    ghost unaligned: { IsUnaligned format },
    ghost spelled: { header.items ≡ header_bytes format },
}

impl NewFiles {
    /// Files of this format and target size in bytes. Fails with `InvalidArgument` for an alignment, or with `Memory`.
    pub fn new(alloc: Global, format: LogFileFormat, target_size: usize) -> Result<NewFiles>
        ensures format { IfOk result (λ files. files.format ≡ format) }
        ensures size { IfOk result (λ files. files.target_size ≡ target_size) }
        ensures err { IfErr result (λ error. IsAlignmentRefusal format error) }
    {
        let header = encode_header(alloc, format)?;
        Ok(NewFiles {
            format,
            header,
            target_size,
        })
    }

    /// The header.
    pub fn header(&self) -> &[u8]
        ensures bytes { result.now ≡ header_bytes self.now.format }
        ensures unaligned { IsUnaligned self.now.format }
    {
        &self.header
    }
}

/// Whether a directory has room for `size` bytes: not if its free space can't be read. Fails only with `Memory`.
fn has_room<F: FileSystem>(file_system: &F, directory: &str, size: usize) -> Result<bool>
    ensures ok { IfOk result (TellsRoom (F.tells_space file_system.now) (F.disk file_system.now) size
        directory.now) }
    ensures err { IfErr result (λ error. (error ≡ Memory) × ((F.disk file_system.now).stopped ≡ false)) }
{
    match file_system.free_space(directory) {
        Ok(space) => Ok(space >= size as u64),
        Err(ErrorKind::OutOfMemory) => Err(Error::Memory),
        Err(_) => Ok(false),
    }
}

/// Bytes in a directory that count as free, beside the free space that is reported for it.
#[derive(Clone, Copy)]
pub struct FreedSpace<'a> {
    /// The path of the directory.
    pub directory: &'a str,
    /// How many bytes.
    pub bytes: usize,
}

impl<'a> FreedSpace<'a> {
    /// How many of `size` bytes need reported free space in a directory.
    fn rest(&self, directory: &str, size: usize) -> usize
        ensures { result ≡ size - cond (bytes_eq directory.now self.now.directory.now) self.now.bytes 0 }
    {
        if directory == self.directory {
            return size.saturating_sub(self.bytes);
        }
        size
    }
}

/// The directory for a new file: if there are several, the first that has room for `size` bytes, or the main one if
/// none has. Fails only with `Memory`.
pub fn choose_directory<G: PipeFormat, F: FileSystem>(
    layout: &G,
    file_system: &F,
    size: usize,
) -> Result<PathId>
    ensures ok { IfOk result (λ place. IsChosen (F.tells_space file_system.now) (F.disk file_system.now) size
        (G.file_paths layout.now).directories place) }
    ensures err { IfErr result (λ error. (error ≡ Memory) × ((F.disk file_system.now).stopped ≡ false)) }
{
    let none = FreedSpace {
        directory: "",
        bytes: 0,
    };
    choose_directory_with(layout, file_system, size, &none)
}

/// The directory for a new file, as `choose_directory` chooses it, but with the freed bytes counted as free. Fails only
/// with `Memory`.
pub fn choose_directory_with<G: PipeFormat, F: FileSystem>(
    layout: &G,
    file_system: &F,
    size: usize,
    freed: &FreedSpace,
) -> Result<PathId>
    ensures ok { IfOk result (λ place. IsChosen
        (TellsFreed (F.tells_space file_system.now) freed.now.directory.now freed.now.bytes)
        (F.disk file_system.now) size (G.file_paths layout.now).directories place) }
    ensures err { IfErr result (λ error. (error ≡ Memory) × ((F.disk file_system.now).stopped ≡ false)) }
{
    let paths = layout.paths();
    if paths.len() > 1 {
        for (path_id, path) in paths.iter().enumerate() {
            if has_room(file_system, path, freed.rest(path, size))? {
                return Ok(path_id);
            }
        }
    }
    Ok(DEFAULT_PATH_ID)
}

/// Whether no directory has any space left. A directory whose free space can't be read has none. If memory runs out,
/// returns false.
pub fn is_full<G: PipeFormat, F: FileSystem>(layout: &G, file_system: &F) -> bool
    ensures { IsTrue result → IsFull (F.tells_space file_system.now) (F.disk file_system.now)
        (G.file_paths layout.now) }
{
    let paths = layout.paths();
    for (path_id, path) in paths.iter().enumerate() {
        match has_room(file_system, path, 1) {
            Ok(false) => {}
            _ => return false,
        }
    }
    true
}
