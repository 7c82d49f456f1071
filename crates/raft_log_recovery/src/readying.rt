//! The reserved files of a log are prepared.

ghost use Rattle.std.specs.Prelude.{◌≡◌, IfErr, IfOk};
ghost use Rattle.raft_log_record_base.specs.declared.errors.Error.TheVariants.{Memory};
ghost use Rattle.raft_log_recovery.specs.Readying.{FailsToMakeMissing, FailsToReady, MakesMissing, Readies, kept_of, next_number, piece};

use crate::dropping::drop_newest;
use crate::making::make_files;
use log::Log;
use raft_log_active_file::{DEFAULT_FIRST_FILE_SEQ, File, PipeFormat};
use raft_log_fs::FileSystem;
use raft_log_record_base::{FileSeq, Result};
use std::alloc::Global;

/// How many zeros are written at a time, at most: 16 MiB.
const PREFILL_BUFFER_SIZE: usize = 16777216;

/// Makes files under reserved names after `files`, filled with zeros up to `size` bytes, until there are `wanted`.
/// Deletes the newest of those past that; if a write finds no space, deletes all. Returns the files that are left. A
/// write or a deletion that fails is only logged.
///
/// Fails with `Io` if a file isn't made, with `NumberRange` if one to be made or deleted has no name, or with `Memory`.
/// Then files before it may have been made or deleted.
pub fn ready_reserved<G: PipeFormat, F: FileSystem, L: Log>(
    alloc: Global,
    layout: &G,
    rt: &L,
    file_system: &mut F,
    size: usize,
    wanted: usize,
    files: Vec<File>,
) -> Result<Vec<File>>
    ensures ok { IfOk result (λ kept. Readies F.disk F.tells_space (G.file_paths layout.now) size wanted
        files.items kept.items file_system.old file_system.new) }
    ensures err { IfErr result (λ error. FailsToReady F.disk F.tells_space (G.file_paths layout.now) size
        wanted files.items error file_system.old file_system.new) }
{
    let mut files = files;
    let full = make_missing(alloc, layout, rt, file_system, size, wanted, &mut files)?;
    let left = kept_of(full, wanted);
    drop_newest(alloc, layout, rt, file_system, &files, left)?;
    files.truncate(left);
    Ok(files)
}

/// Makes files after these until there are `wanted`. Returns whether a write found no space.
fn make_missing<G: PipeFormat, F: FileSystem, L: Log>(
    alloc: Global,
    layout: &G,
    rt: &L,
    file_system: &mut F,
    size: usize,
    wanted: usize,
    files: &mut Vec<File>,
) -> Result<bool>
    ensures ok { IfOk result (λ full. MakesMissing F.disk F.tells_space (G.file_paths layout.now) size wanted
        files.old.items files.new.items full file_system.old file_system.new) }
    ensures err { IfErr result (λ error. FailsToMakeMissing F.disk F.tells_space (G.file_paths layout.now)
        size wanted files.old.items error file_system.old file_system.new) }
{
    let missing = wanted.saturating_sub(files.len());
    if missing == 0 {
        return Ok(false);
    }
    let bytes = zeros(alloc, size)?;
    let first = next_number(files);
    make_files(
        alloc,
        layout,
        rt,
        file_system,
        files,
        first,
        missing,
        &bytes,
        size,
    )
}

/// How many files are kept: as many as are wanted, or none if a write found no space.
fn kept_of(full: bool, wanted: usize) -> usize
    ensures { result ≡ kept_of full wanted }
{
    if full { 0 } else { wanted }
}

/// The zeros that are written at a time into a file of this size.
fn zeros(alloc: Global, size: usize) -> Result<Vec<u8>>
    ensures ok { IfOk result (λ bytes. bytes.items ≡ piece size) }
    ensures err { IfErr result (λ error. error ≡ Memory) }
{
    let mut bytes = Vec::new(alloc);
    bytes.resize(size.min(PREFILL_BUFFER_SIZE).max(1), 0)?;
    Ok(bytes)
}

/// The number after that of the last of these files, at most 2^64 - 1; the first number if there is none.
fn next_number(files: &[File]) -> FileSeq
    ensures { result ≡ next_number files.now }
{
    match files.last() {
        Some(file) => file.seq.saturating_add(1),
        None => DEFAULT_FIRST_FILE_SEQ,
    }
}
